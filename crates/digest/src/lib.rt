// The digest construction over the block cipher.
#![tactic(auto)]

ghost use Rattle.std.specs.Prelude.{◌≡◌};
ghost use Rattle.digest.specs.Digest.{absorb, digest_words};

use words::eight_words;

// The step of the construction.
#[tactic(auto, unfolding(crate::specs::Digest::absorb))]
fn absorbed(key: u128, state: u64) -> u64
    ensures { result ≡ absorb key state }
{
    present::encrypt(key, state) ^ state
}

// The digest of words from a start value, closed with a final key. A last chunk of fewer than eight words has zeros past them.
pub fn digest(start: u64, final_key: u128, words: &[u16]) -> u64
    ensures { result ≡ digest_words start final_key words.now }
{
    let mut state = start;
    for chunk in words.chunks(8) {
        state = absorbed(eight_words(chunk, 0), state);
    }
    absorbed(final_key, state)
}
