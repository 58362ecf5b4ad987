// Numbers in bytes, the lowest byte first: read from a frame, and written over a part of it.
ghost use Rattle.std.specs.Prelude.{◌≡◌, ◌+◌, ◌*◌, ◌≤◌, length};
ghost use Rattle.script.specs.Records.{little_endian_at};
ghost use Rattle.frames.specs.Bytes.{numbers_at, all_bytes};

use std::array;

// The number of the two bytes from `at` on.
// Kept (plainer): this and the next differ in the number's type, and one function of both would need a trait for `from_le_bytes`.
#[tactic(auto, using(script::proofs::Numbers::numbers))]
pub(crate) fn two_at(frame: &[u8; 5120], at: usize) -> u16
    requires { at + 2 ≤ 5120 }
    ensures { result ≡ little_endian_at frame.now at 2 }
{
    u16::from_le_bytes(*frame[at..].first_chunk().unwrap())
}

// The number of the eight bytes from `at` on.
#[tactic(auto, using(script::proofs::Numbers::numbers))]
pub(crate) fn eight_at(frame: &[u8; 5120], at: usize) -> u64
    requires { at + 8 ≤ 5120 }
    ensures { result ≡ little_endian_at frame.now at 8 }
{
    u64::from_le_bytes(*frame[at..].first_chunk().unwrap())
}

// The words from `at` on, as many as are asked for.
pub(crate) fn words_at<const N: usize>(frame: &[u8; 5120], at: usize) -> [u16; N]
    requires { at + 2 * N ≤ 5120 }
    ensures { result ≡ numbers_at frame.now at 2 N }
{
    array::from_fn(|i| two_at(frame, at + 2 * i))
}

// The bytes of words over a part that is as long as these are.
pub(crate) fn put_words(part: &mut [u8], words: &[u16])
    requires { length part.old ≡ 2 * length words.now }
    ensures { part.new ≡ all_bytes 2 words.now }
{
    // Kept (proof): after a loop over `part.chunks_exact_mut(2)` a proof knows no element.
    for (i, word) in words.iter().enumerate() {
        part[2 * i..2 * i + 2].copy_from_slice(&word.to_le_bytes());
    }
}
