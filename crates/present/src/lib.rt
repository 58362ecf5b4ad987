// The block cipher PRESENT: 64-bit block, 128-bit key, 31 rounds and a last key addition.
// Groups of four bits and parts of the key register are put together by a sum: their bits do not meet.
#![tactic(auto)]

mod tables;

ghost use Rattle.std.specs.Prelude.{◌≡◌, ◌+◌, ◌*◌, ◌^◌, ◌<◌};
ghost use Rattle.basics.specs.Digits.{digit};
ghost use Rattle.present.specs.Present.{s_box, substitute, permute, round_key, substitute_top, key_step, round_keys, encrypt_block};
ghost use Rattle.present.specs.Present.{s_box_inverse, permute_back, decrypt_block};
ghost use Rattle.present.specs.Tables.{lookups};

const ROUNDS: usize = 31;

// The S-box and its inverse, each as a word of 16 groups of four bits: group v is the value at v.
const S_BOX: u64 = 0x2174_8fe3_da09_b65c;

const S_BOX_INVERSE: u64 = 0xa970_364b_d21c_8fe5;

// Group i of four bits of x.
#[tactic(auto, using(crate::proofs::Groups::group_is))]
fn group(x: u64, i: u64) -> u64
    requires { i < 16 }
    ensures { result ≡ digit 16 x i }
{
    (x >> (4 * i)) & 15
}

// The S-box at v.
#[tactic(auto, using(crate::proofs::Boxes::held), unfolding(crate::specs::Present::s_box, basics::specs::Range::all_below))]
fn s_box(v: u64) -> u64
    requires { v < 16 }
    ensures { (result ≡ s_box v) × (result < 16) }
{
    group(S_BOX, v)
}

// Each group of x through the box that a word holds.
#[tactic(auto, unfolding(crate::specs::Present::substitute, basics::specs::Range::sum))]
fn substituted(word: u64, x: u64) -> u64
    ensures { result ≡ substitute (digit 16 word) x }
{
    let mut out = 0;
    for i in 0..16 {
        out += group(word, group(x, i)) << (4 * i);
    }
    out
}

// The exclusive or of the entries that a table has for x's groups.
#[tactic(auto, unfolding(crate::specs::Tables::lookups))]
fn looked_up(table: &[u64; 256], x: u64) -> u64
    ensures { result ≡ lookups table.now 16 x }
{
    let mut out = 0;
    for i in 0..16 {
        out ^= table[(16 * i + group(x, i)) as usize];
    }
    out
}

// The boxes and the move of bits of a round.
#[tactic(auto, using(crate::proofs::Lookups::lookups_in_tables))]
fn round(x: u64) -> u64
    ensures { result ≡ permute (substitute s_box x) }
{
    looked_up(tables::round_table(), x)
}

// The move of bits back of a state that first goes back through the boxes.
#[tactic(auto, using(crate::proofs::Lookups::lookups_in_tables))]
fn inverse_round(x: u64) -> u64
    ensures { result ≡ permute_back (substitute s_box_inverse x) }
{
    looked_up(tables::inverse_table(), x)
}

// Each bit brought back from its place: the S-box undoes the inverse S-box of the round, and its permutation back is left.
fn permuted_back(x: u64) -> u64
    ensures { result ≡ permute_back x }
{
    inverse_round(substituted(S_BOX, x))
}

#[tactic(auto, unfolding(crate::specs::Present::round_key))]
fn round_key(key: u128) -> u64
    ensures { result ≡ round_key key }
{
    (key >> 64) as u64
}

// The S-box on the two top groups of the key register.
fn top_substituted(key: u128) -> u128
    ensures { result ≡ substitute_top key }
{
    let high = round_key(key);
    let top = (s_box(group(high, 15)) << 4) + s_box(group(high, 14));
    (u128::from(top) << 120) + (key & 0x00ff_ffff_ffff_ffff_ffff_ffff_ffff_ffff)
}

// The key step of a round.
#[tactic(auto, using(crate::proofs::KeyRegister::rotated), unfolding(crate::specs::Present::key_step))]
fn key_step(round: usize, key: u128) -> u128
    ensures { result ≡ key_step round key }
{
    top_substituted(key.rotate_left(61)) ^ ((round as u128) << 62)
}

// The 32 round keys.
#[tactic(auto, unfolding(crate::specs::Present::key_after))]
fn round_keys(key: u128) -> [u64; 32]
    ensures { result ≡ round_keys key }
{
    let mut keys = [0; 32];
    let mut register = key;
    for (i, place) in keys.iter_mut().enumerate() {
        *place = round_key(register);
        register = key_step(i + 1, register);
    }
    keys
}

// A block encrypted under a key. The key register goes along with the state.
#[tactic(auto, unfolding(crate::specs::Present::key_after, crate::specs::Present::state_after, crate::specs::Present::encrypt_block))]
pub fn encrypt(key: u128, block: u64) -> u64
    ensures { result ≡ encrypt_block key block }
{
    let mut state = block;
    let mut register = key;
    for i in 1..=ROUNDS {
        state = round(state ^ round_key(register));
        register = key_step(i, register);
    }
    state ^ round_key(register)
}

// A block decrypted under a key. The permutation back distributes over the key addition, so that a round may end with it, as the entries of the
// table do: the state is held permuted back, and each round key is permuted back before it is added.
pub fn decrypt(key: u128, block: u64) -> u64
    ensures { result ≡ decrypt_block key block }
{
    let keys = round_keys(key);
    let mut state = permuted_back(block ^ keys[ROUNDS]);
    for round_key in keys[1..ROUNDS].iter().rev() {
        state = inverse_round(state) ^ permuted_back(*round_key);
    }
    substituted(S_BOX_INVERSE, state) ^ keys[0]
}
