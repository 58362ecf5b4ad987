// Where each constant stands among the constants, and whether they are valid.
#![tactic(auto)]

ghost use Rattle.std.specs.Prelude.{◌≡◌, ◌+◌, ◌<◌, get_or};
ghost use Rattle.basics.specs.Range.{all_below};
ghost use Rattle.constants.specs.Constants.{pair_valid, valid_constants};

use words::word_at;

// How many words there are.
pub const COUNT: usize = 132;

// The first word of each constant: keys of eight words, the digest's start value of four and its final key of eight.
pub const SECRET0_KEY: usize = 0;

pub const SECRET1_KEY: usize = 8;

pub const SECRET2_KEY: usize = 16;

pub const DIGEST_START: usize = 24;

pub const DIGEST_FINAL: usize = 28;

// C and D of the counter words, A and B of the state words.
pub const FIRST_C: usize = 36;

pub const FIRST_D: usize = 60;

pub const FIRST_A: usize = 84;

pub const FIRST_B: usize = 104;

// The hash of the RAW_UNLOCK token, eight words.
pub const RAW_UNLOCK_HASH: usize = 124;

// A lower constant is nonzero, differs from its upper one and has no bit that the upper one lacks.
#[tactic(auto, using(crate::proofs::Constants::pair_tests), unfolding(crate::specs::Constants::pair_valid))]
fn pair_valid(low: u16, up: u16) -> bool
    ensures { result ≡ pair_valid low up }
{
    (low != 0) & (low != up) & ((low | up) == up)
}

// The n lower constants from `low` on and their upper ones from `up` on are valid pairs. No early return: it runs faster so.
fn pairs_valid(constants: &[u16], low: usize, up: usize, n: usize) -> bool
    requires lower { low + n < 1000 }
    requires upper { up + n < 1000 }
    ensures { result ≡ all_below n (λ i. pair_valid (get_or constants.now (low + i) 0) (get_or constants.now (up + i) 0)) }
{
    (0..n).fold(
        true,
        |valid, i| valid & pair_valid(word_at(constants, low + i), word_at(constants, up + i)),
    )
}

// All pairs of the life cycle's constants are valid.
#[tactic(auto, unfolding(crate::specs::Constants::valid_constants))]
pub fn valid_constants(constants: &[u16]) -> bool
    ensures { result ≡ valid_constants constants.now }
{
    let counter = pairs_valid(constants, FIRST_C, FIRST_D, 24);
    let state = pairs_valid(constants, FIRST_A, FIRST_B, 20);
    counter & state
}
