// The life cycle: counter and state words, their decoding, and the transition table.
#![tactic(auto)]

ghost use Rattle.std.specs.Prelude.{◌≡◌, ◌<◌, eqb, get_or};
ghost use Rattle.basics.specs.Choice.{when◌then◌else◌};
ghost use Rattle.life_cycle.specs.Words.{counter_word, counter_words, has_b, state_word, state_words, encoded_by, decoded};
ghost use Rattle.life_cycle.specs.Transitions.{is_test, is_unlocked, is_locked, test_index, table_entry};

use constants::{FIRST_A, FIRST_B, FIRST_C, FIRST_D};
use std::array;
use words::word_at;

// The states by their numbers. TEST_UNLOCKEDn is 2n + 1, TEST_LOCKEDn is 2n + 2.
// Kept (fixed): no enum, since `table_entry`, `state_words` and the definitions under them answer for every byte: a transition's target may be any.
pub const RAW: u8 = 0;

pub const TEST_UNLOCKED0: u8 = 1;

pub const TEST_UNLOCKED7: u8 = 15;

pub const DEV: u8 = 16;

pub const PROD: u8 = 17;

pub const PROD_END: u8 = 18;

pub const RMA: u8 = 19;

pub const SCRAP: u8 = 20;

// The most strokes there are.
pub const STROKES: u8 = 24;

// What the life cycle words stand for: a state number and a stroke count.
#[derive(Clone, Copy)]
pub struct LifeCycle {
    pub state: u8,
    pub count: u8,
}

// The token that a transition needs.
#[derive(Clone, Copy)]
pub enum Token {
    Nothing,
    RawUnlock,
    TestUnlock,
    TestExit,
    Rma,
}

// A word of a number: blank for 0, and for another number its upper constant where it marks the word, its lower one where it doesn't.
#[tactic(auto, using(basics::proofs::Choice::choices))]
fn coded_word(constants: &[u16], number: u8, marked: bool, upper: usize, lower: usize) -> u16
    ensures { result ≡ (when eqb number 0 then 0 else when marked then get_or constants.now upper 0 else get_or constants.now lower 0) }
{
    match (number, marked) {
        (0, _) => 0,
        (_, true) => word_at(constants, upper),
        (_, false) => word_at(constants, lower),
    }
}

// Word i of a stroke count.
#[tactic(auto, unfolding(crate::specs::Words::counter_word))]
fn counter_word(constants: &[u16], count: u8, i: usize) -> u16
    requires { i < 24 }
    ensures { result ≡ counter_word constants.now count i }
{
    let below = i < usize::from(count);
    coded_word(constants, count, below, FIRST_D + i, FIRST_C + i)
}

// The counter words of a stroke count.
pub fn counter_words(constants: &[u16], count: u8) -> [u16; 24]
    ensures { result ≡ counter_words constants.now count }
{
    array::from_fn(|i| counter_word(constants, count, i))
}

// The state has B in word i.
#[tactic(auto, using(basics::proofs::Choice::choices), unfolding(crate::specs::Words::has_b))]
fn has_b(state: u8, i: usize) -> bool
    ensures { result ≡ has_b state i }
{
    match state {
        RAW..=TEST_UNLOCKED7 => i < usize::from(state),
        DEV => i <= 15,
        PROD => (i <= 14) | (i == 16),
        PROD_END => (i <= 14) | (i == 17),
        RMA => (i <= 16) | (i == 18),
        _ => true,
    }
}

// Word i of a state.
#[tactic(auto, unfolding(crate::specs::Words::state_word))]
fn state_word(constants: &[u16], state: u8, i: usize) -> u16
    requires { i < 20 }
    ensures { result ≡ state_word constants.now state i }
{
    coded_word(constants, state, has_b(state, i), FIRST_B + i, FIRST_A + i)
}

// The state words of a state.
pub fn state_words(constants: &[u16], state: u8) -> [u16; 20]
    ensures { result ≡ state_words constants.now state }
{
    array::from_fn(|i| state_word(constants, state, i))
}

// The stroke count whose counter words these are.
// Kept (plainer): one function over the encoding would ask a clause of its closure, where each of these two is one line.
fn count_of(constants: &[u16], counter: &[u16]) -> Option<u8>
    ensures { result ≡ encoded_by (counter_words constants.now) counter.now 0 25 }
{
    (0..STROKES + 1).find(|count| counter == counter_words(constants, *count).as_slice())
}

// The state whose state words these are.
fn state_of(constants: &[u16], state: &[u16]) -> Option<u8>
    ensures { result ≡ encoded_by (state_words constants.now) state.now 0 21 }
{
    (RAW..SCRAP + 1).find(|number| state == state_words(constants, *number).as_slice())
}

// What counter words and state words stand for. Words that are no encoding, and any other number of words, stand for nothing; nor does count 0 with
// a state other than RAW.
#[tactic(auto, using(basics::proofs::Choice::choices), unfolding(crate::specs::Words::decoded, crate::specs::Words::life_cycle_of))]
pub fn decode(constants: &[u16], counter: &[u16], state: &[u16]) -> Option<LifeCycle>
    ensures { result ≡ decoded constants.now counter.now state.now }
{
    let count = count_of(constants, counter)?;
    let state = state_of(constants, state)?;
    if (count == 0) & (state != RAW) {
        None
    } else {
        Some(LifeCycle { state, count })
    }
}

#[tactic(auto, unfolding(crate::specs::Transitions::is_test))]
fn is_test(state: u8) -> bool
    ensures { result ≡ is_test state }
{
    matches!(state, TEST_UNLOCKED0..=TEST_UNLOCKED7)
}

#[tactic(auto, unfolding(crate::specs::Transitions::is_unlocked))]
fn is_unlocked(state: u8) -> bool
    ensures { result ≡ is_unlocked state }
{
    is_test(state) & (state % 2 == 1)
}

#[tactic(auto, unfolding(crate::specs::Transitions::is_locked))]
fn is_locked(state: u8) -> bool
    ensures { result ≡ is_locked state }
{
    is_test(state) & (state % 2 == 0)
}

// The n of TEST_UNLOCKEDn or TEST_LOCKEDn.
#[tactic(auto, unfolding(crate::specs::Transitions::test_index))]
fn test_index(state: u8) -> u8
    ensures { result ≡ test_index state }
{
    state.saturating_sub(1) / 2
}

// The token that a transition of the table needs, row by row; nothing for a transition that is not in the table.
#[tactic(auto, using(basics::proofs::Choice::choices), unfolding(crate::specs::Transitions::table_entry))]
pub fn table_entry(from: u8, to: u8) -> Option<Token>
    ensures { result ≡ table_entry from to }
{
    let n = test_index(from);
    let m = test_index(to);
    if (from == RAW) & (to == TEST_UNLOCKED0) {
        Some(Token::RawUnlock)
    } else if is_unlocked(from) & is_locked(to) & (n <= m) {
        Some(Token::Nothing)
    } else if is_locked(from) & is_unlocked(to) & (n < m) {
        Some(Token::TestUnlock)
    } else if is_test(from) & (DEV <= to) & (to <= PROD_END) {
        Some(Token::TestExit)
    } else if is_unlocked(from) & (to == RMA) {
        Some(Token::Nothing)
    } else if ((from == DEV) | (from == PROD)) & (to == RMA) {
        Some(Token::Rma)
    } else if (from < SCRAP) & (to == SCRAP) {
        Some(Token::Nothing)
    } else {
        None
    }
}
