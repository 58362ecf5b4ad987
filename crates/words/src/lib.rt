// Fuse words of 16 bits: the numbers they stand for, and programming.
#![tactic(auto)]

ghost use Rattle.std.specs.Prelude.{◌≡◌, ◌<◌, length, get_or, take, position, zip, IfErr};
ghost use Rattle.words.specs.Words.{number_of, part_at, words_of};
ghost use Rattle.words.specs.Programming.{refuses, program_answer, program_cells};

use std::array;

// A rule of refusal: a programmed bit must stay, or every word must be blank.
#[derive(Clone, Copy)]
pub enum Rule {
    KeepBits,
    BlankOnly,
}

// The word at an index, and 0 past the end.
pub fn word_at(words: &[u16], i: usize) -> u16
    ensures { result ≡ get_or words.now i 0 }
{
    words.get(i).copied().unwrap_or(0)
}

// The four words of a number, the lowest first.
pub fn split(x: u64) -> [u16; 4]
    ensures { result ≡ words_of 4 x }
{
    array::from_fn(|i| (x >> (16 * i) & 0xffff) as u16)
}

// The number that the lowest four words stand for, or all words where they are fewer, from the highest word down.
pub fn join(words: &[u16]) -> u64
    ensures { result ≡ number_of (take 4 words.now) }
{
    let lowest = &words[..words.len().min(4)];
    lowest
        .iter()
        .rev()
        .fold(0, |x, word| (x << 16) | u64::from(*word))
}

// The number of the four words from `at` on, zeros past the last word.
#[tactic(auto, using(crate::proofs::Parts::parts))]
pub fn block_at(words: &[u16], at: usize) -> u64
    ensures { result ≡ number_of (part_at words.now at 4) }
{
    if at < words.len() {
        join(&words[at..])
    } else {
        0
    }
}

// The number of the eight words from `at` on, zeros past the last word.
#[tactic(auto, using(crate::proofs::Parts::parts))]
pub fn eight_words(words: &[u16], at: usize) -> u128
    ensures { result ≡ number_of (part_at words.now at 8) }
{
    if words.len() <= at {
        return 0;
    }
    let low = u128::from(block_at(words, at));
    let high = u128::from(block_at(words, at + 4));
    (high << 64) | low
}

// Whether a stored word refuses a word of a value.
#[tactic(auto, using(crate::proofs::Rules::rule_tests))]
fn refuses(rule: Rule, stored: u16, value: u16) -> bool
    ensures { result ≡ refuses rule stored value }
{
    match rule {
        Rule::KeepBits => (stored | value) != value,
        Rule::BlankOnly => stored != 0,
    }
}

// The lowest word of a part that refuses its word of the value.
fn lowest_refusing(rule: Rule, part: &[u16], value: &[u16]) -> Option<usize>
    ensures { result ≡ position (λ (stored, word). refuses rule stored word) (zip part.now value.now) }
{
    part.iter()
        .zip(value)
        .position(|(stored, word)| refuses(rule, *stored, *word))
}

// Programs a part with a value of as many words: all are tested before one changes.
fn program_part(rule: Rule, part: &mut [u16], value: &[u16]) -> Result<(), usize>
    requires { length part.old ≡ length value.now }
    ensures answer { result ≡ program_answer rule part.old 0 value.now }
    ensures words { part.new ≡ program_cells rule part.old 0 value.now }
    ensures within { IfErr result (λ i. i < length part.old) }
{
    if let Some(i) = lowest_refusing(rule, part, value) {
        return Err(i);
    }
    part.copy_from_slice(value);
    Ok(())
}

// Programs the cells from `at` on with a value, by a rule. Words of the value that would lie past the last cell are not there.
pub fn program(rule: Rule, cells: &mut [u16], at: usize, value: &[u16]) -> Result<(), usize>
    ensures answer { result ≡ program_answer rule cells.old at value.now }
    ensures words { cells.new ≡ program_cells rule cells.old at value.now }
{
    if cells.len() <= at {
        return Ok(());
    }
    let n = value.len().min(cells.len() - at);
    let end = at + n;
    program_part(rule, &mut cells[at..end], &value[..n]).map_err(|i| at + i)
}
