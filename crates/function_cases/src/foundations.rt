// Answers to the cases about the cipher, the digest and words.
use crate::{Answer, Case, at_most, whole};
use std::array;
use words::Rule;

fn words_of(case: Case<'_>) -> [u16; 96] {
    let data = case.data;
    array::from_fn(|i| u16::from_le_bytes([data[2 * i], data[2 * i + 1]]))
}

// The first n words, or all where they are fewer.
fn first(words: &[u16], n: u64) -> &[u16] {
    &words[..at_most(n, words.len())]
}

pub(crate) fn digested(case: Case<'_>) -> u64 {
    digest::digest(
        case.a,
        whole(case.b, case.c),
        first(&words_of(case), case.n),
    )
}

pub(crate) fn joined(case: Case<'_>) -> u64 {
    words::join(first(&words_of(case), case.n))
}

fn rule_of(number: u64) -> Rule {
    if number == 0 {
        Rule::KeepBits
    } else {
        Rule::BlankOnly
    }
}

// Programs cells: 0 where it is done, else one more than the index of the refusing cell.
fn program(rule: Rule, cells: &mut [u16], at: usize, value: &[u16]) -> u64 {
    match words::program(rule, cells, at, value) {
        Ok(()) => 0,
        Err(cell) => 1 + cell as u64,
    }
}

// Words as data.
fn data_of(words: &[u16; 48]) -> [u8; 96] {
    let mut data = [0; 96];
    for (place, word) in data.chunks_exact_mut(2).zip(words) {
        place.copy_from_slice(&word.to_le_bytes());
    }
    data
}

// Up to 48 cells at the start of the data are programmed with the words behind them.
pub(crate) fn programmed(case: Case<'_>) -> Answer {
    let words = words_of(case);
    let count = at_most(case.n, 48);
    let value = first(&words[48..], case.m);
    let mut cells = [0; 48];
    cells[..count].copy_from_slice(&words[..count]);
    let result = program(rule_of(case.b), &mut cells[..count], case.a as usize, value);
    Answer {
        result,
        data: data_of(&cells),
    }
}

pub(crate) fn split(x: u64) -> Answer {
    let mut data = [0; 96];
    data[..8].copy_from_slice(words::split(x).map(u16::to_le_bytes).as_flattened());
    Answer { result: 0, data }
}

// The block encrypted n times over.
pub(crate) fn encrypted(key: u128, block: u64, n: u64) -> u64 {
    (0..n).fold(block, |x, _| present::encrypt(key, x))
}
