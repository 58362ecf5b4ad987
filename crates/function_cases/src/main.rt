// Answers cases from standard input, each by a function of the libraries, for a program written apart to compare. A case is 256 bytes:
// operation, a, b, c, n and m of 8 bytes each, 16 bytes that say nothing, 192 bytes of data. An answer is 128 bytes: a result of 8, 24
// zeros, 96 bytes of data. All is little-endian, and data are words of 2 bytes where the operation is on words.
// tests/independent/README.md lists the operations.
#![tactic(auto)]

mod foundations;
mod hashes;

ghost use Rattle.std.specs.Prelude.{◌≤◌};

use std::io;
use std::io::{Read, Write};

// What a case says.
#[derive(Clone, Copy)]
pub(crate) struct Case<'a> {
    operation: u64,
    pub(crate) a: u64,
    pub(crate) b: u64,
    pub(crate) c: u64,
    pub(crate) n: u64,
    pub(crate) m: u64,
    pub(crate) data: &'a [u8; 192],
}

#[derive(Clone, Copy)]
pub(crate) struct Answer {
    pub(crate) result: u64,
    pub(crate) data: [u8; 96],
}

// An answer without data.
fn number(value: u64) -> Answer {
    Answer {
        result: value,
        data: [0; 96],
    }
}

// The number of two halves.
pub(crate) fn whole(high: u64, low: u64) -> u128 {
    (u128::from(high) << 64) | u128::from(low)
}

pub(crate) fn at_most(n: u64, most: usize) -> usize
    ensures { result ≤ most }
{
    n.min(most as u64) as usize
}

// The number of the eight bytes from `at` on.
fn number_at(case: &[u8; 256], at: usize) -> u64
    requires { at ≤ 248 }
{
    u64::from_le_bytes(*case[at..].first_chunk().unwrap())
}

fn case_of(bytes: &[u8; 256]) -> Case<'_> {
    Case {
        operation: number_at(bytes, 0),
        a: number_at(bytes, 8),
        b: number_at(bytes, 16),
        c: number_at(bytes, 24),
        n: number_at(bytes, 32),
        m: number_at(bytes, 40),
        data: bytes[64..].first_chunk().unwrap(),
    }
}

fn answer_to(case: Case<'_>) -> Answer {
    // Kept (plainer): an enum of the operations would be made from these numbers and matched here, each row twice.
    match case.operation {
        1 => number(present::encrypt(whole(case.a, case.b), case.c)),
        2 => number(present::decrypt(whole(case.a, case.b), case.c)),
        3 => number(foundations::digested(case)),
        4 => foundations::programmed(case),
        5 => foundations::split(case.a),
        6 => number(foundations::joined(case)),
        7 => number(foundations::encrypted(whole(case.a, case.b), case.c, case.n)),
        8 => hashes::cshake128(case),
        9 => hashes::permutation(case),
        10 => hashes::token(whole(case.a, case.b), case.n),
        _ => number(0),
    }
}

fn bytes_of(answer: &Answer) -> [u8; 128] {
    let mut bytes = [0; 128];
    bytes[..8].copy_from_slice(&answer.result.to_le_bytes());
    bytes[32..].copy_from_slice(&answer.data);
    bytes
}

// Reads a case and answers it. It fails where no whole case comes, or the answer is not taken.
fn answer_next<R: Read, W: Write>(reader: &mut R, writer: &mut W) -> io::Result<()> {
    let mut case = [0; 256];
    reader.read_exact(&mut case)?;
    let answer = answer_to(case_of(&case));
    writer.write_all(&bytes_of(&answer))
}

// Nothing says that the input ends, so the cases are counted, up to a number that no run reaches.
fn answer_all<R: Read, W: Write>(reader: &mut R, writer: &mut W) -> io::Result<()> {
    for _ in 0..u64::MAX {
        answer_next(reader, writer)?;
    }
    Ok(())
}

// The end of the input is the end of the program, and no failure of it.
fn main(rt: HostRuntime) {
    let _ = answer_all(&mut rt.stdin(), &mut io::writer(&rt));
}
