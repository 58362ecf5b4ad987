// The script's records and their reader, and the lines of the output.
#![tactic(auto)]

ghost use Rattle.std.specs.Prelude.{◌≡◌, ◌+◌, ◌≤◌, ◌<◌, length, take, drop, MatchResult};
ghost use Rattle.script.specs.Kinds.{number_of_kind, GivesKind};
ghost use Rattle.script.specs.Records.{kind_of, body_length, little_endian_at, command_at, refusal_code, next_at, place_after};
ghost use Rattle.script.specs.Reader.{reader_next, advanced_reader};
ghost use Rattle.script.specs.Lines.{digit_byte, digits, line_of, decimal, end_line};

use model::Command;
use std::marker::Model;

// The kinds of records, each with its number.
#[derive(Clone, Copy, PartialEq, Eq, Debug)]
pub enum RecordKind {
    Read = 1,
    Write = 2,
    FrontRead = 3,
    Digest = 4,
    ReadLock = 5,
    Transition = 6,
    PowerUp = 7,
}

// The longest script that is read.
pub const LONGEST: usize = 65536;

// Why a script is not read on, each with its code.
#[derive(Clone, Copy, PartialEq, Eq, Debug)]
pub enum Refusal {
    UnknownKind = 0x11,
    CutShort = 0x13,
    TooLong = 0x14,
}

// What stands at a place of a script: a record's command and the place after it, the end, or a refusal with its place.
// Kept (fixed): the paper names this enum as the one that `let .. else` takes a record out of, in `run_record` and `place_after`.
#[derive(Clone, Copy)]
pub enum Reading {
    Record(Command, usize),
    End,
    Refused(Refusal, usize),
}

impl Refusal {
    // The code of a refusal.
    // Kept (fixed): a public function, which docs/ name, and no `From` in its place.
    pub fn code(self) -> u8
        ensures { result ≡ refusal_code self }
    {
        self as u8
    }
}

impl TryFrom<u8> for RecordKind {
    type Error = Refusal;

    ghost try_from_gives = { GivesKind };

    #[tactic(auto, using(crate::proofs::RecordKinds::unknown_bytes))]
    fn try_from(byte: u8) -> Result<RecordKind, Refusal> {
        match byte {
            1 => Ok(RecordKind::Read),
            2 => Ok(RecordKind::Write),
            3 => Ok(RecordKind::FrontRead),
            4 => Ok(RecordKind::Digest),
            5 => Ok(RecordKind::ReadLock),
            6 => Ok(RecordKind::Transition),
            7 => Ok(RecordKind::PowerUp),
            _ => Err(Refusal::UnknownKind),
        }
    }
}

impl From<RecordKind> for u8 {
    ghost from_gives = { λ kind byte. byte ≡ number_of_kind kind };

    fn from(kind: RecordKind) -> u8 {
        kind as u8
    }
}

impl RecordKind {
    // How many bytes follow it.
    #[tactic(auto, using(crate::proofs::RecordKinds::body_lengths))]
    fn body_length(self) -> usize
        ensures { result ≡ body_length (number_of_kind self) }
    {
        match self {
            RecordKind::Read | RecordKind::FrontRead | RecordKind::Digest => 4,
            RecordKind::Write => 12,
            RecordKind::ReadLock => 1,
            RecordKind::Transition => 17,
            RecordKind::PowerUp => 0,
        }
    }
}

// The kind of a command's record.
pub fn kind_of(command: Command) -> RecordKind
    ensures { number_of_kind result ≡ kind_of command }
{
    match command {
        Command::Read(_) => RecordKind::Read,
        Command::Write(_, _) => RecordKind::Write,
        Command::FrontRead(_) => RecordKind::FrontRead,
        Command::Digest(_) => RecordKind::Digest,
        Command::ReadLock(_) => RecordKind::ReadLock,
        Command::Transition(_, _) => RecordKind::Transition,
        Command::PowerUp => RecordKind::PowerUp,
    }
}

// The bytes from `at` on, as many as are asked for.
fn bytes_at<const N: usize>(script: &[u8], at: usize) -> [u8; N]
    requires { at + N ≤ length script.now }
    ensures { result ≡ take N (drop at script.now) }
{
    *script[at..].first_chunk().unwrap()
}

// The address that stands at `at`.
#[tactic(auto, using(crate::proofs::Numbers::numbers))]
fn address_at(script: &[u8], at: usize) -> u32
    requires { at + 4 ≤ length script.now }
    ensures { result ≡ little_endian_at script.now at 4 }
{
    u32::from_le_bytes(bytes_at(script, at))
}

// The command of a kind whose body stands at `at`.
#[tactic(auto, using(crate::proofs::Numbers::numbers, crate::proofs::RecordKinds::commands, crate::proofs::RecordKinds::body_lengths))]
fn command_at(script: &[u8], kind: RecordKind, at: usize) -> Command
    requires { at + body_length (number_of_kind kind) ≤ length script.now }
    ensures { result ≡ command_at script.now (number_of_kind kind) at }
{
    match kind {
        RecordKind::Read => Command::Read(address_at(script, at)),
        RecordKind::Write => {
            Command::Write(
                address_at(script, at),
                u64::from_le_bytes(bytes_at(script, at + 4)),
            )
        }
        RecordKind::FrontRead => Command::FrontRead(address_at(script, at)),
        RecordKind::Digest => Command::Digest(address_at(script, at)),
        RecordKind::ReadLock => Command::ReadLock(script[at]),
        RecordKind::Transition => {
            Command::Transition(script[at], u128::from_le_bytes(bytes_at(script, at + 1)))
        }
        RecordKind::PowerUp => Command::PowerUp,
    }
}

// The command of the record at a place, and the place after it.
// Kept (fixed): this and the two below take script and place, since the paper has `Reader` thin over functions of slice and cursor.
#[tactic(auto, using(crate::proofs::Records::inside_tests))]
fn record_at(script: &[u8], place: usize) -> Result<(Command, usize), Refusal>
    requires short { length script.now ≤ LONGEST }
    requires inside { place < length script.now }
    ensures { MatchResult result (λ found. next_at script.now place ≡ Reading.Record found.0 found.1)
        (λ refusal. next_at script.now place ≡ Reading.Refused refusal place) }
{
    let kind = RecordKind::try_from(script[place])?;
    let next = place + 1 + kind.body_length();
    if script.len() < next {
        return Err(Refusal::CutShort);
    }
    Ok((command_at(script, kind, place + 1), next))
}

// What stands at a place of a script. Inlined, as `Reader::next` is, so that no reading is handed back in memory.
#[tactic(auto, using(crate::proofs::Records::outside))]
#[inline(always)]
fn next_at(script: &[u8], place: usize) -> Reading
    ensures { result ≡ next_at script.now place }
{
    if LONGEST < script.len() {
        return Reading::Refused(Refusal::TooLong, 0);
    }
    if script.len() <= place {
        return Reading::End;
    }
    match record_at(script, place) {
        Ok((command, next)) => Reading::Record(command, next),
        Err(refusal) => Reading::Refused(refusal, place),
    }
}

// The place after the record at a place: neither the end nor a refusal moves it.
fn place_after(script: &[u8], place: usize) -> usize
    ensures { result ≡ place_after (next_at script.now place) place }
{
    let Reading::Record(_, next) = next_at(script, place) else {
        return place;
    };
    next
}

// A script and a place in it.
// Kept (fixed): no `Iterator`, since "a refusal doesn't move the place" (`place_after`): its `next` would give the same refusal without end.
#[derive(Clone, Copy)]
pub struct Reader<'a> {
    pub script: &'a [u8],
    pub place: usize,
}

impl<'a> Reader<'a> {
    // What stands at its place.
    #[inline(always)]
    pub fn next(self) -> Reading
        ensures { result ≡ reader_next self.entry }
    {
        next_at(self.script, self.place)
    }

    // The reader after the record at its place.
    pub fn advanced(self) -> Reader<'a>
        ensures { result ≡ advanced_reader self.entry }
    {
        Reader {
            place: place_after(self.script, self.place),
            ..self
        }
    }
}

// What a reader at a place of a script answers.
// Kept (fixed): docs/ name it as the one way of reading; its promise is its own (edit `read_at_the_start`).
pub fn read_at(script: &[u8], place: usize) -> Reading
    ensures { result ≡ next_at script.now place }
{
    Reader { script, place }.next()
}

// The byte of a digit: 0 to 9, then a to f.
#[tactic(auto, using(crate::proofs::Digits::digit_bytes))]
fn digit_byte(digit: u64) -> u8
    requires { digit < 16 }
    ensures { result ≡ digit_byte digit }
{
    let digit = digit as u8;
    if digit < 10 {
        b'0' + digit
    } else {
        b'a' + (digit - 10)
    }
}

// Writes the lowest digits of x over a part, the highest first, as many as fit.
// Kept (proof): `write!` says what it wrote only where it answers `Ok`, which nothing promises, and a line can't fail.
fn put_digits(part: &mut [u8], base: u64, x: u64)
    requires { (0 < base) × (base ≤ 16) }
    ensures { part.new ≡ digits base (length part.old) x }
{
    let mut rest = x;
    // Kept (proof): after a loop over `part.iter_mut().rev()` a proof knows no element.
    for i in (0..part.len()).rev() {
        part[i] = digit_byte(rest % base);
        rest /= base;
    }
}

// The line of a record: kind, code and value in hex.
#[tactic(auto, unfolding(crate::specs::Lines::digits, crate::specs::Lines::line_of))]
pub fn line(kind: u8, code: u8, value: u64) -> [u8; 23]
    ensures { result ≡ line_of kind code value }
{
    let mut line = [b' '; 23];
    put_digits(&mut line[0..2], 16, u64::from(kind));
    put_digits(&mut line[3..5], 16, u64::from(code));
    put_digits(&mut line[6..22], 16, value);
    line[22] = b'\n';
    line
}

// How many decimal digits a number has.
#[tactic(auto, using(crate::proofs::Decimal::decimal_lengths))]
fn decimal_length(x: u64) -> usize
    ensures length { result ≡ length (decimal 20 x) }
    ensures few { result ≤ 20 }
{
    x.checked_ilog10().map_or(1, |power| power as usize + 1)
}

// The end line, with space for the longest: zeros behind its bytes.
// Kept (fixed): a buffer and its length, inside of this type alone: there is no heap.
#[derive(Clone, Copy)]
pub struct EndLine {
    bytes: [u8; 25],
    len: usize,
}

// Clauses see its bytes.
impl Model for EndLine {
    ghost use Rattle.std.specs.Prelude.{◌≡◌, ℕ, ◌-◌, ◌≤◌, List, ◌++◌, length, take, replicate};
    ghost use Rattle.std.proofs.Common.{arith, length-take-le};

    ghost Value = { List ℕ };

    ghost view = { λ line. take line.len line.bytes };

    ghost invariant = { λ line. (line.len ≤ 25) × (length line.bytes ≡ 25)
        × (take line.len line.bytes ++ replicate (25 - line.len) 0 ≡ line.bytes) };

    ghost inverse = { λ bytes. record { bytes = bytes ++ replicate (25 - length bytes) 0; len = length bytes } };

    ghost inverse_ok = { λ line h i.
        let long = length-take-le line.len line.bytes (omega (arith, h.0, h.1)) in
        let whole : take line.len line.bytes ++ replicate (25 - length (take line.len line.bytes)) 0 ≡ line.bytes = rw long h.2 in
        record { bytes = whole i; len = long i } };
}

impl EndLine {
    // Its bytes.
    pub fn as_bytes(&self) -> &[u8]
        ensures { result.now ≡ self.now }
    {
        &self.bytes[..self.len]
    }
}

// The end line of a count of lines.
pub fn end_line(count: u64) -> EndLine
    ensures { result ≡ end_line count }
{
    let mut bytes = [0; 25];
    let end = 4 + decimal_length(count);
    bytes[..4].copy_from_slice(b"end ");
    put_digits(&mut bytes[4..end], 10, count);
    bytes[end] = b'\n';
    EndLine {
        bytes,
        len: end + 1,
    }
}
