// A rehearsal, record by record: the next record of a script is read and executed, and its line made. And the files of words.
#![tactic(auto)]

ghost use Rattle.std.specs.Prelude.{◌≡◌, List, ◌++◌, ℕ, length, drop};
ghost use Rattle.partitions.specs.Maps.{map_of};
ghost use Rattle.chip.specs.Chip.{lent_of, machine_of};
ghost use Rattle.transcript.specs.Files.{lent_words};
ghost use Rattle.transcript.specs.Transcript.{refused_kind, map_for, lines_of};
ghost use Rattle.transcript.specs.Runs.{stopped_of, run_of, run_with};

use chip::Chip;
use model::{Outcome, Session};
use partitions::{MapName, map2};
use script::{Reader, Reading, Refusal};

// How a rehearsal goes on: with a line and more to come, with a last line, or with the script's end and no line.
#[derive(Clone, Copy, PartialEq, Eq, Debug)]
pub enum Continuation {
    Continues([u8; 23]),
    Stops([u8; 23]),
    Ends,
}

// What a record gives back beside what is lent.
#[derive(Clone, Copy)]
pub struct RunOutcome {
    pub session: Session,
    pub continuation: Continuation,
    pub place: usize,
}

// The kind that a refusal's line begins with: the byte as read, and 0 for a script that is too long.
#[tactic(auto, unfolding(crate::specs::Transcript::refused_kind))]
fn refused_kind(script: &[u8], refusal: Refusal, place: usize) -> u8
    ensures { result ≡ refused_kind script.now refusal place }
{
    match refusal {
        Refusal::UnknownKind | Refusal::CutShort => script.get(place).copied().unwrap_or(0),
        Refusal::TooLong => 0,
    }
}

// How a rehearsal ends where no record was found: a refusal's line is the last.
fn stopped(script: &[u8], reading: Reading) -> Continuation
    ensures { result ≡ stopped_of reading script.now }
{
    match reading {
        Reading::Record(_, _) | Reading::End => Continuation::Ends,
        Reading::Refused(refusal, at) => {
            let kind = refused_kind(script, refusal, at);
            Continuation::Stops(script::line(kind, refusal.code(), at as u64))
        }
    }
}

// Executes the record that a reader comes to and makes its line; or says that none is left, or why the script is not read on. Place and session stay as they
// were where there is no record.
pub fn run_record(
    reader: Reader<'_>,
    chip: Chip<'_>,
    cells: &mut [u16],
    copy: &mut [u16],
    session: Session,
) -> RunOutcome
    ensures { run_with (lent_of cells.new copy.new chip.entry.constants.now) result
        ≡ run_of (map_of chip.entry.map) reader.entry.script.now reader.entry.place
        (machine_of (lent_of cells.old copy.old chip.entry.constants.now) session) }
{
    let reading = reader.next();
    let Reading::Record(command, next) = reading else {
        return RunOutcome {
            session,
            continuation: stopped(reader.script, reading),
            place: reader.place,
        };
    };
    let Outcome { session, answer } = controller::execute(chip, cells, copy, session, command);
    let kind = u8::from(script::kind_of(command));
    let line = script::line(kind, model::code_of(answer), model::value_of(answer));
    RunOutcome {
        session,
        continuation: Continuation::Continues(line),
        place: next,
    }
}

// The map that an image is taken for, by its length in bytes.
#[tactic(auto, using(crate::proofs::Maps::maps_named))]
pub fn map_for(image: &[u8]) -> MapName
    ensures { result ≡ map_for image.now }
{
    if image.len() == map2::LifeCycle::END {
        MapName::Map2
    } else {
        MapName::Map1
    }
}

// How many lines a script gives, whatever the image and the constants are: what its end line says.
pub fn line_count(script: &[u8]) -> u64
    ensures { (image constants : List ℕ) → result ≡ length (lines_of script.now image constants) }
{
    let mut reader = Reader { script, place: 0 };
    let mut count = 0;
    loop {
        match reader.next() {
            Reading::Record(_, next) => {
                reader.place = next;
                count += 1;
            }
            Reading::End => return count,
            Reading::Refused(_, _) => return count + 1,
        }
    }
}

// Fills words from the start with those of a file, and says how many they are: none where the file is no array of words, or has too many.
// Kept (plainer): the count is the answer, as `Read::read`'s is; the words that it tells of are the caller's `&words[..count]`.
pub fn file_words(bytes: &[u8], words: &mut [u16]) -> usize
    ensures count { result ≡ length (lent_words (length words.old) bytes.now) }
    ensures words { words.new ≡ lent_words (length words.old) bytes.now ++ drop result words.old }
{
    let (pairs, rest) = bytes.as_chunks::<2>();
    if !rest.is_empty() || words.len() < pairs.len() {
        return 0;
    }
    // Kept (proof): after a loop over `words.iter_mut().zip(pairs)` a proof knows no element.
    for (i, pair) in pairs.iter().enumerate() {
        words[i] = u16::from_le_bytes(*pair);
    }
    pairs.len()
}
