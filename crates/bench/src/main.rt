// The bench program: it reads the script and the two files, and writes the lines that `transcript` and `script` make. Where standard output does not
// take a line, it writes no more of them, so that the end line only stands behind all lines, and says so on standard error.
#![tactic(auto)]

mod files;
mod lines;

ghost use Rattle.std.specs.Prelude.{OnOk};
ghost use Rattle.std.specs.Io.KnownBytes.{Appends};
ghost use Rattle.script.specs.Lines.{end_line};

use chip::Chip;
use lines::Lines;
use model::Session;
use script::Reader;
use std::io;
use std::io::{Cursor, Eprint, Write};
use transcript::Continuation;

// Runs records until one is the last, or its line is not taken. A record has at least a byte, so that the script's end comes before the count's.
fn run_records<W: Write>(
    writer: &mut W,
    lines: &mut Lines,
    script: &[u8],
    chip: Chip<'_>,
    cells: &mut [u16],
    copy: &mut [u16],
) -> io::Result<()> {
    let mut reader = Reader { script, place: 0 };
    let mut session = Session::fresh();
    for _ in 0..=script.len() {
        let outcome = transcript::run_record(reader, chip, cells, copy, session);
        match outcome.continuation {
            Continuation::Continues(line) => lines.add(writer, &line)?,
            Continuation::Stops(line) => return lines.add(writer, &line),
            Continuation::Ends => return Ok(()),
        }
        session = outcome.session;
        reader.place = outcome.place;
    }
    Ok(())
}

// Writes the end line.
fn write_end<W: Write>(writer: &mut W, count: u64) -> io::Result<()>
    ensures { OnOk result (Appends (W.contents writer.old) (W.contents writer.new) (end_line count)) }
{
    writer.write_all(script::end_line(count).as_bytes())
}

// Writes the lines of a script and its end line, from a fresh session record and a zero copy; it stops at the first that is not taken.
fn rehearse<W: Write>(
    writer: &mut W,
    script: &[u8],
    chip: Chip<'_>,
    cells: &mut [u16],
) -> io::Result<()> {
    // As many words as a fit map may have.
    let mut copy = [0; 1024];
    let copy = &mut copy[..chip.map.words()];
    let mut lines = Lines::none();
    run_records(writer, &mut lines, script, chip, cells, copy)?;
    lines.write_to(writer)?;
    write_end(writer, transcript::line_count(script))
}

// The text at the start of a buffer, up to a position in it.
fn text_before(position: u64, bytes: &[u8]) -> Option<&str> {
    str::from_utf8(bytes.get(..position as usize)?).ok()
}

// The system's text for an error, without the number that is printed behind it.
fn without_number(text: &str, code: Option<i32>) -> &str {
    let Some(code) = code else {
        return text;
    };
    let mut number = Cursor::new([0u8; 32]);
    if write!(number, " (os error {code})").is_err() {
        return text;
    }
    match text_before(number.position(), number.get_ref()) {
        Some(end) => text.strip_suffix(end).unwrap_or(text),
        None => text,
    }
}

// Says on standard error why standard output does not take a line.
fn say_why(rt: &impl Eprint, error: io::Error) -> io::Result<()> {
    let mut text = Cursor::new([0u8; 320]);
    let fits = write!(text, "{error}").is_ok();
    match text_before(text.position(), text.get_ref()) {
        Some(text) if fits => {
            let why = without_number(text, error.raw_os_error());
            eprintln!(rt; "bench: standard output: {why}")
        }
        _ => eprintln!(rt; "bench: standard output: {error}"),
    }
}

// Rehearses standard input over `image.bin` and `constants.bin`; the image's size decides the map. Standard output that does not take a line is named on
// standard error, and no fault of the rehearsal.
fn main(rt: HostRuntime) -> io::Result<()> {
    // A byte more than the longest script has: one that fills it is too long, whatever follows.
    let mut script = [0; 65537];
    // A word more than the larger image has.
    let mut image = [0; 1482];
    let mut constants = [0; 1482];
    let mut cells = [0; 741];
    let mut words = [0; 133];
    let script = files::read_full(&mut rt.stdin(), &mut script);
    let image = files::read_file(&rt, "image.bin", &mut image);
    let constants = files::read_file(&rt, "constants.bin", &mut constants);
    let chip = Chip {
        map: transcript::map_for(image),
        constants: files::words_of(constants, &mut words),
    };
    let cells = files::words_of(image, &mut cells);
    rehearse(&mut io::writer(&rt), script, chip, cells).or_else(|error| say_why(&rt, error))
}
