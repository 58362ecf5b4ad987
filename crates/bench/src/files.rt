// What is read from a reader or a file, in the buffer that is lent for it.
ghost use Rattle.std.specs.Prelude.{◌≤◌, length};
ghost use Rattle.std.specs.Io.KnownBytes.{Consumes};

use std::fs;
use std::io::Read;
use std::rt::Files;

// Reads until the bytes are full, the input ends or a read fails, and gives what was read.
pub(crate) fn read_full<'a, R: Read>(reader: &mut R, bytes: &'a mut [u8]) -> &'a [u8]
    ensures fits { length result.now ≤ length bytes.old }
    ensures reads { Consumes (R.remaining reader.old) (R.remaining reader.new) result.now }
{
    // Kept (fixed): no heap; the library reads to an end into a `Vec` alone.
    let mut done = 0;
    while done < bytes.len() {
        match reader.read(&mut bytes[done..]) {
            Ok(0) | Err(_) => break,
            Ok(n) => done += n,
        }
    }
    &bytes[..done]
}

// Reads the start of a file; a missing one counts as empty.
pub(crate) fn read_file<'a, R: Files>(rt: &R, path: &str, bytes: &'a mut [u8]) -> &'a [u8]
    ensures { length result.now ≤ length bytes.old }
{
    match fs::open(rt, path) {
        Ok(mut file) => read_full(&mut file, bytes),
        Err(_) => &[],
    }
}

// Fills words from bytes, and gives those that they are. A file with more words than fit is too long in any case.
pub(crate) fn words_of<'a>(bytes: &[u8], words: &'a mut [u16]) -> &'a mut [u16]
    ensures { length result.now ≤ length words.old }
{
    let count = transcript::file_words(bytes, words);
    &mut words[..count]
}
