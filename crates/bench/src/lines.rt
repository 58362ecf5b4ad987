// Lines that wait to be written together.
ghost use Rattle.std.specs.Prelude.{◌≡◌, ◌≤◌, ◌++◌, take, OnOk};
ghost use Rattle.std.specs.Io.KnownBytes.{Appends, append_known};

use std::io;
use std::io::Write;

// Space for 200 lines.
const SPACE: usize = 4600;

// The lines that wait stand at the start of the bytes.
// Kept (fixed): a buffer and its length, inside of this type alone: there is no heap, which the library's `BufWriter` takes its buffer from.
#[derive(Drop)]
pub(crate) struct Lines {
    bytes: [u8; SPACE],
    used: usize,
    ghost within: { used ≤ 4600 },
}

impl Lines {
    pub(crate) fn none() -> Lines {
        Lines {
            bytes: [0; SPACE],
            used: 0,
        }
    }

    // Writes the lines that wait.
    pub(crate) fn write_to<W: Write>(&self, writer: &mut W) -> io::Result<()>
        ensures { OnOk result (Appends (W.contents writer.old) (W.contents writer.new) (take self.now.used self.now.bytes)) }
    {
        writer.write_all(&self.bytes[..self.used])
    }

    // Puts a line behind those that wait.
    fn store(&mut self, line: &[u8; 23])
        requires { self.old.used ≤ 4577 }
        ensures { take self.new.used self.new.bytes ≡ take self.old.used self.old.bytes ++ line.now }
    {
        let end = self.used + 23;
        self.bytes[self.used..end].copy_from_slice(line);
        self.used = end;
    }

    // Adds a line to those that wait, which are written first where it does not fit.
    pub(crate) fn add<W: Write>(&mut self, writer: &mut W, line: &[u8; 23]) -> io::Result<()>
        ensures { OnOk result (Appends (append_known (W.contents writer.old) (take self.old.used self.old.bytes))
            (append_known (W.contents writer.new) (take self.new.used self.new.bytes)) line.now) }
    {
        if SPACE - self.used < 23 {
            self.write_to(writer)?;
            self.used = 0;
        }
        self.store(line);
        Ok(())
    }
}
