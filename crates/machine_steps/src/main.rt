// Reads frames of 5,120 bytes from standard input until they end, and writes for each the frame after its command (`frames::step`). A frame that is cut short
// ends it.
#![tactic(auto)]

use std::io;
use std::io::{Read, Write};

// Reads a frame and writes it after its command. It fails where no whole frame comes, or what is written is not taken.
fn step_next<R: Read, W: Write>(reader: &mut R, writer: &mut W) -> io::Result<()> {
    let mut frame = [0; 5120];
    reader.read_exact(&mut frame)?;
    frames::step(&mut frame);
    writer.write_all(&frame)
}

// Nothing says that the input ends, so the frames are counted, up to a number that no run reaches.
fn step_all<R: Read, W: Write>(reader: &mut R, writer: &mut W) -> io::Result<()> {
    for _ in 0..u64::MAX {
        step_next(reader, writer)?;
    }
    Ok(())
}

// The end of the input is the end of the program, and no failure of it.
fn main(rt: HostRuntime) {
    let _ = step_all(&mut rt.stdin(), &mut io::writer(&rt));
}
