// The published vectors: of PRESENT with a key of 128 bits, a line for each with the key, the block, the block encrypted, and that decrypted again; then those
// of the hashes.
#![tactic(auto)]

mod hashes;

ghost use Rattle.std.specs.Prelude.{◌≡◌};

use std::io;

// A block encrypted and decrypted again. That it is the block is proved, whatever the key.
fn round_trip(key: u128, block: u64) -> u64
    ensures { result ≡ block }
{
    let encrypted = present::encrypt(key, block);
    let decrypted = present::decrypt(key, encrypted);
    prove!(decrypted == block);
    decrypted
}

fn show(rt: &impl Print, key: u128, block: u64) -> io::Result<()> {
    let encrypted = present::encrypt(key, block);
    let decrypted = round_trip(key, block);
    println!(rt; "{key:032x} {block:016x} {encrypted:016x} {decrypted:016x}")
}

fn main(rt: HostRuntime) -> io::Result<()> {
    let counted = 0x0123_4567_89ab_cdef;
    show(&rt, 0, 0)?;
    show(&rt, 0, u64::MAX)?;
    show(&rt, u128::MAX, 0)?;
    show(&rt, u128::MAX, u64::MAX)?;
    show(&rt, 0x0123_4567_89ab_cdef_0123_4567_89ab_cdef, counted)?;
    hashes::show_all(&rt)
}
