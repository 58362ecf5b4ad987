// Keccak-f[1600], SHAKE128, cSHAKE128 and the hash of a token. A line for each: what it is, and the lanes, the bytes or the number in hex.
use std::{array, io};

fn show_bytes(rt: &impl Print, what: &str, bytes: &[u8]) -> io::Result<()> {
    print!(rt; "{what}")?;
    for byte in bytes {
        print!(rt; "{byte:02x}")?;
    }
    println!(rt)
}

fn show_lanes(rt: &impl Print, what: &str, lanes: &[u64; 25]) -> io::Result<()> {
    print!(rt; "{what}")?;
    for lane in lanes {
        print!(rt; " {lane:016x}")?;
    }
    println!(rt)
}

// The zero state permuted once, and twice.
fn show_permutation(rt: &impl Print) -> io::Result<()> {
    let once = keccak::permuted([0; 25]);
    let twice = keccak::permuted(once);
    show_lanes(rt, "Keccak-f[1600] of zeros:", &once)?;
    show_lanes(rt, "Keccak-f[1600] twice:", &twice)
}

// SHAKE128, as many bytes as the buffer has.
fn show_shake(rt: &impl Print, what: &str, message: &[u8], out: &mut [u8]) -> io::Result<()> {
    cshake::shake128(message, out);
    show_bytes(rt, what, out)
}

// 32 bytes of cSHAKE128, customized as in the samples of SP 800-185.
fn show_sample(rt: &impl Print, what: &str, message: &[u8]) -> io::Result<()> {
    let mut out = [0; 32];
    cshake::cshake128(b"", b"Email Signature", message, &mut out);
    show_bytes(rt, what, &out)
}

fn show_token(rt: &impl Print) -> io::Result<()> {
    let hash = token_hash::hash_of(0);
    println!(rt; "token of zeros: {hash:032x}")
}

pub(crate) fn show_all(rt: &impl Print) -> io::Result<()> {
    // The bytes 00 to c7.
    let counted: [u8; 200] = array::from_fn(|i| i as u8);
    show_permutation(rt)?;
    show_shake(rt, "SHAKE128, empty message: ", b"", &mut [0; 32])?;
    show_shake(rt, "SHAKE128, 200 bytes a3: ", &[0xa3; 200], &mut [0; 64])?;
    show_sample(rt, "cSHAKE128, sample 1: ", b"\x00\x01\x02\x03")?;
    show_sample(rt, "cSHAKE128, sample 2: ", &counted)?;
    show_token(rt)
}
