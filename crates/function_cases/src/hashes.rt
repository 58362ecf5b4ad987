// Answers to the cases about hashes: cSHAKE128, its permutation, and tokens.
use crate::{Answer, Case, at_most};
use std::array;

// cSHAKE128 with the first a bytes of the data as the name, the next b as the customization, a message of n bytes that go round the data, and an
// output of m, of which the last 96 bytes are answered. Where it has fewer, the zeros after it are answered too.
pub(crate) fn cshake128(case: Case<'_>) -> Answer {
    let data = case.data;
    let (name, rest) = data.split_at(at_most(case.a, 192));
    let customization = &rest[..at_most(case.b, rest.len())];
    let message: [u8; 1024] = array::from_fn(|i| data[i % 192]);
    let size = at_most(case.n, 1024);
    let count = at_most(case.m, 1024);
    let mut out = [0; 1024];
    cshake::cshake128(name, customization, &message[..size], &mut out[..count]);
    Answer {
        result: 0,
        data: *out[count.saturating_sub(96)..].first_chunk().unwrap(),
    }
}

// Keccak-f[1600] n times over, on 24 lanes from the data and the last from a, and 12 lanes of the state from lane b on.
pub(crate) fn permutation(case: Case<'_>) -> Answer {
    let data = case.data;
    let mut lanes = [case.a; 25];
    for (lane, bytes) in lanes.iter_mut().zip(data.chunks_exact(8)) {
        *lane = u64::from_le_bytes(*bytes.first_chunk().unwrap());
    }
    for _ in 0..at_most(case.n, 64) {
        lanes = keccak::permuted(lanes);
    }
    let bytes = lanes.map(u64::to_le_bytes);
    Answer {
        result: 0,
        data: *bytes.as_flattened()[8 * at_most(case.b, 13)..]
            .first_chunk()
            .unwrap(),
    }
}

// The token hashed n times over: each hash is the next token.
pub(crate) fn token(token: u128, n: u64) -> Answer {
    let hash = (0..n).fold(token, |token, _| token_hash::hash_of(token));
    let mut data = [0; 96];
    data[..16].copy_from_slice(&hash.to_le_bytes());
    Answer { result: 0, data }
}
