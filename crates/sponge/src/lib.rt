// The sponge of FIPS 202 over Keccak-f[1600], with a rate of 168 bytes: it takes a message a byte at a time, and gives bytes of any number.
#![tactic(auto)]

ghost use Rattle.std.specs.Prelude.{◌≡◌, ◌+◌, ◌<◌, length};
ghost use Rattle.sponge.specs.Sponge.{state_byte, squeezed};
ghost use Rattle.sponge.specs.Streaming.{rate, sponge_of, fresh, with_byte, permuted_if_full, taken, taken_all, filled, finished};

const RATE: usize = 168;

// The lanes with the bytes of the block in hand added, and how many they are.
#[derive(Clone, Copy, PartialEq, Eq, Debug)]
pub struct Sponge {
    pub lanes: [u64; 25],
    pub at: usize,
}

impl Sponge {
    // A sponge that has taken nothing.
    pub fn new() -> Sponge
        ensures { result ≡ fresh }
    {
        Sponge {
            lanes: [0; 25],
            at: 0,
        }
    }

    // Adds a byte to byte i of the lanes.
    fn add_byte(&mut self, i: usize, byte: u8)
        requires { i < 200 }
        ensures { self.new ≡ sponge_of (with_byte self.old.lanes i byte) self.old.at }
    {
        self.lanes[i / 8] ^= u64::from(byte) << (8 * (i % 8));
    }

    // Permutes a full block, so that there is a place for the next byte.
    fn permute_if_full(&mut self)
        ensures { self.new ≡ permuted_if_full self.old }
    {
        if self.at >= RATE {
            self.lanes = keccak::permuted(self.lanes);
            self.at = 0;
        }
    }

    // Takes one byte.
    pub fn take(&mut self, byte: u8)
        ensures { self.new ≡ taken self.old byte }
    {
        self.permute_if_full();
        self.add_byte(self.at, byte);
        self.at += 1;
    }

    // Takes each byte.
    pub fn take_all(&mut self, bytes: &[u8])
        ensures { self.new ≡ taken_all self.old bytes.now }
    {
        for byte in bytes {
            self.take(*byte);
        }
    }

    // Zeros to the end of the block in hand: they change no lane.
    pub fn fill(&mut self)
        ensures { self.new ≡ filled self.old }
    {
        if self.at != 0 {
            self.at = RATE;
        }
    }

    // The padding and the last permutation.
    pub fn finish(mut self, suffix: u8) -> [u64; 25]
        ensures { result ≡ finished self suffix }
    {
        self.take(suffix);
        self.add_byte(RATE - 1, 0x80);
        keccak::permuted(self.lanes)
    }

    // Gives the next byte of the lanes.
    fn give(&mut self) -> u8
        ensures byte { result ≡ state_byte (permuted_if_full self.old).lanes (permuted_if_full self.old).at }
        ensures state { self.new ≡ sponge_of (permuted_if_full self.old).lanes ((permuted_if_full self.old).at + 1) }
    {
        self.permute_if_full();
        let i = self.at;
        self.at = i + 1;
        self.lanes[i / 8].to_le_bytes()[i % 8]
    }
}

// Fills a buffer with the bytes that a finished state gives.
pub fn squeeze(state: [u64; 25], out: &mut [u8])
    ensures { out.new ≡ squeezed rate «state» (length out.old) }
{
    let mut sponge = Sponge {
        lanes: state,
        ..Sponge::new()
    };
    for byte in out.iter_mut() {
        *byte = sponge.give();
    }
}
