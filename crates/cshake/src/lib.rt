// cSHAKE128 of NIST SP 800-185: the string encodings go straight into the sponge.
#![tactic(auto)]

ghost use Rattle.std.specs.Prelude.{◌≡◌, ◌+◌, ◌*◌, ◌++◌, length};
ghost use Rattle.sponge.specs.Streaming.{fresh, taken_all};
ghost use Rattle.cshake.specs.Encoding.{left_encode, encode_string, bytepad};
ghost use Rattle.cshake.specs.CShake.{shake128, c_shake128};

use sponge::Sponge;

// The bytes of a block.
const RATE: u8 = 168;

// What stands between a message and its padding, with the padding's first bit.
const SHAKE: u8 = 0x1f;

const CSHAKE: u8 = 0x04;

// left_encode of 256 * high + low: the bytes of high without the zeros in front, and the low byte.
fn take_number(sponge: &mut Sponge, high: usize, low: u8)
    ensures { sponge.new ≡ taken_all sponge.old (left_encode (256 * high + low)) }
{
    let zeros = high.leading_zeros() as usize / 8;
    sponge.take(9 - zeros as u8);
    sponge.take_all(&high.to_be_bytes()[zeros..]);
    sponge.take(low);
}

// encode_string. The length in bits may not fit a number of 64 bits, so its lowest byte goes apart.
fn take_string(sponge: &mut Sponge, text: &[u8])
    ensures { sponge.new ≡ taken_all sponge.old (encode_string text.now) }
{
    let n = text.len();
    take_number(sponge, n / 32, (n % 32 * 8) as u8);
    sponge.take_all(text);
}

// bytepad(encode_string(name) || encode_string(customization), 168).
fn prefix(name: &[u8], customization: &[u8]) -> Sponge
    ensures { result ≡ taken_all fresh (bytepad (encode_string name.now ++ encode_string customization.now) 168) }
{
    let mut sponge = Sponge::new();
    take_number(&mut sponge, 0, RATE);
    take_string(&mut sponge, name);
    take_string(&mut sponge, customization);
    sponge.fill();
    sponge
}

// SHAKE128: fills the buffer.
pub fn shake128(message: &[u8], out: &mut [u8])
    ensures { out.new ≡ shake128 message.now (length out.old) }
{
    let mut sponge = Sponge::new();
    sponge.take_all(message);
    sponge::squeeze(sponge.finish(SHAKE), out);
}

// cSHAKE128: fills the buffer.
pub fn cshake128(name: &[u8], customization: &[u8], message: &[u8], out: &mut [u8])
    ensures { out.new ≡ c_shake128 message.now (length out.old) name.now customization.now }
{
    if name.is_empty() & customization.is_empty() {
        return shake128(message, out);
    }
    let mut sponge = prefix(name, customization);
    sponge.take_all(message);
    sponge::squeeze(sponge.finish(CSHAKE), out);
}
