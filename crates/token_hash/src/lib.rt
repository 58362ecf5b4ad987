// The hash of a life cycle token.
#![tactic(auto)]

ghost use Rattle.std.specs.Prelude.{◌≡◌};
ghost use Rattle.token_hash.specs.TokenHash.{token_hash};

// The hash of a token: token and hash have their lowest byte first.
pub fn hash_of(token: u128) -> u128
    ensures { result ≡ token_hash «token» }
{
    let mut out = [0; 16];
    cshake::cshake128(b"", b"LC_CTRL", &token.to_le_bytes(), &mut out);
    u128::from_le_bytes(out)
}
