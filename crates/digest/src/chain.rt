// The chain of digests that a register holds.
ghost use Rattle.std.specs.Prelude.{◌≡◌, fold};
ghost use Rattle.digest.specs.Chain.{extended, chain};

use crate::running::Sha1;

// A register after one digest more.
pub fn extend(register: &[u8; 20], digest: &[u8; 20]) -> [u8; 20]
    ensures { result ≡ extended register.now digest.now }
{
    Sha1::open().feed(register).feed(digest).close()
}

// A register that began at zeros, after these digests in order.
pub fn chain_of(digests: &[[u8; 20]]) -> [u8; 20]
    ensures { result ≡ chain digests.now }
{
    extended_by([0; 20], digests)
}

fn extended_by(register: [u8; 20], digests: &[[u8; 20]]) -> [u8; 20]
    ensures { result ≡ fold extended register digests.now }
{
    digests.iter().fold(
        register,
        |register: [u8; 20], digest: &[u8; 20]| -> [u8; 20]
            ensures { result ≡ extended register digest.now }
        { extend(&register, digest) },
    )
}
