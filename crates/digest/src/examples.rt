// Two known digests, worked out by the checker from the definition and by the code as it runs.
ghost use Rattle.std.specs.Prelude.{◌≡◌};
ghost use Rattle.digest.specs.Examples.{AbcDigest, EmptyDigest, abc_digest, empty_digest};

use crate::message::digest_of;

// SHA-1 of the three bytes "abc", an example of FIPS 180. Each of the two is one closed equation, which a function over both would have to take apart into a trait with a message and a value.
pub fn digest_of_abc() -> [u8; 20]
    ensures defined { AbcDigest }
    ensures value { result ≡ abc_digest }
{
    digest_of(b"abc")
}

// SHA-1 of the empty message.
pub fn digest_of_nothing() -> [u8; 20]
    ensures defined { EmptyDigest }
    ensures value { result ≡ empty_digest }
{
    digest_of(b"")
}
