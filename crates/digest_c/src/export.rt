// SHA-1 for programs in C: `void welluthan_sha1(const uint8_t *message, size_t length, uint8_t digest[20]);`
ghost use Rattle.std.specs.Prelude.{◌≡◌};
ghost use Rattle.digest.specs.Sha1.{sha1};

use digest::digest_of;

#[unsafe(no_mangle)]
pub extern "C" fn welluthan_sha1(message: &[u8], digest: &mut [u8; 20])
    ensures { digest.new ≡ sha1 message.now }
{
    let value = digest_of(message);
    *digest = value;
}
