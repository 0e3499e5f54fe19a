// HMAC-SHA-1, worked out in a key block that the caller lends.
ghost use Rattle.std.specs.Prelude.{◌≡◌, ◌++◌, replicate};
ghost use Rattle.digest.specs.Sha1.{sha1};
ghost use Rattle.digest.specs.Hmac.{masked, hmac};

use crate::codes::Code;
use crate::key_block::{KeyBlock, KeyGuard};
use crate::running::Sha1;

const INNER_PAD: u8 = 0x36;

const OUTER_PAD: u8 = 0x5c;

impl KeyBlock {
    // The code of a message under a key of any length. The block is zero again afterwards.
    pub fn code(&mut self, key: &[u8], message: &[u8]) -> Code
        ensures value { result.bytes ≡ hmac key.now message.now }
        ensures cleared { self.new ≡ replicate 64 0 }
    {
        let guard = KeyGuard { block: self };
        guard.block.load(key);
        let inner = guard.block.masked_digest(INNER_PAD, message);
        let bytes = guard.block.masked_digest(OUTER_PAD, &inner);
        Code { bytes }
    }

    // SHA-1 of the block under a mask and then a message. The block is masked in place, and the mask is taken off again.
    fn masked_digest(&mut self, by: u8, message: &[u8]) -> [u8; 20]
        ensures value { result ≡ sha1 (masked by self.old ++ message.now) }
        ensures same { self.new ≡ self.old }
    {
        self.mask(by);
        let digest = Sha1::open().feed(self.bytes()).feed(message).close();
        self.mask(by);
        digest
    }
}
