// A block that a key is worked on in, and the guard that clears it.
ghost use Rattle.std.specs.Prelude.{◌≡◌, ◌≤◌, length, replicate};
ghost use Rattle.digest.specs.Hmac.{zero_filled, masked, key_block};

use crate::message::digest_of;
use std::marker::Model;

// The place for one key, lent to each code that is worked out. It is not `Debug`, since a key may be in it.
#[derive(Drop)]
pub struct KeyBlock {
    bytes: [u8; 64],
}

impl Model for KeyBlock {
    ghost use Rattle.std.specs.Prelude.{ℕ, List};

    ghost Value = { List ℕ };

    ghost view = { λ k. k.bytes };
}

impl KeyBlock {
    pub fn new() -> Self
        ensures { result ≡ replicate 64 0 }
    {
        KeyBlock { bytes: [0; 64] }
    }

    // Lays a key of any length into the block.
    pub(crate) fn load(&mut self, key: &[u8])
        ensures { self.new ≡ key_block key.now }
    {
        if key.len() > 64 {
            let short = digest_of(key);
            self.fill(&short);
        } else {
            self.fill(key);
        }
    }

    // Lays at most 64 bytes into the block, with zeros behind them.
    fn fill(&mut self, key: &[u8])
        requires { length key.now ≤ 64 }
        ensures { self.new ≡ zero_filled key.now }
    {
        self.bytes = [0; 64];
        self.bytes[..key.len()].copy_from_slice(key);
    }

    // Each byte of the block, xor a mask.
    pub(crate) fn mask(&mut self, by: u8)
        ensures { self.new ≡ masked by self.old }
    {
        for b in self.bytes.iter_mut() {
            *b ^= by;
        }
    }

    pub(crate) fn bytes(&self) -> &[u8; 64]
        ensures { result.now ≡ self.now }
    {
        &self.bytes
    }
}

// Holds the block while a code is worked out; its end writes zeros over the block. It is no more `Debug` than the block.
pub(crate) struct KeyGuard<'a> {
    pub(crate) block: &'a mut KeyBlock,
}

impl Drop for KeyGuard<'_> {
    fn drop(self)
        ensures { self.exit.0.now ≡ replicate 64 0 }
    {
        let KeyGuard { block } = self;
        block.bytes = [0; 64];
    }
}
