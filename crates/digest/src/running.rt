// A digest under way: open, feed, close. It is moved by feeding and ended by closing, and by nothing else: it is neither `Copy` nor `Drop`.
ghost use Rattle.std.specs.Prelude.{◌≡◌, ℕ, ◌+◌, ◌<◌, List, [], ◌++◌, length, map};
ghost use Rattle.digest.specs.Words.{be32, bytes_of};
ghost use Rattle.digest.specs.Sha1.{sha1};
ghost use Rattle.digest.specs.Running.{fresh, absorb, finish, Fed};
ghost use Rattle.digest.specs.Laws.{FeedingJoins, ClosingJoins};

use crate::block::{compressed, compressed_all};
use crate::padding::{bit_count, padding};
use std::marker::Model;

// The block that is being filled, the words after the blocks before it, and the number of bytes in all. The number says how far the block is filled, and what lies behind that means nothing.
// It is not `Debug`, since the bytes of a key may be in it.
pub struct Sha1 {
    block: [u8; 64],
    words: [u32; 5],
    total: u64,
}

impl Model for Sha1 {
    ghost use Rattle.std.specs.Prelude.{◌%◌, take};
    ghost use Rattle.digest.specs.Running.{Running, running};

    ghost Value = { Running };

    ghost view = { λ d. running d.words (take (d.total % 64) d.block) d.total };
}

impl Sha1 {
    // A digest of no bytes yet.
    pub fn open() -> Self
        ensures value { result ≡ fresh }
        ensures fed { Fed result [] }
    {
        Sha1 {
            block: [0; 64],
            words: [0x67452301, 0xefcdab89, 0x98badcfe, 0x10325476, 0xc3d2e1f0],
            total: 0,
        }
    }

    // The digest after one more piece of the message. Inlined, since a short message spends much of its time here.
    #[inline(always)]
    pub fn feed(self, piece: &[u8]) -> Self
        ensures value { result ≡ absorb self piece.now }
        ensures fed { (m : List ℕ) → Fed self m → Fed result (m ++ piece.now) }
        ensures joins { FeedingJoins }
    {
        let room = 64 - self.fill();
        if piece.len() < room {
            return self.keep(piece);
        }
        if room == 64 {
            return self.take_blocks(piece);
        }
        let (first, rest) = piece.split_at(room);
        self.complete(first).take_blocks(rest)
    }

    // The twenty bytes of the digest.
    pub fn close(self) -> [u8; 20]
        ensures value { result ≡ finish self }
        ensures digest { (m : List ℕ) → Fed self m → result ≡ sha1 m }
        ensures joins { ClosingJoins }
    {
        let bits = bit_count(self.total);
        let fill = self.fill();
        let last = self.feed(padding(fill)).complete(&bits);
        let Sha1 {
            block: _,
            words,
            total: _,
        } = last;
        bytes(words)
    }

    // How many bytes of the block are filled. It is public for what it ensures of any digest: behind a reference a caller knows only the value.
    pub fn fill(&self) -> usize
        ensures value { result ≡ length self.now.pending }
        ensures part { result < 64 }
    {
        (self.total % 64) as usize
    }

    // A piece that does not fill the block.
    fn keep(mut self, piece: &[u8]) -> Self
        requires { length self.pending + length piece.now < 64 }
        ensures { result ≡ absorb self piece.now }
    {
        let fill = self.fill();
        self.block[fill..fill + piece.len()].copy_from_slice(piece);
        self.total = self.total.wrapping_add(piece.len() as u64);
        self
    }

    // A piece that fills the block and has no byte more.
    fn complete(mut self, piece: &[u8]) -> Self
        requires { length self.pending + length piece.now ≡ 64 }
        ensures empty { result.pending ≡ [] }
        ensures fed { result ≡ absorb self piece.now }
    {
        let fill = self.fill();
        self.block[fill..].copy_from_slice(piece);
        self.words = compressed(self.words, &self.block);
        self.total = self.total.wrapping_add(piece.len() as u64);
        self
    }

    // A piece that begins a block: its whole blocks are worked through where they lie.
    fn take_blocks(mut self, piece: &[u8]) -> Self
        requires { self.pending ≡ [] }
        ensures { result ≡ absorb self piece.now }
    {
        let (blocks, rest) = piece.as_chunks::<64>();
        self.words = compressed_all(self.words, blocks);
        self.total = self.total.wrapping_add((piece.len() - rest.len()) as u64);
        self.keep(rest)
    }
}

fn bytes(words: [u32; 5]) -> [u8; 20]
    ensures { result ≡ bytes_of 5 words }
{
    let mut out = [0; 20];
    out.copy_from_slice(byte_groups(words).as_flattened());
    out
}

// The four bytes of each word.
fn byte_groups(words: [u32; 5]) -> [[u8; 4]; 5]
    ensures { result ≡ map be32 words }
{
    words.map(u32::to_be_bytes)
}
