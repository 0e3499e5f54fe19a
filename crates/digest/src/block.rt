// The compression function of SHA-1: five words and a block of 64 bytes give five words.
ghost use Rattle.std.specs.Prelude.{◌≡◌, ℕ, ◌+◌, ◌<◌, ◌≤◌, List, take, fold};
ghost use Rattle.digest.specs.Words.{words_of};
ghost use Rattle.digest.specs.Sha1.{next_word, grown, summed, compress};

use crate::round::{choose, majority, parity, stepped};
use std::array;

// The sixteen words of a block, with room in fixed memory for the rest of the schedule. They are written by their places, since a proof knows nothing of what is written through `zip`.
fn loaded(block: &[u8; 64]) -> [u32; 80]
    ensures { take 16 result ≡ words_of 16 block.now }
{
    let mut w = [0u32; 80];
    let (words, _) = block.as_chunks::<4>();
    for (i, word) in words.iter().enumerate() {
        w[i] = u32::from_be_bytes(*word);
    }
    w
}

// The schedule goes on from `FROM` words past the sixteen to `TO`. Each word is made of earlier ones in the same array, so the loop goes by their places.
fn grow<const FROM: usize, const TO: usize>(w: &mut [u32; 80])
    requires { (FROM ≤ TO) × (TO ≤ 64) }
    ensures { (ws : List ℕ) → take (FROM + 16) w.old ≡ grown FROM ws → take (TO + 16) w.new ≡ grown TO ws }
{
    for n in FROM..TO {
        w[n + 16] = next_word(w, n);
    }
}

// Word 16 + n of the schedule.
fn next_word(w: &[u32; 80], n: usize) -> u32
    requires { n < 64 }
    ensures { result ≡ next_word w.now n }
{
    (w[n + 13] ^ w[n + 8] ^ w[n + 2] ^ w[n]).rotate_left(1)
}

// The five words after one block. The schedule grows between the quarters of the steps, so that a processor works on both at once.
pub(crate) fn compressed(h: [u32; 5], block: &[u8; 64]) -> [u32; 5]
    ensures { result ≡ compress h block.now }
{
    let mut w = loaded(block);
    grow::<0, 4>(&mut w);
    let s = stepped::<0, 0x5a827999, _>(choose, h, &w);
    grow::<4, 24>(&mut w);
    let t = stepped::<20, 0x6ed9eba1, _>(parity, s, &w);
    grow::<24, 44>(&mut w);
    let u = stepped::<40, 0x8f1bbcdc, _>(majority, t, &w);
    grow::<44, 64>(&mut w);
    let v = stepped::<60, 0xca62c1d6, _>(parity, u, &w);
    summed(h, v)
}

// Five words, each added to its like.
fn summed(h: [u32; 5], s: [u32; 5]) -> [u32; 5]
    ensures { result ≡ summed h s }
{
    array::from_fn(|i| h[i].wrapping_add(s[i]))
}

// The five words after some blocks.
pub(crate) fn compressed_all(h: [u32; 5], blocks: &[[u8; 64]]) -> [u32; 5]
    ensures { result ≡ fold compress h blocks.now }
{
    blocks.iter().fold(h, compressed)
}
