// Messages and keys of many lengths. Byte i of each is i modulo 251.
use digest::{KeyBlock, Sha1, digest_of};
use std::alloc::{AllocError, Global};
use std::io;
use text::Hex;

// Lengths up to some blocks, and around 2^16.
pub fn print_lengths(rt: &HostRuntime) -> io::Result<()> {
    for n in (0..201).chain(65526..65547) {
        print_length(rt, n)?;
    }
    Ok(())
}

// A message of n bytes at once and in pieces, a key of twenty bytes with this message, and a key of n bytes with a message of fifty.
fn print_length(rt: &HostRuntime, n: usize) -> io::Result<()> {
    let heap = rt.alloc();
    let long = pattern(heap, n)?;
    let secret = pattern(heap, 20)?;
    let note = pattern(heap, 50)?;
    let mut block = KeyBlock::new();
    let whole = digest_of(long.as_slice());
    let pieces = digest_in_pieces(long.as_slice());
    let message_code = block.code(secret.as_slice(), long.as_slice());
    let key_code = block.code(long.as_slice(), note.as_slice());
    let whole = Hex { bytes: &whole };
    let pieces = Hex { bytes: &pieces };
    let message_code = Hex {
        bytes: &message_code.bytes,
    };
    let key_code = Hex {
        bytes: &key_code.bytes,
    };
    println!(rt; "length {n}: {whole} {pieces} {message_code} {key_code}")
}

fn pattern(heap: Global, n: usize) -> Result<Vec<u8>, AllocError> {
    (0..n).map(|i| (i % 251) as u8).collect(heap)
}

// The digest of a message that is fed in pieces of 0, 1, 2 bytes and so on: the loop is over the sizes.
fn digest_in_pieces(message: &[u8]) -> [u8; 20] {
    let mut digest = Sha1::open();
    let mut rest = message;
    for size in 0..message.len() {
        let (piece, after) = rest.split_at(size.min(rest.len()));
        digest = digest.feed(piece);
        rest = after;
    }
    digest.feed(rest).close()
}
