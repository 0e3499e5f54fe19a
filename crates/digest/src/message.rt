// Whole messages, at once or in pieces.
ghost use Rattle.std.specs.Prelude.{◌≡◌, fold};
ghost use Rattle.std.specs.List.{flat_map};
ghost use Rattle.digest.specs.Sha1.{sha1};
ghost use Rattle.digest.specs.Running.{fresh, absorb};

use crate::running::Sha1;

// The digest of a message.
pub fn digest_of(message: &[u8]) -> [u8; 20]
    ensures { result ≡ sha1 message.now }
{
    Sha1::open().feed(message).close()
}

// The digest of a message that is handed over in pieces, none or empty ones among them.
pub fn digest_of_pieces(pieces: &[&[u8]]) -> [u8; 20]
    ensures { result ≡ sha1 (flat_map (λ p. p.now) pieces.now) }
{
    fed(pieces).close()
}

fn fed(pieces: &[&[u8]]) -> Sha1
    ensures { result ≡ fold (λ d p. absorb d p.now) fresh pieces.now }
{
    pieces
        .iter()
        .fold(Sha1::open(), |digest, piece| digest.feed(piece))
}
