// SHA-1 (FIPS 180) and HMAC-SHA-1 (RFC 2104), in fixed memory, proved against their definitions in specs/.
//
//     let digest = Sha1::open().feed(b"ab").feed(b"c").close();
//     let code = key_block.code(&secret, &message);
//     if code.agrees(&claimed) { .. }
#![tactic(auto)]

mod block;
pub mod chain;
pub mod codes;
pub mod examples;
pub mod hmac;
pub mod key_block;
pub mod message;
mod padding;
mod round;
pub mod running;

pub use chain::{chain_of, extend};
pub use codes::Code;
pub use key_block::KeyBlock;
pub use message::{digest_of, digest_of_pieces};
pub use running::Sha1;
