// Text that the programs write.
#![tactic(auto)]

pub mod hex;
pub mod sum_line;

pub use hex::Hex;
pub use sum_line::SumLine;
