// The digest library for programs in C.
#![tactic(auto)]

pub mod export;
