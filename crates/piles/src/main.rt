// Calls stores and piles of them in many ways, and prints each answer. What it must write was worked out by a model in Python (tests/stores.py).
#![tactic(auto)]

mod calls;
mod exercise;
mod images;
mod layers;
mod through;

use std::io;

fn main(rt: HostRuntime) -> io::Result<()> {
    images::print_small(&rt)?;
    images::print_faulty(&rt)?;
    images::print_through(&rt)?;
    images::print_large(&rt)
}
