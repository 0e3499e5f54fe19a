// Digests and codes of known messages, one to a line. What it must write was worked out by Python's hashlib and hmac (tests/expected.py).
#![tactic(auto)]

mod fips180;
mod lengths;
mod rfc2202;

use std::io;

fn main(rt: HostRuntime) -> io::Result<()> {
    fips180::print_examples(&rt)?;
    rfc2202::print_cases(&rt)?;
    lengths::print_lengths(&rt)
}
