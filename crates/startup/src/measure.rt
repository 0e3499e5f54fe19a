// Measuring files: the SHA-1 of each, and the register that they are chained into.
use crate::failure::{Failure, LIST};
use digest::{Sha1, chain_of};
use std::convert::AsStr;
use std::fs::File;
use std::io::Read;
use std::process::ExitCode;
use std::{fs, io};
use text::{Hex, SumLine};

// How much of a file is held at a time.
const PIECE: usize = 16384;

// Measures the files that the list of parts names.
pub fn measure_listed(rt: &HostRuntime) -> Result<ExitCode, Failure<'static>> {
    let text = fs::read_to_string(rt, LIST).map_err(|error| Failure::NoList(error))?;
    let names = text
        .lines()
        .filter(|line| !line.is_empty())
        .collect::<Vec<&str>>(rt.alloc())?;
    Ok(measure_files(rt, names.as_slice())?)
}

// Prints a line for each file and one for the register. The status is that of a failure where a file could not be read.
pub fn measure_files<N: AsStr>(rt: &HostRuntime, names: &[N]) -> io::Result<ExitCode> {
    let mut digests = Vec::new(rt.alloc());
    for name in names {
        let name = name.as_str();
        match measured(rt, name) {
            Ok(digest) => {
                print_line(rt, &digest, name)?;
                digests.push(digest)?;
            }
            Err(error) => {
                let failure = Failure::File { name, error };
                eprintln!(rt; "startup: {failure}")?
            }
        }
    }
    let register = chain_of(digests.as_slice());
    let hex = Hex { bytes: &register };
    println!(rt; "register {hex}")?;
    if digests.len() == names.len() {
        Ok(ExitCode::SUCCESS)
    } else {
        Ok(ExitCode::FAILURE)
    }
}

fn print_line<'a>(rt: &HostRuntime, digest: &'a [u8; 20], name: &'a str) -> io::Result<()> {
    let digest = Hex { bytes: digest };
    let line = SumLine { digest, name };
    println!(rt; "{line}")
}

// The SHA-1 of a file.
fn measured(rt: &HostRuntime, name: &str) -> io::Result<[u8; 20]> {
    let mut file = File::open(rt, name)?;
    digest_of_rest(&mut file)
}

// The SHA-1 of what is left to read, piece by piece.
fn digest_of_rest(file: &mut File) -> io::Result<[u8; 20]> {
    // `read` says how much of it is filled.
    let mut piece = [0u8; PIECE];
    let mut digest = Sha1::open();
    // The count is only an end to the loop, since nothing else proves that a file has one.
    for _ in 0..u64::MAX {
        match file.read(&mut piece) {
            Ok(0) => return Ok(digest.close()),
            Ok(n) => digest = digest.feed(&piece[0..n]),
            Err(e) => {
                let _ = digest.close();
                return Err(e);
            }
        }
    }
    let _ = digest.close();
    Err(io::Error::other("it does not end"))
}
