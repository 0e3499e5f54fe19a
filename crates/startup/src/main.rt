// What a mechanic runs on the parts of a groomer's controller. `startup --help` says what there is.
#![tactic(auto)]

mod failure;
mod images;
mod measure;

use failure::Failure;
use image::Kind;
use images::{Size, new_image, show_image};
use measure::{measure_files, measure_listed};
use std::process::ExitCode;
use std::{env, io};

const USAGE: &str = "\
usage: startup measure FILE...
       startup measure
       startup show IMAGE
       startup new OUT CELLS WRITES [--strip]
       startup --help

measure FILE...   print the SHA-1 of each file, as sha1sum does, and then the value
                  of a register after these digests were chained into it in order:
                  it starts at twenty zero bytes, and each digest makes it SHA-1 of
                  the register followed by the digest
measure           the same for the files that parts.txt in the current folder names,
                  one to a line; startup alone does this too

show IMAGE        print which kind of store image a file is, and each of its cells:
                  its number, its value and how many writes it has left
new OUT CELLS WRITES [--strip]
                  make a cell image of zeros, or with --strip a strip image, with so
                  many cells that can each be written so many times; both are numbers
                  from 0 to 65535, and OUT is a file that is not there yet

A file that cannot be read is named on standard error, with the reason, and left out
of the register. The others are measured, and the status is then 1.
Where an image cannot be shown or made, the reason is named and the status is 1.
";

fn main(rt: HostRuntime) -> ExitCode {
    let words = match arguments(&rt) {
        Ok(words) => words,
        Err(error) => return fail(&rt, Failure::System(error)),
    };
    run(&rt, words.as_slice()).unwrap_or_else(|failure| fail(&rt, failure))
}

fn arguments(rt: &HostRuntime) -> io::Result<Vec<String>> {
    Ok(env::args(rt)?.skip(1).collect(rt.alloc())?)
}

// Says what was wrong.
fn fail(rt: &HostRuntime, failure: Failure<'_>) -> ExitCode {
    let _ = eprintln!(rt; "startup: {failure}");
    ExitCode::FAILURE
}

// Does what the arguments ask. They come as text and are used once, so they are matched as text.
fn run<'a>(rt: &HostRuntime, args: &'a [String]) -> Result<ExitCode, Failure<'a>> {
    let Some((command, words)) = args.split_first() else {
        return measure_listed(rt);
    };
    match command.as_str() {
        "measure" if words.is_empty() => return measure_listed(rt),
        "measure" => return Ok(measure_files(rt, words)?),
        "show" => show(rt, words)?,
        "new" => new(rt, words)?,
        "--help" | "-h" | "help" => print!(rt; "{USAGE}")?,
        other => return Err(Failure::NoCommand(other)),
    }
    Ok(ExitCode::SUCCESS)
}

fn show<'a>(rt: &HostRuntime, words: &'a [String]) -> Result<(), Failure<'a>> {
    match words {
        [name] => show_image(rt, name.as_str()),
        _ => Err(Failure::Usage("show takes one file: startup show IMAGE")),
    }
}

fn new<'a>(rt: &HostRuntime, words: &'a [String]) -> Result<(), Failure<'a>> {
    let (out, cells, writes, kind) = match words {
        [out, cells, writes] => (out, cells, writes, Kind::Cells),
        [out, cells, writes, flag] if flag.as_str() == "--strip" => (
            out,
            cells,
            writes,
            Kind::Strips,
        ),
        _ => return Err(Failure::Usage("it is startup new OUT CELLS WRITES [--strip]")),
    };
    let size = Size::parse(cells.as_str(), writes.as_str())?;
    new_image(rt, out.as_str(), kind, size)
}
