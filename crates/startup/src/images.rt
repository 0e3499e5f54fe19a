// Store images in files: showing what one holds, and making a new one.
use crate::failure::Failure;
use image::{CellImage, Kind, StripImage, kind_of};
use std::alloc::{AllocError, Global};
use std::fs::File;
use std::io::Write;
use std::{fs, io};
use store::{Cell, Store, read_all};
use text::Hex;

// How many cells a new image has, and how often each can be written.
#[derive(Clone, Copy, Debug)]
pub struct Size {
    cells: u16,
    writes: u16,
}

impl Size {
    // The size in two words, each a number from 0 to 65,535; every word that is none is named.
    pub fn parse<'a>(cells: &'a str, writes: &'a str) -> Result<Size, Failure<'a>> {
        match (cells.parse::<u16>(), writes.parse::<u16>()) {
            (Ok(cells), Ok(writes)) => Ok(Size { cells, writes }),
            (Ok(_), Err(_)) => Err(Failure::NoNumber(writes)),
            (Err(_), Ok(_)) => Err(Failure::NoNumber(cells)),
            (Err(_), Err(_)) => Err(Failure::NoNumbers(cells, writes)),
        }
    }
}

// Prints the cells of an image file.
pub fn show_image<'a>(rt: &HostRuntime, name: &'a str) -> Result<(), Failure<'a>> {
    let bytes = fs::read(rt, name).map_err(|error| Failure::File { name, error })?;
    let Some(kind) = kind_of(bytes.as_slice()) else {
        let len = bytes.len();
        return Err(Failure::NoImage { name, len });
    };
    match kind {
        Kind::Cells => show_cells(rt, kind, &CellImage::new(bytes)),
        Kind::Strips => show_cells(rt, kind, &StripImage::new(bytes)),
    }
}

// Prints the cells of any store.
fn show_cells<S: Store>(rt: &HostRuntime, kind: Kind, store: &S) -> Result<(), Failure<'static>> {
    let count = store.count();
    println!(rt; "{kind} image, cells {count}")?;
    let mut cells = vec![in rt.alloc(); Cell::default(); usize::from(count)]?;
    read_all(store, cells.as_mut_slice()).map_err(|_| Failure::NoCells)?;
    for (k, cell) in cells.iter().enumerate() {
        show_cell(rt, k, cell)?;
    }
    Ok(())
}

// The words are the program's own, so a cell has no display that says them.
fn show_cell(rt: &HostRuntime, k: usize, cell: &Cell) -> io::Result<()> {
    let hex = Hex { bytes: &cell.value };
    let left = cell.left;
    println!(rt; "cell {k} {hex} writes left {left}")
}

// Makes an image of zeros in a new file.
pub fn new_image<'a>(
    rt: &HostRuntime,
    name: &'a str,
    kind: Kind,
    size: Size,
) -> Result<(), Failure<'a>> {
    let bytes = blank(rt.alloc(), kind, size)?;
    write_new(rt, name, bytes.as_slice()).map_err(|error| Failure::File { name, error })
}

// The bytes of an image of zeros.
fn blank(heap: Global, kind: Kind, size: Size) -> Result<Vec<u8>, AllocError> {
    match kind {
        Kind::Cells => Ok(CellImage::blank(heap, size.cells, size.writes)?.into_bytes()),
        Kind::Strips => Ok(StripImage::blank(heap, size.cells, size.writes)?.into_bytes()),
    }
}

// A file that is there already is left as it is, since it may be an image that somebody needs. One that cannot be written whole is taken away again.
fn write_new(rt: &HostRuntime, name: &str, bytes: &[u8]) -> io::Result<()> {
    let mut file = File::create_new(rt, name)?;
    let written = file.write_all(bytes);
    if written.is_err() {
        let _ = fs::remove_file(rt, name);
    }
    written
}
