// The images that are exercised: small ones, faulty ones, and the largest.
use crate::exercise::exercise;
use crate::layers::exercise_piles;
use crate::through::write_through;
use digest::digest_of;
use image::{CellImage, StripImage};
use std::alloc::{AllocError, Global};
use std::fmt::Display;
use std::io;
use store::Store;
use text::Hex;

// Seven cells with 0 to 6 writes left.
fn cell_bytes(heap: Global) -> Result<Vec<u8>, AllocError> {
    seven_cells(heap, 20, [0, 1, 2, 3, 4, 5, 6], 7)
}

// Seven cells with strips of four, of which 0 to 4 are used.
fn strip_bytes(heap: Global) -> Result<Vec<u8>, AllocError> {
    seven_cells(heap, 4, [0, 1, 2, 3, 4, 0, 1], 28)
}

// An image of seven cells: the second number of its head, a number for each cell, and values whose bytes count up.
fn seven_cells(
    heap: Global,
    second: u8,
    numbers: [u8; 7],
    values: u16,
) -> Result<Vec<u8>, AllocError> {
    let mut bytes = vec![in heap; 0, 7, 0, second]?;
    bytes.extend(numbers.into_iter().flat_map(|number| [0, number]))?;
    bytes.extend((0..u32::from(values) * 20).map(|i| (i % 251) as u8))?;
    Ok(bytes)
}

// The digest of an image's bytes.
fn print_digest<I: Into<Vec<u8>>>(rt: &HostRuntime, image: I) -> io::Result<()> {
    let bytes: Vec<u8> = image.into();
    let digest = digest_of(bytes.as_slice());
    let hex = Hex { bytes: &digest };
    println!(rt; "image {hex}")
}

// Both kinds, by themselves and under piles.
pub fn print_small(rt: &HostRuntime) -> io::Result<()> {
    println!(rt; "cell image")?;
    print_twice::<CellImage>(rt, cell_bytes(rt.alloc())?)?;
    println!(rt; "strip image")?;
    print_twice::<StripImage>(rt, strip_bytes(rt.alloc())?)
}

// An image by itself, and the same anew under piles.
fn print_twice<I: Store + Drop + From<Vec<u8>> + Into<Vec<u8>>>(
    rt: &HostRuntime,
    bytes: Vec<u8>,
) -> io::Result<()> {
    let _ = exercise(rt, I::from(bytes.clone()?), 8, 30)?;
    let image = exercise_piles(rt, I::from(bytes))?;
    print_digest(rt, image)
}

// One byte short, one byte long, without the 20, with a used count above the width, and with strips of no places.
pub fn print_faulty(rt: &HostRuntime) -> io::Result<()> {
    let heap = rt.alloc();
    print_near::<CellImage>(rt, "cell image", cell_bytes(heap)?)?;
    let image = CellImage::new(vec![in heap; 0, 0, 0, 21]?);
    print_titled(rt, "cell image, without the 20", image)?;
    print_near::<StripImage>(rt, "strip image", strip_bytes(heap)?)?;
    let image = StripImage::new(vec![in heap; 0, 2, 0, 0, 0, 0, 0, 0]?);
    print_titled(rt, "strip image, width 0", image)?;
    let image = StripImage::new(vec![in heap; 0, 2, 0, 0, 0, 0, 0, 1]?);
    print_titled(rt, "strip image, used above its width", image)?;
    print_titled(rt, "no bytes", StripImage::new(Vec::new(heap)))
}

// An image without its last byte, and with one more.
fn print_near<I: Store + Drop + From<Vec<u8>> + Into<Vec<u8>>>(
    rt: &HostRuntime,
    title: &str,
    bytes: Vec<u8>,
) -> io::Result<()> {
    let mut short = bytes.clone()?;
    let _ = short.pop();
    print_titled(rt, format_args!("{title}, a byte short"), I::from(short))?;
    let mut long = bytes;
    long.push(0)?;
    print_titled(rt, format_args!("{title}, a byte long"), I::from(long))
}

fn print_titled<T: Display + Drop, I: Store + Drop + Into<Vec<u8>>>(
    rt: &HostRuntime,
    title: T,
    image: I,
) -> io::Result<()> {
    println!(rt; "{title}")?;
    let image = exercise(rt, image, 2, 6)?;
    print_digest(rt, image)
}

// Five writes to one cell, each through a new pile; the cell has three left. The number of a turn is the byte that it writes.
pub fn print_through(rt: &HostRuntime) -> io::Result<()> {
    println!(rt; "through window 1 4 and guard 1")?;
    let mut image = CellImage::new(cell_bytes(rt.alloc())?);
    for turn in 0..5u8 {
        let (answer, after) = write_through(image, 1, 1, 4, 2, &[turn; 20]);
        match answer {
            Ok(()) => print!(rt; "ok ")?,
            Err(refusal) => print!(rt; "{refusal} ")?,
        }
        let bytes = after.into_bytes();
        image = CellImage::new(bytes.clone()?);
        print_digest(rt, bytes)?;
    }
    Ok(())
}

// As many cells as there can be.
pub fn print_large(rt: &HostRuntime) -> io::Result<()> {
    println!(rt; "cell image of 65535")?;
    print_whole(rt, CellImage::blank(rt.alloc(), 65535, 2)?)?;
    println!(rt; "strip image of 65535")?;
    print_whole(rt, StripImage::blank(rt.alloc(), 65535, 2)?)
}

// An image by itself, and then under piles.
fn print_whole<I: Store + Drop + Into<Vec<u8>>>(rt: &HostRuntime, image: I) -> io::Result<()> {
    let image = exercise(rt, image, 65535, 60)?;
    let image = exercise_piles(rt, image)?;
    print_digest(rt, image)
}
