// Stores in bytes, as they lie in a file: cell images and strip images.
//
//     let mut store = CellImage::new(bytes);
//     store.write(2, &digest)?;
//     let bytes = store.into_bytes();
#![tactic(auto)]

mod bytes;
mod cell_layout;
pub mod examples;
pub mod images;
pub mod kinds;
mod layout;
mod strip_layout;

pub use images::{CellImage, Image, StripImage};
pub use kinds::{Kind, kind_of};
