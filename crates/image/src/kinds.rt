// Which kind of image bytes are.
ghost use Rattle.std.specs.Prelude.{◌≡◌, Some};
ghost use Rattle.image.specs.Kinds.{kind_number, kind_in, kind_name};

use crate::images::{CellImage, StripImage};
use std::fmt;

// The contract of `kind_of` is stated by `kind_number`, since each enum that a library's call answers has one definition with the number of each case.
#[derive(Clone, Copy, Debug, PartialEq, Eq)]
pub enum Kind {
    Cells,
    Strips,
}

impl fmt::Display for Kind {
    ghost output = { λ k. Some (kind_name k) };

    fn fmt<W: fmt::Write>(&self, f: &mut fmt::Formatter<W>) -> fmt::Result {
        match self {
            Kind::Cells => write!(f, "cell"),
            Kind::Strips => write!(f, "strip"),
        }
    }
}

// None where they are no image. An image of no cells that is of both kinds passes for a cell image.
pub fn kind_of(bytes: &[u8]) -> Option<Kind>
    ensures { kind_number result ≡ kind_in bytes.now }
{
    if CellImage::is_image(bytes) {
        Some(Kind::Cells)
    } else if StripImage::is_image(bytes) {
        Some(Kind::Strips)
    } else {
        None
    }
}
