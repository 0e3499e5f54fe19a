// The layout of a strip image: each cell has a strip of values that are filled one after another.
ghost use Rattle.std.specs.Prelude.{◌≡◌, ◌+◌, ◌*◌, ◌≤◌, length};
ghost use Rattle.image.specs.Images.{used_within, is_strip_image, strip_place, strip_image, strip_write, new_strips};

use crate::bytes::{alter, blank_bytes, number_at, number_of, value_of};
use crate::layout::Layout;
use std::alloc::{AllocError, Global};

#[derive(Clone, Copy, Debug)]
pub struct Strips;

// Whether no used count of the first `count` cells is above the width. This and the next take bytes and a place, as the functions of `bytes` do.
fn used_within(bytes: &[u8], width: u16, count: u16) -> bool
    requires { 4 + 2 * count ≤ length bytes.now }
    ensures { result ≡ used_within bytes.now width count }
{
    (0..count).all(|cell| number_of(bytes, cell) <= width)
}

// Which of the values is a place of a cell's strip.
fn slot_of(bytes: &[u8], cell: u16, place: u16) -> usize
    requires { 4 ≤ length bytes.now }
    ensures { result ≡ strip_place bytes.now cell place }
{
    usize::from(cell) * usize::from(number_at(bytes, 2)) + usize::from(place)
}

#[tactic(auto, using(crate::proofs::StripImages::strips, crate::proofs::Blanks::blank_strips))]
impl Layout for Strips {
    ghost is_image = { is_strip_image };

    ghost cells = { strip_image };

    ghost written = { strip_write };

    ghost blank = { new_strips };

    fn count(bytes: &[u8]) -> Option<u16> {
        if bytes.len() < 4 {
            return None;
        }
        let count = number_at(bytes, 0);
        let width = number_at(bytes, 2);
        let values = usize::from(count) * usize::from(width);
        let whole = bytes.len() == 4 + 2 * usize::from(count) + 20 * values
            && used_within(bytes, width, count);
        whole.then_some(count)
    }

    // The newest of its strip, or zeros where the strip is empty.
    fn value(bytes: &[u8], cell: u16) -> [u8; 20] {
        let used = number_of(bytes, cell);
        if used == 0 {
            [0; 20]
        } else {
            value_of(bytes, slot_of(bytes, cell, used - 1))
        }
    }

    // How many places of its strip are not filled.
    fn left(bytes: &[u8], cell: u16) -> u16 {
        number_at(bytes, 2) - number_of(bytes, cell)
    }

    // Fills the next place of its strip.
    fn write(bytes: &mut [u8], cell: u16, value: &[u8; 20]) {
        let used = number_of(bytes, cell);
        let slot = slot_of(bytes, cell, used);
        alter(bytes, cell, used + 1, slot, value);
    }

    fn blank(heap: Global, count: u16, writes: u16) -> Result<Vec<u8>, AllocError> {
        let values = usize::from(count) * usize::from(writes);
        blank_bytes(heap, count, writes, 0, values)
    }
}
