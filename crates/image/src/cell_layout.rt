// The layout of a cell image: each cell has its writes left and one value.
ghost use Rattle.image.specs.Images.{is_cell_image, cell_image, cell_write, new_cells};

use crate::bytes::{alter, blank_bytes, number_at, number_of, value_of};
use crate::layout::Layout;
use std::alloc::{AllocError, Global};

#[derive(Clone, Copy, Debug)]
pub struct Cells;

#[tactic(auto, using(crate::proofs::CellImages::cells, crate::proofs::Blanks::blank_cells))]
impl Layout for Cells {
    ghost is_image = { is_cell_image };

    ghost cells = { cell_image };

    ghost written = { cell_write };

    ghost blank = { new_cells };

    fn count(bytes: &[u8]) -> Option<u16> {
        if bytes.len() < 4 {
            return None;
        }
        let count = number_at(bytes, 0);
        let whole = number_at(bytes, 2) == 20 && bytes.len() == 4 + 22 * usize::from(count);
        whole.then_some(count)
    }

    fn value(bytes: &[u8], cell: u16) -> [u8; 20] {
        value_of(bytes, usize::from(cell))
    }

    fn left(bytes: &[u8], cell: u16) -> u16 {
        number_of(bytes, cell)
    }

    fn write(bytes: &mut [u8], cell: u16, value: &[u8; 20]) {
        let left = number_of(bytes, cell);
        alter(bytes, cell, left - 1, usize::from(cell), value);
    }

    fn blank(heap: Global, count: u16, writes: u16) -> Result<Vec<u8>, AllocError> {
        blank_bytes(heap, count, 20, writes, usize::from(count))
    }
}
