// What every layout of cells in bytes offers, and what each of its calls means.
ghost use Rattle.std.specs.Prelude.{◌≡◌, ℕ, ◌<◌, Bool, true, cond, List, length, replicate, Some, None, IfOk};
ghost use Rattle.std.specs.Option.{unwrap_or};
ghost use Rattle.store.specs.declared.cell.Cell.{Cell};
ghost use Rattle.store.specs.Cells.{cell, at, Shaped, write_cells};
ghost use Rattle.image.specs.Bytes.{count_in};
ghost use Rattle.image.specs.Images.{zeros};

use std::alloc::{AllocError, Global};

// How cells lie in the bytes of an image. The functions do the work of a store on bytes that are known to have the cell, so the crate keeps them to itself.
// Each asks for the cell by a clause: a struct that knows of it would be needed twice, for bytes that are read and for bytes that are written.
pub trait Layout {
    // Whether bytes are an image of this layout.
    ghost is_image: { List ℕ → Bool };

    // The cells that bytes show.
    ghost cells: { List ℕ → List Cell };

    // The bytes after a write of a value to a cell.
    ghost written: { List ℕ → ℕ → List ℕ → List ℕ };

    // The bytes of cells of zeros with so many writes each.
    ghost blank: { ℕ → ℕ → List ℕ };

    // How many cells bytes show; none where they are no image, and then they show no cells.
    fn count(bytes: &[u8]) -> Option<u16>
        ensures answer { result ≡ cond (is_image bytes.now) (Some (count_in bytes.now)) None }
        ensures shown { unwrap_or result 0 ≡ length (cells bytes.now) }
        ensures shape { Shaped (cells bytes.now) };

    // The value of a cell.
    fn value(bytes: &[u8], cell: u16) -> [u8; 20]
        requires { cell < length (cells bytes.now) }
        ensures { result ≡ (at (cells bytes.now) cell).value };

    // How many writes a cell has left.
    fn left(bytes: &[u8], cell: u16) -> u16
        requires { cell < length (cells bytes.now) }
        ensures { result ≡ (at (cells bytes.now) cell).left };

    // Writes a value to a cell that has writes left.
    fn write(bytes: &mut [u8], cell: u16, value: &[u8; 20])
        requires there { cell < length (cells bytes.old) }
        requires unworn { 0 < (at (cells bytes.old) cell).left }
        ensures bytes { bytes.new ≡ written bytes.old cell value.now }
        ensures after { cells bytes.new ≡ write_cells (cells bytes.old) cell value.now }
        ensures shape { Shaped (cells bytes.new) };

    // The bytes of a store of zeros.
    fn blank(heap: Global, count: u16, writes: u16) -> Result<Vec<u8>, AllocError>
        ensures bytes { IfOk result (λ v. v.items ≡ blank count writes) }
        ensures image { IfOk result (λ v. is_image v.items ≡ true) }
        ensures shown { IfOk result (λ v. cells v.items ≡ replicate count (cell zeros writes)) };
}
