// What every store offers, and what each of its calls means.
ghost use Rattle.std.specs.Prelude.{◌≡◌, ℕ, List, length, MatchResult};
ghost use Rattle.store.specs.declared.cell.Cell.{Cell};
ghost use Rattle.store.specs.declared.refusal.Place.{Place};
ghost use Rattle.store.specs.Refusals.{said};
ghost use Rattle.store.specs.Cells.{Shaped, Unmoved, read_answer, read_bytes, left_answer, write_answer, write_cells};

use crate::refusal::Refusal;

// Cells of twenty bytes that can each be written a number of times. A call that it refuses alters nothing. Which refusal it is, contracts say by `said`, as `Refusal` tells.
pub trait Store {
    // The meaning: the cells in order.
    ghost cells: { Self → List Cell };

    // Beside the meaning: where a write to a cell is refused once the cell has no writes left.
    ghost place: { Self → ℕ → Place };

    // What a write of a value to a cell does inside, for whoever takes a store apart again.
    ghost wrote: { Self → ℕ → List ℕ → Self → Type 0 };

    // How many cells there are.
    fn count(&self) -> u16
        ensures answer { result ≡ length (cells self.now) }
        ensures shape { Shaped (cells self.now) };

    // Reads a cell's value into twenty bytes.
    fn read(&self, cell: u16, into: &mut [u8]) -> Result<(), Refusal>
        ensures answer { said result ≡ read_answer (cells self.now) cell (length into.old) }
        ensures bytes { into.new ≡ read_bytes (cells self.now) cell into.old };

    // How many writes a cell has left.
    fn left(&self, cell: u16) -> Result<u16, Refusal>
        ensures { said result ≡ left_answer (cells self.now) cell };

    // Writes twenty bytes to a cell.
    fn write(&mut self, cell: u16, from: &[u8]) -> Result<(), Refusal>
        ensures answer { said result ≡ write_answer (cells self.old) (place self.old) cell from.now }
        ensures after { cells self.new ≡ write_cells (cells self.old) cell from.now }
        ensures settled { Unmoved (place self.old) (place self.new) }
        ensures inside { MatchResult result (λ _. wrote self.old cell from.now self.new) (λ _. self.new ≡ self.old) };
}
