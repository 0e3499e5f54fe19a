// Reading any store: what programs print from. Contracts say a refusal by `said`, as `Refusal` tells.
ghost use Rattle.std.specs.Prelude.{◌≡◌, length};
ghost use Rattle.store.specs.Refusals.{said};
ghost use Rattle.store.specs.Reading.{cell_answer, all_answer, all_cells};

use crate::cell::Cell;
use crate::interface::Store;
use crate::refusal::{Place, Refusal};

// A cell of a store.
pub fn cell_of<S: Store>(store: &S, cell: u16) -> Result<Cell, Refusal>
    ensures { said result ≡ cell_answer (S.Store.cells store.now) cell }
{
    let mut value = [0u8; 20];
    store.read(cell, &mut value)?;
    let left = store.left(cell)?;
    Ok(Cell { value, left })
}

// All cells of a store, at the start of `into`, and how many they are. Where they do not fit, the first that does not is named. The room is lent, since a device that has stores owns no heap.
// A proof knows nothing of what is written through `zip`, so the place in the room is the number of the cell.
pub fn read_all<S: Store>(store: &S, into: &mut [Cell]) -> Result<u16, Refusal>
    ensures answer { said result ≡ all_answer (S.Store.cells store.now) (length into.old) }
    ensures cells { into.new ≡ all_cells (S.Store.cells store.now) into.old }
{
    let count = store.count();
    let room = u16::try_from(into.len()).unwrap_or(u16::MAX);
    if room < count {
        return Err(Refusal::Misfit(Place::here(room)));
    }
    for (cell, slot) in into[..usize::from(count)].iter_mut().enumerate() {
        *slot = cell_of(store, cell as u16)?;
    }
    Ok(count)
}
