// Nonvolatile stores: one interface with one meaning, and two layers over any store. The meaning is in specs/.
//
//     let mut store = Window::new(WearGuard::new(below, 100), 2, 4);
//     store.write(0, &digest)?;
//     let below = store.into_below().into_below();
#![tactic(auto)]

pub mod cell;
pub mod interface;
pub mod reading;
pub mod refusal;
pub mod wear_guard;
pub mod window;

pub use cell::Cell;
pub use interface::Store;
pub use reading::{cell_of, read_all};
pub use refusal::{Place, Refusal};
pub use wear_guard::WearGuard;
pub use window::Window;
