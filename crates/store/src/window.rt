// A window: some cells of the store below, numbered from 0.
ghost use Rattle.std.specs.Prelude.{◌≡◌, ◌+◌, ◌<◌, length};
ghost use Rattle.store.specs.Cells.{Shaped};
ghost use Rattle.store.specs.Layers.{window, window_place};

use crate::interface::Store;
use crate::refusal::{Refusal, fit, present};

// Which cells are shown: up to `most`, from cell `first` of the store below on.
#[derive(Clone, Copy, Debug, PartialEq, Eq)]
pub struct Bounds {
    pub first: u16,
    pub most: u16,
}

// Contracts name the fields and not a list of cells, which would not tell that `into_below` gives back the very store below. It is not `Debug`, since the owner's secret may be in that store.
#[derive(Drop)]
pub struct Window<S> {
    below: S,
    bounds: Bounds,
}

#[tactic(auto, using(crate::proofs::Windows::windows))]
impl<S: Store> Window<S> {
    // The two numbers come one by one, since `Bounds { first, most }` at every call would say no more.
    pub fn new(below: S, first: u16, most: u16) -> Window<S>
        ensures { result ≡ record { below = below; bounds = record { first = first; most = most } } }
    {
        Window {
            below,
            bounds: Bounds { first, most },
        }
    }

    // How many cells are shown.
    fn shown(&self) -> u16
        ensures answer { result ≡ length (window self.now.bounds.first self.now.bounds.most (S.Store.cells self.now.below)) }
        ensures room { self.now.bounds.first + result < 65536 }
        ensures below { Shaped (S.Store.cells self.now.below) }
    {
        let count = self.below.count();
        count
            .saturating_sub(self.bounds.first)
            .min(self.bounds.most)
    }

    // The store below again. A guard has its own two lines for this, since a trait for both would be two more declarations.
    pub fn into_below(self) -> S
        ensures { result ≡ self.below }
    {
        let Window { below, bounds: _ } = self;
        below
    }
}

#[tactic(auto, using(crate::proofs::Windows::windows))]
impl<S: Store> Store for Window<S> {
    ghost cells = { λ w. window w.bounds.first w.bounds.most (S.Store.cells w.below) };

    ghost place = { λ w. window_place w.bounds.first (S.Store.place w.below) };

    ghost wrote = { λ w k v t. (t.bounds ≡ w.bounds) × S.Store.wrote w.below (w.bounds.first + k) v t.below };

    fn count(&self) -> u16 {
        self.shown()
    }

    fn read(&self, cell: u16, into: &mut [u8]) -> Result<(), Refusal> {
        fit(self.shown(), cell, into.len())?;
        self.below.read(self.bounds.first + cell, into)
    }

    fn left(&self, cell: u16) -> Result<u16, Refusal> {
        present(self.shown(), cell)?;
        self.below.left(self.bounds.first + cell)
    }

    fn write(&mut self, cell: u16, from: &[u8]) -> Result<(), Refusal> {
        fit(self.shown(), cell, from.len())?;
        self.below
            .write(self.bounds.first + cell, from)
            .map_err(Refusal::deeper)
    }
}
