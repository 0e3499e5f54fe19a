// A wear guard: the first 32 cells of the store below, each with an allowance of writes.
ghost use Rattle.std.specs.Prelude.{◌≡◌, ◌-◌, ◌<◌, replicate, slice_index, slice_set};
ghost use Rattle.store.specs.Layers.{guard, guard_place, WornIsNamed};

use crate::interface::Store;
use crate::refusal::{Place, Refusal, fit, present};

// How many cells a guard shows.
const SHOWN: u16 = 32;

// What is left of each cell's allowance.
#[derive(Clone, Copy, Debug, PartialEq, Eq)]
pub struct Allowances {
    rest: [u16; 32],
}

impl Allowances {
    fn of(&self, cell: u16) -> u16
        requires { cell < 32 }
        ensures { result ≡ slice_index self.now.rest cell }
    {
        self.rest[usize::from(cell)]
    }

    // Takes one from a cell's allowance.
    fn spend(&mut self, cell: u16)
        requires { cell < 32 }
        ensures { self.new.rest ≡ slice_set self.old.rest cell (slice_index self.old.rest cell - 1) }
    {
        let rest = &mut self.rest[usize::from(cell)];
        *rest = rest.saturating_sub(1);
    }
}

// A guard names itself for worn exactly where its allowance is used up.
#[tactic(auto, using(crate::proofs::Guards::worn_is_named_lem))]
pub fn worn_is_named()
    ensures { WornIsNamed }
{}

// Contracts name the fields, as those of a window do, and it is not `Debug` either.
#[derive(Drop)]
pub struct WearGuard<S> {
    below: S,
    allowances: Allowances,
}

impl<S: Store> WearGuard<S> {
    // Gives each cell the same allowance.
    pub fn new(below: S, allowance: u16) -> WearGuard<S>
        ensures { result ≡ record { below = below; allowances = record { rest = replicate 32 allowance } } }
    {
        WearGuard {
            below,
            allowances: Allowances {
                rest: [allowance; 32],
            },
        }
    }

    // The store below again. A window has its own two lines for this, since a trait for both would be two more declarations.
    pub fn into_below(self) -> S
        ensures { result ≡ self.below }
    {
        let WearGuard {
            below,
            allowances: _,
        } = self;
        below
    }
}

#[tactic(auto, using(crate::proofs::Guards::guards))]
impl<S: Store> Store for WearGuard<S> {
    ghost cells = { λ g. guard g.allowances.rest (S.Store.cells g.below) };

    ghost place = { λ g. guard_place g.allowances.rest (S.Store.cells g.below) (S.Store.place g.below) };

    ghost wrote = { λ g k v t. (t.allowances.rest ≡ slice_set g.allowances.rest k (slice_index g.allowances.rest k - 1)) × S.Store.wrote g.below k v t.below };

    fn count(&self) -> u16 {
        self.below.count().min(SHOWN)
    }

    fn read(&self, cell: u16, into: &mut [u8]) -> Result<(), Refusal> {
        fit(self.count(), cell, into.len())?;
        self.below.read(cell, into)
    }

    fn left(&self, cell: u16) -> Result<u16, Refusal> {
        present(self.count(), cell)?;
        let left = self.below.left(cell)?;
        Ok(left.min(self.allowances.of(cell)))
    }

    fn write(&mut self, cell: u16, from: &[u8]) -> Result<(), Refusal> {
        fit(self.count(), cell, from.len())?;
        if self.allowances.of(cell) == 0 {
            return Err(Refusal::Worn(Place::here(cell)));
        }
        self.below.write(cell, from).map_err(Refusal::deeper)?;
        self.allowances.spend(cell);
        Ok(())
    }
}
