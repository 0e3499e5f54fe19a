// Why a store refuses a call, and where the refusal arose.
ghost use Rattle.std.specs.Prelude.{◌≡◌, Ok, Some};
ghost use Rattle.store.specs.Refusals.{here, deeper, lower, told, said, place_text, refusal_text};
ghost use Rattle.store.specs.Cells.{present, fitted};

use std::error::Error;
use std::fmt;

// Where a refusal arose: how many layers below the store that was called, and the cell there.
#[derive(Clone, Copy, Debug, PartialEq, Eq)]
pub struct Place {
    pub layer: u16,
    pub cell: u16,
}

impl Place {
    // A cell of the store that was called.
    pub fn here(cell: u16) -> Place
        ensures { result ≡ here cell }
    {
        Place { layer: 0, cell }
    }

    // The same place as the layer above sees it.
    pub fn deeper(self) -> Place
        ensures { result ≡ deeper self }
    {
        Place {
            layer: self.layer.saturating_add(1),
            cell: self.cell,
        }
    }
}

impl fmt::Display for Place {
    ghost output = { λ p. Some (place_text p) };

    fn fmt<W: fmt::Write>(&self, f: &mut fmt::Formatter<W>) -> fmt::Result {
        let Place { layer, cell } = *self;
        write!(f, "{layer} {cell}")
    }
}

// Contracts state a refusal by `told`, which gives each cause its number beside its place, and an answer by `said` over it: each enum that a library's call answers has such a definition. The rules order the causes by their numbers.
#[derive(Clone, Copy, Debug, PartialEq, Eq)]
pub enum Refusal {
    // the bytes to read into or to write from are not twenty
    Misfit(Place),
    // the store has no such cell
    Absent(Place),
    // a write to a cell that has no writes left
    Worn(Place),
}

impl Refusal {
    // The same refusal as the layer above hands it on.
    pub fn deeper(self) -> Refusal
        ensures { told result ≡ lower (told self) }
    {
        match self {
            Refusal::Misfit(place) => Refusal::Misfit(place.deeper()),
            Refusal::Absent(place) => Refusal::Absent(place.deeper()),
            Refusal::Worn(place) => Refusal::Worn(place.deeper()),
        }
    }
}

impl fmt::Display for Refusal {
    ghost output = { λ r. Some (refusal_text r) };

    fn fmt<W: fmt::Write>(&self, f: &mut fmt::Formatter<W>) -> fmt::Result {
        match *self {
            Refusal::Misfit(place) => write!(f, "misfit {place}"),
            Refusal::Absent(place) => write!(f, "absent {place}"),
            Refusal::Worn(place) => write!(f, "worn {place}"),
        }
    }
}

impl Error for Refusal {}

// What a store of `count` cells says to a call for a cell, before anything else.
pub fn present(count: u16, cell: u16) -> Result<(), Refusal>
    ensures { said result ≡ present count cell (Ok tt) }
{
    if cell < count {
        Ok(())
    } else {
        Err(Refusal::Absent(Place::here(cell)))
    }
}

// The same where the call brings `len` bytes too.
pub fn fit(count: u16, cell: u16, len: usize) -> Result<(), Refusal>
    ensures { said result ≡ fitted count cell len (Ok tt) }
{
    if len != 20 {
        return Err(Refusal::Misfit(Place::here(cell)));
    }
    present(count, cell)
}
