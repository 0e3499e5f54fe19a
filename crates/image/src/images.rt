// Images: stores in bytes of any layout.
ghost use Rattle.std.specs.Prelude.{◌≡◌, true, replicate, IfOk};
ghost use Rattle.store.specs.Refusals.{here};
ghost use Rattle.store.specs.Cells.{cell};
ghost use Rattle.image.specs.Images.{zeros};

use crate::cell_layout::Cells;
use crate::layout::Layout;
use crate::strip_layout::Strips;
use std::alloc::{AllocError, Global};
use std::marker::{Model, PhantomData};
use store::refusal::{fit, present};
use store::{Place, Refusal, Store};

// Contracts name the bytes and no list of them, since `into_bytes` gives back the very vector that was taken. It is not `Debug`, since the owner's secret is in them.
#[derive(Drop)]
pub struct Image<L: Layout> {
    bytes: Vec<u8>,
    // how many cells they show; it is found out once, since a layout may have to look at all of them
    count: u16,
    layout: PhantomData<L>,
}

impl<L: Layout> Model for Image<L> {
    ghost use Rattle.std.specs.Prelude.{◌≡◌, length};
    ghost use Rattle.store.specs.Cells.{Shaped};
    ghost use Rattle.image.specs.Images.{Contents};

    ghost Value = { Contents };

    ghost view = { λ s. record { bytes = s.bytes } };

    ghost invariant = { λ s. (s.count ≡ length (L.cells s.bytes.items)) × Shaped (L.cells s.bytes.items) };

    ghost inverse = { λ v. record { bytes = v.bytes; count = length (L.cells v.bytes.items); layout = record {} } };
}

pub type CellImage = Image<Cells>;

pub type StripImage = Image<Strips>;

impl<L: Layout> Image<L> {
    // Whether bytes are an image of this layout.
    pub fn is_image(bytes: &[u8]) -> bool
        ensures { result ≡ L.is_image bytes.now }
    {
        L::count(bytes).is_some()
    }

    // The store in these bytes; it has no cells where they are no image of this layout.
    pub fn new(bytes: Vec<u8>) -> Image<L>
        ensures { result.bytes ≡ bytes }
    {
        let count = L::count(bytes.as_slice()).unwrap_or(0);
        Image {
            bytes,
            count,
            layout: PhantomData,
        }
    }

    // A store of zeros. The two numbers come one by one, as those of a window do.
    pub fn blank(heap: Global, cells: u16, writes: u16) -> Result<Image<L>, AllocError>
        ensures bytes { IfOk result (λ s. s.bytes.items ≡ L.blank cells writes) }
        ensures image { IfOk result (λ s. L.is_image s.bytes.items ≡ true) }
        ensures shown { IfOk result (λ s. L.cells s.bytes.items ≡ replicate cells (cell zeros writes)) }
    {
        let bytes = L::blank(heap, cells, writes)?;
        Ok(Image {
            bytes,
            count: cells,
            layout: PhantomData,
        })
    }

    // The bytes again, to be kept.
    pub fn into_bytes(self) -> Vec<u8>
        ensures { result ≡ self.bytes }
    {
        self.bytes
    }
}

impl<L: Layout> From<Vec<u8>> for Image<L> {
    ghost from_gives = { λ bytes image. image.bytes ≡ bytes };

    fn from(bytes: Vec<u8>) -> Self {
        Image::new(bytes)
    }
}

impl<L: Layout> From<Image<L>> for Vec<u8> {
    ghost from_gives = { λ image bytes. bytes ≡ image.bytes };

    fn from(image: Image<L>) -> Self {
        image.into_bytes()
    }
}

impl<L: Layout> Store for Image<L> {
    ghost cells = { λ s. L.cells s.bytes.items };

    ghost place = { λ _ k. here k };

    ghost wrote = { λ s k v t. t.bytes.items ≡ L.written s.bytes.items k v };

    fn count(&self) -> u16 {
        self.count
    }

    fn read(&self, cell: u16, into: &mut [u8]) -> Result<(), Refusal> {
        fit(self.count, cell, into.len())?;
        into.copy_from_slice(&L::value(self.bytes.as_slice(), cell));
        Ok(())
    }

    fn left(&self, cell: u16) -> Result<u16, Refusal> {
        present(self.count, cell)?;
        Ok(L::left(self.bytes.as_slice(), cell))
    }

    fn write(&mut self, cell: u16, from: &[u8]) -> Result<(), Refusal> {
        fit(self.count, cell, from.len())?;
        if L::left(self.bytes.as_slice(), cell) == 0 {
            return Err(Refusal::Worn(Place::here(cell)));
        }
        L::write(self.bytes.as_mut_slice(), cell, from.as_array().unwrap());
        Ok(())
    }
}
