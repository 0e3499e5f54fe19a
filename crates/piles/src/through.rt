// A write through a pile that is then taken apart: what the image holds afterwards.
ghost use Rattle.std.specs.Prelude.{◌≡◌, ◌+◌, MatchResult};
ghost use Rattle.image.specs.Images.{cell_write};

use image::CellImage;
use store::{Refusal, Store, WearGuard, Window};

// Writes to a cell of a window of `most` cells from `first` on, over a guard with an allowance.
pub fn write_through(
    image: CellImage,
    allowance: u16,
    first: u16,
    most: u16,
    cell: u16,
    from: &[u8],
) -> (Result<(), Refusal>, CellImage)
    ensures { MatchResult result.0 (λ _. result.1.bytes.items ≡ cell_write image.bytes.items (first + cell) from.now) (λ _. result.1.bytes.items ≡ image.bytes.items) }
{
    let mut pile = Window::new(WearGuard::new(image, allowance), first, most);
    let answer = pile.write(cell, from);
    (answer, pile.into_below().into_below())
}
