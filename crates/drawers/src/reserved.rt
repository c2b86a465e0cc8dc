// Making a shelf with memory of its own.
ghost use Rattle.std.specs.Prelude.{◌≡◌, true, IfOk, IsErr};
ghost use Rattle.drawers.specs.Fresh.{fit_told, made, size_fits};

use crate::making::{MakeDrawers, is_within};
use crate::placed::PlacedShelf;
use shelf::{CheckRefusal, Shelf, Size};
use std::alloc::{AllocError, Global};

/// A shelf that was made, and whether the size that was asked for fitted: where it did not, the
/// shelf has no cards.
#[derive(Drop)]
pub struct Fitted<S> {
    pub shelf: S,
    pub fits: Result<(), CheckRefusal>,
}

/// A shelf of this size, in memory of its own: each card at version 0 alone, all places free.
///
/// It fits exactly when the size is within the limits of its make. Where it does not, the shelf has
/// no cards, and no memory is asked for. The only error is that memory is wanting.
pub fn reserved_shelf<D: MakeDrawers>(
    alloc: Global,
    size: Size,
) -> Result<Fitted<PlacedShelf<D>>, AllocError>
    ensures told { IfOk result (λ f. f.fits ≡ fit_told (size_fits D.MOST_PLACES size)) }
    ensures made { IfOk result (λ f. ⟦<PlacedShelf<D> as Shelf>⟧.meaning f.shelf
        ≡ made (size_fits D.MOST_PLACES size) size D.together) }
    ensures asked { IsErr result → size_fits D.MOST_PLACES size ≡ true }
{
    if !is_within(size, D::MOST_PLACES) {
        return Ok(Fitted {
            shelf: PlacedShelf::without_cards(alloc),
            fits: Err(CheckRefusal::NoFit),
        });
    }
    let memory = D::reserve(alloc, size.cards, size.places)?;
    Ok(Fitted {
        shelf: PlacedShelf::new(memory, size),
        fits: Ok(()),
    })
}
