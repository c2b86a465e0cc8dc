// The shelves that a script can ask for.
ghost use Rattle.std.specs.Prelude.{◌≡◌, true, IfOk, IsErr};
ghost use Rattle.drawers.specs.Fresh.{fit_told};
ghost use Rattle.scripts.specs.Makes.{made_by, make_fits};
ghost use Rattle.scripts.specs.Shelves.{shelf_meaning};

use drawers::{Fitted, MakeDrawers, PlacedShelf, is_within, reserved_shelf};
use pools::{PoolDrawer, PoolShelf};
use rows::{RowDrawers, RowShelf};
use shelf::{CheckRefusal, Size};
use splits::SplitShelf;
use std::alloc::{AllocError, Global};

/// Which shelf to make.
#[derive(Clone, Copy)]
pub enum Make {
    Row(Size),
    Pool(Size),
    /// A row and a pool.
    Split(Size, Size),
    /// A split of a row and a pool, and a row.
    Nested(Size, Size, Size),
}

/// A shelf that was made.
#[derive(Drop)]
pub enum Made {
    Row(RowShelf),
    Pool(PoolShelf),
    Split(SplitShelf<RowShelf, PoolShelf>),
    Nested(SplitShelf<SplitShelf<RowShelf, PoolShelf>, RowShelf>),
}

impl Make {
    /// Whether each part is within the limits of its make.
    pub fn fits(self) -> bool
        ensures { result ≡ make_fits self }
    {
        match self {
            Make::Row(size) => is_within(size, RowDrawers::MOST_PLACES),
            Make::Pool(size) => is_within(size, PoolDrawer::MOST_PLACES),
            Make::Split(left, right) => {
                is_within(left, RowDrawers::MOST_PLACES)
                    && is_within(right, PoolDrawer::MOST_PLACES)
            }
            Make::Nested(left, middle, right) => {
                is_within(left, RowDrawers::MOST_PLACES)
                    && is_within(middle, PoolDrawer::MOST_PLACES)
                    && is_within(right, RowDrawers::MOST_PLACES)
            }
        }
    }
}

/// Makes a shelf in memory of its own, with all places free.
///
/// It fits exactly when each part is within the limits of its make. Where it does not, the shelf
/// has no cards, and no memory is asked for. The only error is that memory is wanting.
pub fn make_shelf(alloc: Global, make: Make) -> Result<Fitted<Made>, AllocError>
    ensures told { IfOk result (λ f. f.fits ≡ fit_told (make_fits make)) }
    ensures made { IfOk result (λ f. shelf_meaning f.shelf ≡ made_by make) }
    ensures asked { IsErr result → make_fits make ≡ true }
{
    if !make.fits() {
        return Ok(Fitted {
            shelf: Made::Row(PlacedShelf::without_cards(alloc)),
            fits: Err(CheckRefusal::NoFit),
        });
    }
    Ok(Fitted {
        shelf: reserved(alloc, make)?,
        fits: Ok(()),
    })
}

// Makes a shelf whose parts fit.
fn reserved(alloc: Global, make: Make) -> Result<Made, AllocError>
    requires { make_fits make ≡ true }
    ensures { IfOk result (λ m. shelf_meaning m ≡ made_by make) }
{
    match make {
        Make::Row(size) => Ok(Made::Row(reserved_shelf(alloc, size)?.shelf)),
        Make::Pool(size) => Ok(Made::Pool(reserved_shelf(alloc, size)?.shelf)),
        Make::Split(left, right) => Ok(Made::Split(row_and_pool(alloc, left, right)?)),
        Make::Nested(left, middle, right) => {
            Ok(Made::Nested(nested(alloc, left, middle, right)?))
        }
    }
}

// A split of a row and a pool that both fit.
fn row_and_pool(
    alloc: Global,
    left: Size,
    right: Size,
) -> Result<SplitShelf<RowShelf, PoolShelf>, AllocError>
    requires { make_fits (Make.Split left right) ≡ true }
    ensures { IfOk result (λ s. shelf_meaning (Made.Split s) ≡ made_by (Make.Split left right)) }
{
    let left = reserved_shelf(alloc, left)?.shelf;
    Ok(SplitShelf::new(left, reserved_shelf(alloc, right)?.shelf))
}

// A split of a row and a pool, and a row, that all fit.
fn nested(
    alloc: Global,
    left: Size,
    middle: Size,
    right: Size,
) -> Result<SplitShelf<SplitShelf<RowShelf, PoolShelf>, RowShelf>, AllocError>
    requires { make_fits (Make.Nested left middle right) ≡ true }
    ensures { IfOk result (λ s. shelf_meaning (Made.Nested s)
        ≡ made_by (Make.Nested left middle right)) }
{
    let left = row_and_pool(alloc, left, middle)?;
    let right = reserved_shelf(alloc, right)?.shelf;
    Ok(SplitShelf::new(left, right))
}
