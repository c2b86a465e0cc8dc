// A shelf of lists.
ghost use Rattle.std.specs.Prelude.{◌≡◌, ℕ, ◌≤◌, length, Some, vec_items};
ghost use Rattle.std.specs.List.{slice_get};
ghost use Rattle.std.specs.Global.{Vec as VecOf};
ghost use Rattle.lists.specs.declared.list_shelf.Kept.{Kept as OneKept};
ghost use Rattle.lists.specs.Lists.{IsList};

use stamps::{Stamp, TxNo, Value};

mod answers;
mod making;

// A version.
#[derive(Clone, Copy)]
struct Kept {
    value: Value,
    writer: TxNo,
    stamp: Stamp,
}

/// A shelf that keeps the versions of each card in a list of its own, version 0 first. Each list
/// has room for as many more as there are places.
#[derive(Drop)]
pub struct ListShelf {
    lists: Vec<Vec<Kept>>,
    width: u32,
    places: u32,
    ghost few: { length (vec_items lists) ≤ 256 },
    ghost narrow: { width ≤ 256 },
    ghost modest: { places ≤ 65535 },
    ghost each: { (c : ℕ) (v : VecOf OneKept) → slice_get (vec_items lists) c ≡ Some v →
        IsList width places v },
}
