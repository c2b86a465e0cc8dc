// The stamp of a version: a count for each card.
ghost use Rattle.std.specs.Prelude.{◌≡◌, ℕ, ◌≤◌, length, slice_index};

mod calls;

// Room for 256 counts from 0 to 65,535, the cards in their order.
#[derive(Clone, Copy, Debug)]
pub struct Stamp {
    counts: [u16; 256],
    ghost full: { length counts ≡ 256 },
    ghost small: { (i : ℕ) → slice_index counts i ≤ 65535 },
}
