// Stamps for shelves of a width.
ghost use Rattle.std.specs.Prelude.{◌≡◌, min, if◌then◌else◌, Some, None};
ghost use Rattle.std.specs.Option.{option_map};
ghost use Rattle.stamps.specs.Counts.{room, countable, counts_at};
ghost use Rattle.stamps.specs.Entries.{entries};

use stamps::Stamp;

// The stamp with these counts, if they are no more than the width or 256, and none is above 65,535.
pub fn stamp_from(width: u32, counts: &[u32]) -> Option<Stamp>
    ensures { option_map entries result ≡ (if countable (min width room) counts.now then Some (counts_at counts.now) else None) }
{
    if counts.len() > width as usize {
        return None;
    }
    Stamp::from_counts(counts)
}
