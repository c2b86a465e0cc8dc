// The first records of a file, which have passed every test.
ghost use Rattle.std.specs.Prelude.{◌≤◌};
ghost use Rattle.records.specs.Parts.{records_in};
ghost use Rattle.reach.specs.Paths.{edges};
ghost use Rattle.scan.specs.Scanning.{Readable, Seen};

mod deeds;
mod order;
mod record;

use reach::Graph;

// What the first records of a file tell.
#[derive(Drop)]
pub(crate) struct Told<'a> {
    file: &'a [u8],
    // How many records were taken in: as many as there are links, which a graph has no call to tell.
    count: usize,
    // The places of the records, an edge from the transaction's node for each.
    links: Graph,
    ghost within: { count ≤ records_in file.now },
    ghost few: { records_in file.now ≤ 2048 },
    ghost good: { Readable file.now count },
    ghost seen: { Seen file.now count (edges links) },
}
