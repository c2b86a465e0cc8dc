// The books of a catalogue.
ghost use Rattle.std.specs.Prelude.{◌≤◌};
ghost use Rattle.tables.specs.Tables.{table_of};

use journals::Journal;
use tables::OpenTable;

mod calls;
mod commits;
mod reads;
mod set_up;

// What is kept of the transactions on one shelf: who is open, with its reads and drafts, the numbers given, and the journal of commits.
#[derive(Drop)]
pub struct Books {
    table: OpenTable,
    // The shelf's width at set-up; before it no transaction is open that could be asked for.
    width: u32,
    // The last number given, 0 before the first: the next is one more in either case, so no option is plainer.
    given: u32,
    journal: Journal,
    ghost numbers: { given ≤ 1000000 },
    ghost modest: { (table_of table).cards ≤ 256 },
}
