// The block of lines that a commit adds to the journal.
ghost use Rattle.std.specs.Prelude.{◌≡◌, ℕ, ◌+◌, ◌≤◌, true, map, length};
ghost use Rattle.stamps.specs.Counts.{room};
ghost use Rattle.records.specs.declared.kind.Kind.TheVariants as kinds;
ghost use Rattle.records.specs.Format.{no_words};
ghost use Rattle.transactions.specs.Committing.{line, block};
ghost use Rattle.journals.specs.Journals.{log_of, log_room, with_lines};
ghost use Rattle.entries.specs.Numbers.{apart};
ghost use Rattle.entries.specs.Contents.{reading, drafting, read_cards, draft_cards, opening};

use crate::journal::Journal;
use crate::rising::log_each;
use entries::{DraftEntry, ReadEntry};
use records::{Kind, Line, NO_WORDS};
use shelf::Shelf;
use stamps::{CardNo, TxNo};

// The line that ends a block.
fn done(number: TxNo) -> Line
    ensures { result ≡ line kinds.Done number.0 0 0 no_words }
{
    Line {
        kind: Kind::Done,
        transaction: number,
        card: CardNo(0),
        writer: TxNo(0),
        value: NO_WORDS,
    }
}

// The READs, the WRITs and a DONE of a commit. The number, the reads and the drafts are arguments of their own, since this crate does not know the table
// that they are kept in.
pub fn log_block<S: Shelf>(
    journal: &mut Journal,
    shelf: &S,
    number: TxNo,
    reads: &[ReadEntry],
    drafts: &[DraftEntry],
)
    requires read { apart room (read_cards (map reading reads.now)) ≡ true }
    requires drafted { apart room (draft_cards (map drafting drafts.now)) ≡ true }
    requires space { length reads.now + length drafts.now + 1 ≤ log_room (log_of journal.old) }
    ensures { (n : ℕ) → apart n (read_cards (map reading reads.now)) ≡ true → apart n (draft_cards (map drafting drafts.now)) ≡ true → log_of journal.new ≡ with_lines (log_of journal.old) (block (S.meaning shelf.now) (opening number.0 (map reading reads.now) (map drafting drafts.now)) n) }
{
    log_each(journal, shelf, number, reads);
    log_each(journal, shelf, number, drafts);
    journal.add(done(number));
}
