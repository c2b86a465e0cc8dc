// The theorems about the calls. Each function does nothing: its contract is a theorem, so that the check asks for its proof.
ghost use Rattle.transactions.specs.Theorems.{SetUpBegins, OpenKeeps, ReadKeeps, DraftKeeps};
ghost use Rattle.transactions.specs.Theorems.{CommitKeeps, AbandonKeeps, CloseKeeps, StampsAreVectors, JournalIsHistory};
ghost use Rattle.transactions.specs.Theorems.{LawPinsAnswers, ShelfIsTold, JournalIsTaken, AccountIsIsolated};
ghost use Rattle.transactions.specs.Theorems.{RunsAreLawful, RunsArePlain};
ghost use Rattle.transactions.specs.Theorems.{SetUpRefusedKeeps, ReadElsewhereKeeps, CommitElsewhereKeeps};
ghost use Rattle.transactions.specs.Theorems.{ConflictAloneEnds, CapIsNeverMet};

// A granted set-up begins an account, with the shelf's cards and nothing in it.
pub fn set_up_begins()
    ensures { SetUpBegins }
{}

/// A refused set-up, with any shelf, leaves what is watched.
pub fn refused_set_up_keeps()
    ensures { SetUpRefusedKeeps }
{}

/// A read that is refused with a shelf of another set-up leaves what is watched with its own.
pub fn read_elsewhere_keeps()
    ensures { ReadElsewhereKeeps }
{}

/// A commit that is refused with a shelf of another set-up leaves what is watched with its own, but that a conflict ends the
/// transaction.
pub fn commit_elsewhere_keeps()
    ensures { CommitElsewhereKeeps }
{}

/// Of all refusals of a commit a conflict alone ends the transaction.
pub fn conflict_alone_ends()
    ensures { ConflictAloneEnds }
{}

/// The counts of a granted commit's stamp are at most 65,535, where no count is made to stop.
pub fn cap_is_never_met()
    ensures { CapIsNeverMet }
{}

// An open gives the next number, and the account goes on.
pub fn open_keeps()
    ensures { OpenKeeps }
{}

// A read obeys the law of snapshots, and the account goes on.
pub fn read_keeps()
    ensures { ReadKeeps }
{}

// A draft obeys its law, and the account goes on.
pub fn draft_keeps()
    ensures { DraftKeeps }
{}

// A commit obeys the law of conflicts, and the account goes on.
pub fn commit_keeps()
    ensures { CommitKeeps }
{}

// An abandon ends an open transaction, and the account goes on.
pub fn abandon_keeps()
    ensures { AbandonKeeps }
{}

// After a close the account goes on, with nobody open.
pub fn close_keeps()
    ensures { CloseKeeps }
{}

// The law leaves a read, a draft and an abandon one answer.
pub fn law_pins_answers()
    ensures { LawPinsAnswers }
{}

// The shelf holds the account's versions, each with its words and writer.
pub fn shelf_is_told()
    ensures { ShelfIsTold }
{}

// The shelf's stamps satisfy the equations of dependence vectors over the account, and nothing else does.
pub fn stamps_are_vectors()
    ensures { StampsAreVectors }
{}

// The journal's lines obey the rules of a history file, its reads are of committed versions, its snapshots are consistent and no two
// independent committed transactions wrote one card.
pub fn journal_is_history()
    ensures { JournalIsHistory }
{}

// A file whose records read as the journal's lines is taken by the judge as those lines.
pub fn journal_is_taken()
    ensures { JournalIsTaken }
{}

// At any time every snapshot is consistent and of committed versions, and no two independent committed transactions wrote one card.
pub fn account_is_isolated()
    ensures { AccountIsIsolated }
{}

// From a granted set-up on, any calls in any order, set-ups and calls with other shelves among them, make a lawful run, over the account
// folded from the calls and their answers alone.
pub fn runs_are_lawful()
    ensures { RunsAreLawful }
{}

// In a lawful run two reads of a card by one transaction answer one version, a read answers the transaction's own last draft, and
// granted opens are numbered from 1, each since the last granted set-up.
pub fn runs_are_plain()
    ensures { RunsArePlain }
{}
