// The answers to the three questions that the judge is asked, from the entries of a file's records. The entries of a transaction, and the WRITs of
// a card, are come by in any listing.
#![tactic(auto)]

mod answering;
mod commits;
mod conflicts;
mod dependences;
mod listed;
mod marks;
mod searches;
mod snapshots;

pub use answering::judged_by;
