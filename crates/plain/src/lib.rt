// The judge by plain walks: it goes over all entries for each transaction, each READ and each WRIT. It promises what `history::judge` does, which
// follows links between the entries.
#![tactic(auto)]

mod every;
mod judge_file;

pub use judge_file::judge;
