// What the programs that take a history file share: how the file is read, the line that the judge prints of it, and the whole way from a reader to a
// writer.
#![tactic(auto)]

pub mod line;
pub mod reading;
pub mod streams;

pub use line::{JudgeLine, judge_line};
pub use reading::read_file;
pub use streams::judge_stream;

#[cfg(test)]
mod tests;
