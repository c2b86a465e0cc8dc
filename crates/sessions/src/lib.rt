// A session: a script of commands carried out on a shelf, and the law of all that is answered.
#![tactic(auto)]

pub mod answer;
pub mod command;
mod file;
mod memory;
mod session;
mod slips;
mod whole;

pub use answer::Answer;
pub use command::Command;
pub use file::{FileMemory, history_file};
pub use memory::SessionMemory;
pub use whole::run;
