// Work for the benchmarks: each export does a whole piece of work and answers a checksum, so that a program in plain Rust
// that does the same can be compared with it. Nothing is promised of a checksum; what is called has its own contracts.
#![tactic(auto)]

mod cards;
mod desk;
mod dice;
pub mod editing;
pub mod files;
mod long_reader;
mod makes;
pub mod store;
