// The numbers, values and stamps that every other crate speaks in.
#![tactic(auto)]

pub mod numbers;
mod stamp;
pub mod value;

pub use numbers::{CardNo, TxNo, VersionNo};
pub use stamp::Stamp;
pub use value::Value;

#[cfg(test)]
mod tests;
