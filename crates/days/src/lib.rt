// A day in the catalogue on every make of shelf, as tests.
#![tactic(auto)]

#[cfg(test)]
mod script;
#[cfg(test)]
mod tests;
