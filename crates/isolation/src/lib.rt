// What isolation asks of a history of transactions: definitions, and the theorems about them.
#![tactic(auto)]

mod laws;
mod needed;

pub use laws::{
    conflict_is_clash, fitting_is_consistent, lawful_is_isolated, newest_fit_is_newest,
    one_solution, rules_have_vectors, some_version_fits, steps_keep_law, vectors_decide,
};
pub use needed::{each_half_is_needed, frozen_is_older, short_stamps_miss};
