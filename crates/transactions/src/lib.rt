// What each call of the catalogue answers and leaves, as definitions, and the law that holds of them.
#![tactic(auto)]

pub mod event;
mod laws;
pub mod reading;
pub mod refusal;

pub use event::Event;
pub use laws::{
    abandon_keeps, account_is_isolated, cap_is_never_met, close_keeps, commit_elsewhere_keeps,
    commit_keeps, conflict_alone_ends, draft_keeps, journal_is_history, journal_is_taken,
    law_pins_answers, open_keeps, read_elsewhere_keeps, read_keeps, refused_set_up_keeps,
    runs_are_lawful, runs_are_plain, set_up_begins, shelf_is_told, stamps_are_vectors,
};
pub use reading::Reading;
pub use refusal::Refusal;
