//! Conversations with the review desk, one after the other.
//!
//! Decides: that a conversation that failed ends itself alone, and that a door that begins no other ends them all.
//! Stands on: `http_desk` for each of them, `doors`, `desk_keeper` and `review_rules`; that each command which is asked for
//! is sound is proved over `json` and `serde_json`.
//! Promises: `serve_all` serves as many as it is told, each from the state that the one before left; what is given to
//! each is that of `http_desk`. Conversations that ask again for what was accepted change nothing, and get the reply
//! of the first time, or 507. Not: how long one takes.
#![tactic(auto)]

mod laws;
mod serving;

pub use laws::{law_of_accepted_commands, law_of_calm_turns, law_of_repeats, law_of_turns};
pub use serving::serve_all;
