//! Rounds: what surely is not held is dropped, round by round, until nothing more is.
//!
//! Decides: the candidates that surely are there, what they beat, what is alive after the last round, which links are
//! idle, and with all this the result of a case: a prefix with a set of failed links.
//! Stands on: `possible_fixpoint`, `certain_fixpoint`, and the crates below them; `outside` for the gate and the counter.
//! Promises: a result is the one of `specs/Results.antt`, each call makes one tick, and in every stable labelling each
//! label is in the row of its router and came by what is alive, each certain router holds a route, and what a round
//! dropped is held nowhere. Where an idle link fails too, the result stays the same. The laws of `specs/Rounds.antt`,
//! `specs/Steps.antt`, `specs/Results.antt` and `specs/Reuse.antt` say why.
//! Not: that a stable labelling exists.
#![tactic(auto)]

mod arrivals;
mod beating;
mod dropping;
mod idle;
mod laws;
mod rounds;
mod solving;

pub use laws::{law_of_idle_links, law_of_results, law_of_reuse, law_of_rounds, law_of_steps};
pub use solving::{CaseResult, solve_case};
