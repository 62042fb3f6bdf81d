//! One conversation over HTTP with the review desk.
//!
//! Decides: which reply goes with what is asked, and what becomes of the desk. What is asked, `desk_requests`
//! decides, what becomes of a command `review_rules`, and the bytes of a reply `desk_replies`.
//! Stands on: these, `net_types`, `outside`, `doors`, `refusal_texts`, `desk_tables` and `desk_keeper`.
//! Promises: a conversation gets the answer of `specs/Answer.antt` to its bytes, or 503 where the keeper failed on
//! a new command that is accepted, or 507, with the desk as before; what was given where the door failed is a
//! beginning of it. Not: that a reply arrives.
#![tactic(auto)]

mod laws;
mod ruling;
mod serving;

pub use laws::{law_of_cuts, law_of_one_answer, law_of_repeats};
pub use serving::{Served, serve_one};
