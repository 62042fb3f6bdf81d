//! The replies of the review desk over HTTP, byte by byte.
//!
//! Decides: the status line, the fields and the body of each reply, the words of each refusal, and what is told
//! of the head and of a review. Which reply goes with a request, `review_rules` decides.
//! Stands on: `net_types`, `outside`, `doors`, `refusal_texts`, `desk_tables`, `review_rules` and
//! `desk_requests`, on `http` for the phrases, and on `serde_json` for the texts in JSON.
//! Promises: each body is the one of `specs/`, and each reply is given whole, or up to where the door failed. A
//! reply and the bodies of refusals before the rules take no memory. Not: that a reply arrives.
#![tactic(auto)]

mod bodies;
mod giving;
mod laws;
mod refusals;
mod rules;
mod views;

pub use giving::{Media, give_reply};
pub use laws::{law_of_names, law_of_phrases};
pub use refusals::{http_body, http_code, memory_body, store_body};
pub use rules::{rule_body, rule_code};
pub use views::{head_body, review_body};
