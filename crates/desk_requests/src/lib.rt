//! What a conversation over HTTP asks of the review desk.
//!
//! Decides: where a head ends, which heads, paths, fields and bodies are a request, and which refusal comes
//! first where they are none. What the desk makes of a request, `review_rules` decides.
//! Stands on: `net_types`, `outside`, `doors`, `desk_tables` and `review_rules`, and on `httparse` and
//! `serde_json` for the grammars.
//! Promises: what is heard is what `specs/Asks.antt` says of the conversation's bytes, however a door cuts them;
//! each conversation asks for one thing. Not: who asks.
#![tactic(auto)]

mod bodies;
mod fields;
mod heads;
mod hearing;
mod laws;
mod numbers;
mod parsing;
mod paths;
mod plans;
mod refusals;
mod requests;

pub use hearing::hear;
pub use laws::{law_of_one_request, law_of_requests};
pub use refusals::HttpRefusal;
pub use requests::{Asked, Form, Heard, Path, Plan, Query};
