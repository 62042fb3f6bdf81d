//! The review machine: who may submit, certify, approve, merge and withdraw what, and when.
//!
//! Decides: the rules of each command in their order, what is asked of the judge before them, what an
//! accepted request changes, and its reply. Where the tables are kept, the keeper decides.
//! Stands on: `net_types`, `desk_tables` and `stored_rows`. No request walks a whole table.
//! Promises: each decision, change and answer is the one of `specs/`, for every desk and request; a merge
//! is accepted exactly where it has all that it asks for, and repeats change nothing and get the reply of
//! the first time (`specs/Laws.antt`).
//! Not: that a judge is right.
#![tactic(auto)]

mod asking;
mod changes;
mod deciding;
mod desk;
mod judge;
mod laws;
mod replies;
mod requests;
mod restoring;
mod rules;
mod taking;

pub use asking::ask;
pub use changes::{Change, ChangeKind, change_of};
pub use deciding::{asks, decide};
pub use desk::Desk;
pub use judge::Judge;
pub use laws::{
    law_of_decisions, law_of_kept_commands, law_of_kept_replies, law_of_merges, law_of_repeats,
    law_of_validity,
};
pub use requests::{
    Ask, BundleSide, Command, Decision, JudgeAnswer, Lack, PolicyFault, Request, Rule,
};
pub use restoring::{RestoreRefusal, restore};
