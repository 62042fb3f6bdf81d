//! The verdicts of a book in a network: which properties are certified.
//!
//! Decides: nothing that the crates below have not decided. It has `case_walk` go over the cases, and reads their results by
//! `implication`. A case that differs from a solved one by links that are idle there is not solved again.
//! Stands on: those two, `refine_rounds`, `property_book`, and the crates below them; `outside` for the gate and the counter.
//! Promises: each verdict is the one of `specs/Verdicts.antt`, a certified property holds, whatever set of links that it
//! permits has failed, in every stable labelling, and as many ticks are made as cases were solved. Not: that a property
//! which is not certified is false.
#![tactic(auto)]

mod laws;
mod reader;
mod verdicts;

pub use case_walk::CertifyRefusal;
pub use implication::implied;
pub use laws::law_of_certificates;
pub use verdicts::{cases, certify};
