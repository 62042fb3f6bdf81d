//! The judge of the review desk, as the program runs it.
//!
//! Decides: how the desk is answered of bundles, of property files and of runs: with what `judging` finds, or with its
//! first refusal.
//! Stands on: `review_rules` for the question, `judging`, `bundle_reader` and `property_book` for the answer, `outside` for
//! the gate and the counter, and definitions and lemmas of the crates below these.
//! Promises: each answer but want of memory is the one of `specs/Judged.antt`, a function of the files and the text alone,
//! for every number of workers; a verdict is a function of the network (`specs/Verdict.antt`), and where a run says that
//! no property lacks a certificate, each property of the book holds after the change (`specs/Laws.antt`). Not: that there
//! is memory.
#![tactic(auto)]

mod answers;
mod laws;
mod run_judge;

pub use laws::{law_of_judged_runs, law_of_meanings, law_of_verdicts};
pub use run_judge::RunJudge;
