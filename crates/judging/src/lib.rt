//! What a change of configurations comes to: its networks, what is found in them, and the report.
//!
//! Decides: which of its two bundles and its book is refused first, that a book with too many cases in one of the
//! two networks is refused before anything is solved, and which property of the side after is the first without a
//! certificate.
//! Stands on: `bundle_reader` for networks, `property_book` for the book, `certify` for verdicts, `report_text` for
//! the report.
//! Promises: `read_inputs` and `inputs_of` give the inputs or the refusal of `specs/Inputs.antt`, and `judge` what
//! `specs/Judgements.antt` says of them, with as many ticks as cases were solved. A refusal is a value: its text is up
//! to whoever writes it.
#![tactic(auto)]

mod inputs;
mod judgements;
mod refusals;

pub use inputs::{Inputs, inputs_of, read_inputs};
pub use judgements::{Judgement, judge};
pub use refusals::{JudgeRefusal, NotJudged};
