//! The verdicts of a book over all failure sets, with reuse between the sets of one prefix.
//!
//! Decides: for each prefix that is asked of, which failure sets have to be solved; for each property that
//! applies, the first permitted set in which it is broken. A set with a link that is idle in the case of the
//! set without it takes what is known of that set.
//! Stands on: `failure_sets` for the sets and their order, `property_book`, and `refine_rounds`, which solves the cases.
//! What their results imply, and which links are idle in them, the caller's reader says.
//! Promises: the verdicts of `specs/Verdicts.antt`, the number of cases and of solved cases, one tick for each solved
//! case, and none where the cases are too many. Not: that what is implied is true.
#![tactic(auto)]

mod counts;
mod laws;
mod marks;
mod reader;
mod refusal;
mod verdicts;
mod walk;
mod words;

pub use counts::cases;
pub use laws::{law_of_cases, law_of_no_idle_links, law_of_own_sets, law_of_representatives};
pub use reader::{CaseReader, Workers};
pub use refusal::CertifyRefusal;
pub use verdicts::verdicts_of;
