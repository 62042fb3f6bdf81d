//! The text of a report.
//!
//! Decides: the bytes of the report of a book on two networks, before and after a change.
//! Stands on: `net_types` and `property_book`.
//! Promises: the text is the one of `specs/Report.antt`, whatever was found. Not: that it was found rightly.
#![tactic(auto)]

mod texts;

pub use texts::{Side, report};
