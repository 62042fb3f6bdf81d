//! Rows: what is known of the routes that may come to a router, before it is known which one does.
//!
//! Decides: the order of rows and their join, which routes a row speaks of, and by a test that suffices, whether
//! every route of one candidate is better than every route of another. What a policy makes of a row, other crates
//! decide.
//! Stands on: `net_types` alone. No call takes memory.
//! Promises: the join is the least row above both; each test answers exactly its definition in `specs/`; and
//! the laws, stated in `specs/Laws.antt`, say that rows are ordered, that rising chains of them end, which rows
//! have a route that fits, that it fits each row above, and that a candidate that beats another has better
//! routes alone, and beats it wherever its worst route is better than the other's best. Not: that any router
//! behaves so.
#![tactic(auto)]

mod candidates;
mod fitting;
mod laws;
mod rows;

pub use candidates::{Candidate, beats};
pub use fitting::contains;
pub use laws::{
    bottom_value, law_of_beating, law_of_bottom, law_of_carried_rows, law_of_containing,
    law_of_exact_beating, law_of_exact_rows, law_of_fitting, law_of_inhabited_rows, law_of_joins,
    law_of_ranks,
};
pub use rows::{BOTTOM, Range, Row, carried, is_below, is_inhabited, join};
