//! Stored rows: whether tables that were kept are valid, and what a desk has to know of them.
//!
//! Decides: which row is the first that is not valid, which review is merged as which head, and how many
//! bytes are kept. What is done with the tables, `review_rules` decides.
//! Stands on: `net_types` and `desk_tables`. It goes once through each table.
//! Promises: each answer is the one of `specs/`, for all tables, and tables are valid exactly where no row
//! is bad.
#![tactic(auto)]

mod index;
mod laws;
mod rows;

pub use index::{bytes_of, index_of};
pub use laws::law_of_stored_rows;
pub use rows::{BadRow, first_bad_row};
