//! The fields of a TOML file: what stands at a key of a table, and what an array of tables gives.
//!
//! Decides: what is a text, a host, a prefix, a number, an array or a table at a key, which keys a table
//! may have, what the tables of an array are, and what is no TOML file at all. Which fields a file has,
//! its own reader decides.
//! Stands on: `net_types` and `toml`.
//! Promises: each answer is the one of `specs/`, for every table and every text.
#![tactic(auto)]

mod documents;
mod fields;
mod tables;

pub use documents::document;
pub use fields::{array_at, has_only, host_at, number_at, prefix_at, text_at, value_at, within};
pub use tables::tables_at;
