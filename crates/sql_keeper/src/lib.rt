//! The keeper of the desk's tables in a database of SQLite.
//!
//! Decides: the tables and their columns, which statements a change is, in which order rows are read, and what is a
//! fault. What the tables mean, `desk_tables` decides.
//! Stands on: `net_types`, `desk_tables`, `review_rules`, `desk_keeper`, and the toolchain's `sqlite`.
//! Promises: it is safe, and a call fails only where the count of faults rose in it, or without memory. Not: what the
//! database holds; that is tested.
#![tactic(auto)]

mod adopted;
mod faults;
mod filed;
mod loading;
mod putting;
mod tables;

pub use adopted::AdoptedKeeper;
pub use filed::SqlKeeper;
