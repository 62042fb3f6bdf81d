//! The desk over a keeper of its tables.
//!
//! Decides: what is asked of every keeper, and how a request is performed over one. What is decided on a
//! request, `review_rules` decides.
//! Stands on: `net_types`, `outside`, `desk_tables`, `stored_rows` and `review_rules`.
//! Promises: desk and told tables agree after every call, an accepted request leaves the machine's tables in
//! both, and after a refusal, a fault and want of memory both are as before (`specs/Keeping.antt`).
//! Not: that a keeper keeps what it takes once the program has ended.
#![tactic(auto)]

mod copies;
mod keeper;
mod laws;
mod making;
mod mem_keeper;
mod puts;
mod store;
mod tables;

pub use keeper::{Keeper, KeeperError};
pub use laws::law_of_order;
pub use mem_keeper::MemKeeper;
pub use store::{DeskStore, Performed, StartRefusal};
