//! The top call: what the program does with all of its words.
//!
//! Decides: which words start the review desk, in which order its users, its keeper and its door are opened, and what
//! is written when it ends.
//! Stands on: `commands` for the other commands, `user_file` for the users, `desk_keeper` for the tables, `desk_judge`
//! for what the desk asks, `serving` for the conversations.
//! Promises: the clauses of `run`, and that what was merged holds (`specs/Laws.antt`). Not: anything of real files, sockets
//! and databases but the causes of the statuses.
#![tactic(auto)]

mod desk;
mod laws;
mod runs;

pub use commands::Status;
pub use laws::law_of_merged_reviews;
pub use runs::run;
