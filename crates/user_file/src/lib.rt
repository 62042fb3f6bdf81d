//! Reads the file of users: who may ask the desk for what.
//!
//! Decides: which fields a user has, and which names, tokens and roles. What a role may do, `review_rules`
//! decides.
//! Stands on: `net_types`, `desk_tables`, `toml_fields` and `toml`.
//! Promises: for each file exactly its users, or its first refusal (`specs/Users.antt`).
#![tactic(auto)]

mod users;

pub use users::read_users;
