//! What one FRRouting configuration file says of its router: its configuration, or why it is refused.
//!
//! Decides: what the lines of a file are, by which row of the line table each is taken (`specs/Table.antt`),
//! what each row does (`specs/Effects.antt`), and which line is refused, for which cause
//! (`specs/Reading.antt`). Its profile of FRR's files is this project's own.
//! Stands on: `net_types`, which says how an address, a number and a name are written, and `frr_policy`,
//! which reads the lines of lists and maps.
//! Promises: `read_router` answers the configuration or the refusal that Reading gives, for every text;
//! and a configuration keeps what building a network needs of it. Not: that a network can be built.
#![tactic(auto)]

mod bgp;
mod by_key;
mod by_name;
mod causes;
mod entries;
mod laws;
mod lines;
mod modes;
mod needs;
mod policy_lines;
mod reading;
mod rows;
mod state;
mod table;
mod values;

pub use laws::{law_of_lines, law_of_reading, law_of_states};
pub use reading::read_router;
