//! What the words of the command line mean.
//!
//! Decides: which words are which command, with which paths and numbers, and which are none. `clap` gives the words of a
//! command by their names; numbers are read here.
//! Stands on: `net_types` for texts and numbers, and `clap`.
//! Promises: for each list of words exactly the command of the table (`specs/Commands.antt`, `specs/Serving.antt`), or that
//! there was no memory.
#![tactic(auto)]

mod commands;
mod line;
mod numbers;
mod parses;
mod serving;

pub use commands::{Command, command_of};
pub use line::line_of;
pub use serving::{ServeWords, serving_of};
