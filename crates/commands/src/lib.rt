//! What the program does with its words.
//!
//! Decides: in which order files are read and judged, the exit status, the bytes of what `stable` answers, and the line of
//! each refusal, which is a value until it is written.
//! Stands on: `command_words` for what the words ask, `outside` for files, output, gates and the counter of solved cases,
//! `refusal_texts` for the words of refusals, `judging` for `check` and `gen`, `ladder` for what `gen` makes,
//! `bundle_reader`, `label_file`, `ospf_paths` and `concrete_algebra` for `stable`, and definitions and lemmas of `topology`.
//! Promises: the clauses of `run`. Not: anything of real files but the causes of its statuses.
#![tactic(auto)]

mod answer;
mod check;
mod folder;
mod ladders;
mod refusals;
mod reports;
mod runs;
mod stable;
mod status;
mod stop;

pub use folder::read_file;
pub use refusals::{Bundle, Form, Refusal};
pub use runs::{refuse, run, write};
pub use status::Status;
pub use stop::Stop;
