//! The outside: where the files come from, where the reports go, and where workers pass.
//!
//! Decides: what is known of every shelf of files and of every sink of bytes, and what the ones in
//! memory answer. A shelf or a sink counts its faults, and may tell what it holds. A gate tells nothing.
//! Stands on: `net_types` alone.
//! Promises: a call fails only where the count of faults rose in it, what is told is so, the objects in
//! memory answer exactly, and a sink over a writer tells what the writer tells. Not: that a real folder
//! or the real output holds what its calls say.
#![tactic(auto)]

mod calls;
mod dir_shelf;
mod entries;
mod gate;
mod mem_shelf;
mod mem_sink;
mod out_sink;
mod paths;
mod shelf;
mod sink;
mod steps;

pub use calls::Calls;
pub use dir_shelf::DirShelf;
pub use gate::{Gate, OpenGate};
pub use mem_shelf::MemShelf;
pub use mem_sink::MemSink;
pub use out_sink::OutSink;
pub use shelf::{Shelf, ShelfError};
pub use sink::{Failed, Sink, give_all};
pub use steps::Steps;
