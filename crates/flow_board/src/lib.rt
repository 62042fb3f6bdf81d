//! The shared board: a row for each router, which several threads raise at once by single atomic steps on words.
//!
//! Decides: what a thread may rely on while others raise rows too. Each thread has a seat, and the seat knows the rows at
//! the start, the roof (rows that no running code holds, and that no raise passes) and what the seat has raised itself.
//! Stands on: `abstract_route` for rows, `net_types` for lists, and the kit's `atomic_table` for the steps on words. Memory
//! is taken by `open` and `close` alone. No call waits.
//! Promises: what a seat reads, the old rows that its raises meet, and the rows at the end are at or above the start and
//! the seat's own raises, and at or below the roof, in any order of the threads' steps; seats that are joined have the
//! raises of both. A row is read word by word, so another thread's raise may be met in part. Not: that a seat meets what
//! another has raised before the two are joined, or that any thread gets on.
#![tactic(auto)]

mod board;
mod laws;
mod rows;
mod view;
mod words;

pub use board::{Board, Seat};
pub use laws::law_of_raises;
pub use words::Roof;
