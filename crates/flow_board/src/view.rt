//! What a seat knows, as words.

use std::collections::LinkedList;

/// What a seat knows of the words. No value of it is ever made: it stands in proofs alone.
pub enum View {
    /// The board's only seat, before the roof is named: the words at the start.
    Alone(LinkedList<u64>),
    /// The words at the start, the roof, and what the seat has raised itself.
    Live(LinkedList<u64>, LinkedList<u64>, LinkedList<u64>),
    /// The seat was joined to another. It knows nothing.
    Spent,
}
