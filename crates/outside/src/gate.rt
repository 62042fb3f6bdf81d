//! A gate: where workers pass before each of their turns.

/// Where a worker passes before each of its turns. It returns, and changes nothing that a contract sees. Workers are
/// numbered from 1, and so are the turns of each.
pub trait Gate {
    /// A worker passes before a turn.
    fn pass(&self, worker: u8, turn: u64);
}

/// A gate that holds nobody.
#[derive(Clone, Copy, Debug)]
pub struct OpenGate;

impl Gate for OpenGate {
    fn pass(&self, worker: u8, turn: u64) {}
}
