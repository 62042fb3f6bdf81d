//! A sink: bytes are given to it.

ghost use Rattle.std.specs.Prelude.{◌≡◌, ◌≤◌, ℕ, List, Option, Some};
ghost use Rattle.outside.specs.Sink.{HasCause, Takes, Appends, AppendsAll};

/// A fault of the outside.
#[derive(Clone, Copy, PartialEq, Eq, Debug)]
pub struct Failed;

/// Bytes are given to it, piece by piece. A sink has a count of faults, and may tell the bytes that
/// it was given so far.
pub trait Sink {
    ghost faults: { Self → ℕ };

    ghost given: { Self → Option (List ℕ) };

    /// Takes the first bytes of a piece, at least one where there is one, and says how many.
    ///
    /// # Errors
    /// `Failed` only where the count of faults rose in this call. Then nothing was taken.
    fn give(&mut self, bytes: &[u8]) -> Result<usize, Failed>
        ensures kept { faults self.old ≤ faults self.new }
        ensures cause { HasCause (faults self.old) (faults self.new) result }
        ensures takes { Takes bytes.now result }
        ensures told { (b : List ℕ) → given self.old ≡ Some b → Appends b bytes.now result (given self.new) };
}

/// Gives a whole piece.
///
/// # Errors
/// `Failed` where a call failed before all was taken. The beginning that was taken before stays.
pub fn give_all<O: Sink>(out: &mut O, bytes: &[u8]) -> Result<(), Failed>
    ensures kept { O.faults out.old ≤ O.faults out.new }
    ensures cause { HasCause (O.faults out.old) (O.faults out.new) result }
    ensures told { (b : List ℕ) → O.given out.old ≡ Some b → AppendsAll b bytes.now result (O.given out.new) }
{
    let mut done = 0;
    while done < bytes.len() {
        done += out.give(&bytes[done..])?;
    }
    Ok(())
}
