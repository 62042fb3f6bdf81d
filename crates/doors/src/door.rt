//! A door.

ghost use Rattle.std.specs.Prelude.{◌≡◌, ◌≤◌, ℕ, Bool, Option, Some, IsTrue, IfOk, length, is_ok};
ghost use Rattle.outside.specs.Sink.{HasCause, Takes};
ghost use Rattle.doors.specs.Door.{Told, Opens, Nexts, Reads, Gives, GivesAll, ending};

use outside::Failed;

/// Conversations come through it, one after the other. A door has a count of faults, knows whether it is open,
/// and may tell its content: the port last opened, the conversation that is begun, and those before and behind it.
pub trait Door {
    ghost faults: { Self → ℕ };

    ghost is_open: { Self → Bool };

    ghost told: { Self → Option Told };

    /// Opens the door at a port. It is open afterwards exactly where this is `Ok`.
    ///
    /// # Errors
    /// `Failed` only where the count of faults rose in this call.
    fn open(&mut self, port: u16) -> Result<(), Failed>
        ensures kept { faults self.old ≤ faults self.new }
        ensures cause { HasCause (faults self.old) (faults self.new) result }
        ensures opened { is_open self.new ≡ is_ok result }
        ensures told { (t : Told) → told self.old ≡ Some t → Opens t port result (told self.new) };

    /// Ends the conversation that is begun, if any, and begins the next one.
    ///
    /// # Errors
    /// `Failed` only where the count of faults rose in this call; so it is where there is no conversation left.
    fn next(&mut self) -> Result<(), Failed>
        requires { IsTrue (is_open self.old) }
        ensures kept { faults self.old ≤ faults self.new }
        ensures cause { HasCause (faults self.old) (faults self.new) result }
        ensures opened { is_open self.new ≡ is_open self.old }
        ensures told { (t : Told) → told self.old ≡ Some t → Nexts t result (told self.new) };

    /// Takes the next bytes of the conversation's input, and says how many. It is 0 only at the input's end.
    ///
    /// # Errors
    /// `Failed` only where the count of faults rose in this call.
    fn take(&mut self, room: &mut [u8]) -> Result<usize, Failed>
        ensures kept { faults self.old ≤ faults self.new }
        ensures cause { HasCause (faults self.old) (faults self.new) result }
        ensures opened { is_open self.new ≡ is_open self.old }
        ensures within { IfOk result (λ n. n ≤ length room.new) }
        ensures told { (t : Told) → told self.old ≡ Some t → Reads t room.new result (told self.new) };

    /// Gives the first bytes of a piece to the conversation, at least one where there is one, and says how many.
    ///
    /// # Errors
    /// `Failed` only where the count of faults rose in this call. Then nothing was given.
    fn give(&mut self, bytes: &[u8]) -> Result<usize, Failed>
        ensures kept { faults self.old ≤ faults self.new }
        ensures cause { HasCause (faults self.old) (faults self.new) result }
        ensures opened { is_open self.new ≡ is_open self.old }
        ensures takes { Takes bytes.now result }
        ensures told { (t : Told) → told self.old ≡ Some t → Gives t bytes.now result (told self.new) };

    /// Ends the conversation that is begun, if any.
    fn end(&mut self)
        ensures faults { faults self.new ≡ faults self.old }
        ensures opened { is_open self.new ≡ is_open self.old }
        ensures told { (t : Told) → told self.old ≡ Some t → told self.new ≡ Some (ending t) };
}

/// Gives a whole piece.
///
/// # Errors
/// `Failed` where a call failed before all was given. The beginning that was given before stays.
pub fn give_all<D: Door>(door: &mut D, bytes: &[u8]) -> Result<(), Failed>
    ensures kept { D.faults door.old ≤ D.faults door.new }
    ensures cause { HasCause (D.faults door.old) (D.faults door.new) result }
    ensures opened { D.is_open door.new ≡ D.is_open door.old }
    ensures told { (t : Told) → D.told door.old ≡ Some t → GivesAll t bytes.now result (D.told door.new) }
{
    let mut done = 0;
    while done < bytes.len() {
        done += door.give(&bytes[done..])?;
    }
    Ok(())
}
