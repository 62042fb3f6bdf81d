//! Readings from a door.

ghost use Rattle.std.specs.Prelude.{◌≡◌, ◌≤◌, ◌<◌, ◌+◌, ◌++◌, ℕ, List, Some, IfOk, IsTrue, vec_len};
ghost use Rattle.doors.specs.Door.{Told, TakesMore};
ghost use Rattle.doors.specs.Stop.{HasReason};
ghost use Rattle.doors.specs.Reading.{IsRead, ReadsTo};

use crate::Door;
use std::alloc::Global;

// The most bytes that are taken in one call.
const ROOM: usize = 1024;

/// Why a reading ended.
#[derive(Clone, Copy, PartialEq, Eq, Debug)]
pub enum Stop {
    /// The door failed.
    Failed,
    /// There was no memory.
    NoMemory,
}

/// Takes at most `most` bytes, and puts them behind those that are there. It says how many: 0 only at the input's end.
///
/// # Errors
/// `Failed` where the door failed, only where its count of faults rose in this call.
pub fn take_more<D: Door>(door: &mut D, bytes: &mut Vec<u8>, most: usize) -> Result<usize, Stop>
    requires { 0 < most }
    ensures kept { D.faults door.old ≤ D.faults door.new }
    ensures cause { HasReason (D.faults door.old) (D.faults door.new) result }
    ensures opened { D.is_open door.new ≡ D.is_open door.old }
    ensures within { IfOk result (λ n. (n ≤ most) × (vec_len bytes.new ≡ vec_len bytes.old + n)) }
    ensures grows { IfOk result (λ _. (more : List ℕ) × (bytes.new.items ≡ bytes.old.items ++ more)) }
    ensures told { (t : Told) → D.told door.old ≡ Some t → TakesMore t bytes.old.items result bytes.new.items (D.told door.new) }
{
    let mut room = [0u8; ROOM];
    let size = most.min(ROOM);
    let taken = match door.take(&mut room[..size]) {
        Ok(taken) => taken,
        Err(_) => return Err(Stop::Failed),
    };
    match bytes.extend_from_slice(&room[..taken]) {
        Ok(()) => Ok(taken),
        Err(_) => Err(Stop::NoMemory),
    }
}

/// Takes until `want` bytes are there, or the input ends. It says whether they are there.
///
/// # Errors
/// As `take_more`.
pub fn read_to<D: Door>(door: &mut D, bytes: &mut Vec<u8>, want: usize) -> Result<bool, Stop>
    ensures kept { D.faults door.old ≤ D.faults door.new }
    ensures cause { HasReason (D.faults door.old) (D.faults door.new) result }
    ensures opened { D.is_open door.new ≡ D.is_open door.old }
    ensures enough { IfOk result (λ full. IsTrue full → want ≤ vec_len bytes.new) }
    ensures told { (t : Told) → IsRead t bytes.old.items (D.told door.old) → ReadsTo t want result bytes.new.items (D.told door.new) }
{
    while bytes.len() < want {
        let left = want - bytes.len();
        match take_more(door, bytes, left) {
            Ok(taken) => {
                if taken == 0 {
                    return Ok(false);
                }
            }
            Err(stop) => return Err(stop),
        }
    }
    Ok(true)
}
