//! A door of the tests, over one in memory.

ghost use Rattle.std.specs.Prelude.{◌≡◌, ◌≤◌, IfOk, Some, length};
ghost use Rattle.outside.specs.Sink.{HasCause};
ghost use Rattle.doors.specs.Door.{Told, Reads};
ghost use Rattle.doors.specs.Memory.{told_by};

use doors::{Door, MemDoor};
use net_types::{List, NoMemory};
use outside::Failed;
use std::alloc::Global;

// The room in bytes for what is given to one conversation.
const ROOM: u64 = 4096;

/// How much of each room that `take` gets is lent to the door in memory.
#[derive(Clone, Copy)]
pub enum Lent {
    /// All of it.
    Whole,
    /// Its first byte.
    FirstByte,
}

/// A door in memory, to which the rooms of its takes are lent.
#[derive(Drop)]
pub struct LendingDoor {
    door: MemDoor,
    lent: Lent,
    begun: usize,
}

impl LendingDoor {
    /// A door with a conversation for each input, of which the calls with these numbers fail.
    pub fn new(
        alloc: Global,
        inputs: List<List<u8>>,
        failing: &[u64],
        lent: Lent,
    ) -> Result<LendingDoor, NoMemory> {
        Ok(LendingDoor {
            door: MemDoor::new(alloc, (inputs, ROOM), failing)?,
            lent,
            begun: 0,
        })
    }

    /// What was given to the conversation that was begun last.
    pub fn given(&self) -> &[u8] {
        self.door.given(self.begun.saturating_sub(1))
    }
}

// Takes into the first byte of a room.
#[tactic(auto, using(crate::proofs::DoorLemmas::lent))]
fn take_first(door: &mut MemDoor, room: &mut [u8]) -> Result<usize, Failed>
    ensures kept { door.old.calls.faults ≤ door.new.calls.faults }
    ensures cause { HasCause door.old.calls.faults door.new.calls.faults result }
    ensures opened { door.new.is_open ≡ door.old.is_open }
    ensures within { IfOk result (λ n. n ≤ length room.new) }
    ensures told { (t : Told) → Some (told_by door.old) ≡ Some t → Reads t room.new result (Some (told_by door.new)) }
{
    let lent = room.len().min(1);
    door.take(&mut room[..lent])
}

impl Door for LendingDoor {
    ghost use Rattle.std.specs.Prelude.{Some};
    ghost use Rattle.doors.specs.Memory.{told_by};

    ghost faults = { λ d. d.door.calls.faults };

    ghost is_open = { λ d. d.door.is_open };

    ghost told = { λ d. Some (told_by d.door) };

    fn open(&mut self, port: u16) -> Result<(), Failed> {
        self.door.open(port)
    }

    fn next(&mut self) -> Result<(), Failed> {
        self.door.next()?;
        self.begun = self.begun.saturating_add(1);
        Ok(())
    }

    fn take(&mut self, room: &mut [u8]) -> Result<usize, Failed> {
        match self.lent {
            Lent::Whole => self.door.take(room),
            Lent::FirstByte => take_first(&mut self.door, room),
        }
    }

    fn give(&mut self, bytes: &[u8]) -> Result<usize, Failed> {
        self.door.give(bytes)
    }

    fn end(&mut self) {
        self.door.end();
    }
}
