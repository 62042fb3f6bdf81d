//! One conversation of a door in memory.

use net_types::{List, NoMemory};
use std::alloc::Global;
use std::marker::Model;

/// A conversation that is still to come: its input, and the room for what is given to it.
#[derive(Debug, Drop)]
pub struct Waiting {
    input: List<u8>,
    room: usize,
    given: Vec<u8>,
}

impl Model for Waiting {
    ghost use Rattle.std.specs.Prelude.{◌≡◌, ◌≤◌, vec_len, vec_capacity};
    ghost use Rattle.doors.specs.Memory.{WaitingValue};

    ghost Value = { WaitingValue };

    ghost view = { λ it. record { input = it.input; room = it.room } };

    ghost invariant = { λ it. (vec_len it.given ≡ 0) × (it.room ≤ vec_capacity it.given) };
}

impl Waiting {
    ghost use Rattle.std.specs.Prelude.{◌≡◌, IfOk};
    ghost use Rattle.doors.specs.Memory.{waiting, beginning};

    /// The conversation of an input with so much room, the memory for which is taken here.
    pub fn new(alloc: Global, input: List<u8>, room: usize) -> Result<Waiting, NoMemory>
        ensures { IfOk result (λ it. it ≡ waiting room input) }
    {
        Ok(Waiting {
            input,
            room,
            given: Vec::with_capacity(alloc, room)?,
        })
    }

    /// The conversation, begun.
    pub fn begin(self) -> MemTalk
        ensures { result ≡ beginning self }
    {
        let Waiting { input, room, given } = self;
        MemTalk {
            input,
            at: 0,
            room,
            given,
        }
    }
}

/// A conversation that is begun: what is left of its input, and what was given to it.
#[derive(Debug, Drop)]
pub struct MemTalk {
    input: List<u8>,
    at: usize,
    room: usize,
    given: Vec<u8>,
}

impl Model for MemTalk {
    ghost use Rattle.std.specs.Prelude.{◌≤◌, length, drop, vec_len, vec_capacity};
    ghost use Rattle.doors.specs.Memory.{TalkValue};

    ghost Value = { TalkValue };

    ghost view = { λ it. record { left = drop it.at it.input; given = it.given.items; room = it.room } };

    ghost invariant = { λ it. (it.at ≤ length it.input) × (vec_len it.given ≤ it.room) × (it.room ≤ vec_capacity it.given) };
}

impl MemTalk {
    ghost use Rattle.std.specs.Prelude.{◌≡◌, ◌++◌, take, drop, length, min, Some};
    ghost use Rattle.doors.specs.Memory.{without, fitting, with_piece, after_piece, put_front};

    /// Takes the next bytes of the input into a room, and says how many.
    pub fn take(&mut self, room: &mut [u8]) -> usize
        ensures count { result ≡ min (length room.old) (length self.old.left) }
        ensures room { room.new ≡ put_front room.old (Some self.old) }
        ensures after { self.new ≡ without result self.old }
    {
        let left = self.input.len() - self.at;
        let taken = left.min(room.len());
        room[..taken].copy_from_slice(&self.input.as_slice()[self.at..self.at + taken]);
        self.at += taken;
        taken
    }

    /// Gives the bytes of a piece for which there is room, and says how many. None where a piece that has bytes
    /// finds no room at all.
    pub fn give(&mut self, bytes: &[u8]) -> Option<usize>
        ensures count { result ≡ fitting self.old bytes.now }
        ensures after { self.new ≡ after_piece self.old bytes.now }
    {
        let left = self.room - self.given.len();
        if left == 0 && !bytes.is_empty() {
            return None;
        }
        let taken = bytes.len().min(left);
        self.given.extend_from_slice(&bytes[..taken]).unwrap();
        Some(taken)
    }

    /// What was given.
    pub fn given(&self) -> &[u8]
        ensures { result.now ≡ self.now.given }
    {
        self.given.as_slice()
    }

    /// What was given, once the conversation is over.
    pub fn into_given(self) -> List<u8>
        ensures { result ≡ self.given }
    {
        List::from_vec(self.given)
    }
}
