//! A sink in memory.

ghost use Rattle.std.specs.Prelude.{◌≡◌, IfOk, []};

use crate::{Calls, Failed, Sink};
use net_types::NoMemory;
use std::alloc::Global;
use std::marker::Model;

/// A sink in memory, with room for some bytes. Its calls are counted from 1.
#[derive(Debug, Drop)]
pub struct MemSink {
    calls: Calls,
    room: usize,
    given: Vec<u8>,
}

impl Model for MemSink {
    ghost use Rattle.std.specs.Prelude.{◌≤◌, vec_len, vec_capacity};
    ghost use Rattle.outside.specs.Memory.{SinkValue};

    ghost Value = { SinkValue };

    ghost view = { λ it. record { calls = it.calls; room = it.room; given = it.given.items } };

    ghost invariant = { λ it. (vec_len it.given ≤ it.room) × (it.room ≤ vec_capacity it.given) };
}

impl MemSink {
    ghost use Rattle.std.specs.Prelude.{◌≡◌, IfOk, [], Some};

    /// A sink with room for `content` bytes, the memory for which is taken here, of which the calls
    /// with the numbers in `failing` fail.
    pub fn new(alloc: Global, content: u64, failing: &[u64]) -> Result<MemSink, NoMemory>
        ensures { IfOk result (λ sink. sink ≡ record { calls = record { next = Some 1; failing = failing.now; faults = 0 }; room = content; given = [] }) }
    {
        let room = content as usize;
        Ok(MemSink {
            calls: Calls::new(alloc, failing)?,
            room,
            given: Vec::with_capacity(alloc, room)?,
        })
    }

    /// The bytes that were given.
    pub fn bytes(&self) -> &[u8]
        ensures { result.now ≡ self.now.given }
    {
        self.given.as_slice()
    }
}

impl Sink for MemSink {
    ghost use Rattle.std.specs.Prelude.{◌≡◌, ◌≤◌, ℕ, List, Some};
    ghost use Rattle.std.specs.Result.{result_ok};
    ghost use Rattle.outside.specs.Sink.{HasCause, Takes, Appends};
    ghost use Rattle.outside.specs.Memory.{taken, after_give};

    ghost faults = { λ sink. sink.calls.faults };

    ghost given = { λ sink. Some sink.given };

    /// Takes what there is room for. It fails where the call is listed, and where a piece that has
    /// bytes finds no room at all.
    fn give(&mut self, bytes: &[u8]) -> Result<usize, Failed>
        ensures answer { result_ok result ≡ taken self.old bytes.now }
        ensures after { self.new ≡ after_give self.old bytes.now }
        ensures kept { self.old.calls.faults ≤ self.new.calls.faults }
        ensures cause { HasCause self.old.calls.faults self.new.calls.faults result }
        ensures takes { Takes bytes.now result }
        ensures told { (b : List ℕ) → Some self.old.given ≡ Some b → Appends b bytes.now result (Some self.new.given) }
    {
        self.calls.begin()?;
        let left = self.room - self.given.len();
        if left == 0 && !bytes.is_empty() {
            self.calls.rise();
            return Err(Failed);
        }
        let taken = bytes.len().min(left);
        self.given.extend_from_slice(&bytes[..taken]).unwrap();
        Ok(taken)
    }
}
