//! A door in memory.

ghost use Rattle.std.specs.Prelude.{◌≡◌, ◌≤◌, ◌+◌, IfOk, None, map, vec_len, vec_capacity};
ghost use Rattle.doors.specs.Memory.{waiting, count_begun, all_given};

use crate::{Door, MemTalk, Waiting};
use net_types::{List, NoMemory};
use outside::{Calls, Failed};
use std::alloc::Global;
use std::marker::Model;
use std::vec::IntoIter;

/// A door in memory, whose conversations come in order. Its calls but `end` are counted from 1.
#[derive(Drop)]
pub struct MemDoor {
    calls: Calls,
    port: Option<u16>,
    opened: bool,
    talk: Option<MemTalk>,
    ended: Vec<List<u8>>,
    coming: IntoIter<Waiting>,
}

impl Model for MemDoor {
    ghost use Rattle.std.specs.Prelude.{◌≡◌, ◌≤◌, ◌+◌, length, vec_len, vec_capacity};
    ghost use Rattle.std.specs.Vec.Iter.{into_iter_items, into_iter_len};
    ghost use Rattle.doors.specs.Memory.{DoorValue, count_begun};

    ghost Value = { DoorValue };

    ghost view = { λ it. record { calls = it.calls; port = it.port; is_open = it.opened; talk = it.talk; ended = it.ended.items; coming = into_iter_items it.coming } };

    ghost invariant = { λ it. (into_iter_len it.coming ≡ length (into_iter_items it.coming)) × (vec_len it.ended + count_begun it.talk + into_iter_len it.coming ≤ vec_capacity it.ended) };
}

impl MemDoor {
    ghost use Rattle.std.specs.Prelude.{◌≡◌, IfOk, None, Some, [], false, map};
    ghost use Rattle.doors.specs.Memory.{waiting, given_to};

    /// A door with a conversation for each input, in order, with room for `content.1` bytes that are given to
    /// each, of which the calls with the numbers in `failing` fail. All the memory is taken here. It is not open.
    pub fn new(
        alloc: Global,
        content: (List<List<u8>>, u64),
        failing: &[u64],
    ) -> Result<MemDoor, NoMemory>
        ensures { IfOk result (λ door. door ≡ record { calls = record { next = Some 1; failing = failing.now; faults = 0 }; port = None; is_open = false; talk = None; ended = []; coming = map (waiting content.1) content.0 }) }
    {
        let (inputs, room) = content;
        let ended = Vec::with_capacity(alloc, inputs.len())?;
        Ok(MemDoor {
            calls: Calls::new(alloc, failing)?,
            port: None,
            opened: false,
            talk: None,
            ended,
            coming: waiting_all(alloc, inputs, room as usize)?.into_iter(),
        })
    }

    /// What was given to the conversation of this number, from 0. It is empty where that was not begun.
    pub fn given(&self, conversation: usize) -> &[u8]
        ensures { result.now ≡ given_to self.now conversation }
    {
        if conversation < self.ended.len() {
            return self.ended[conversation].as_slice();
        }
        match &self.talk {
            Some(talk) if conversation == self.ended.len() => talk.given(),
            _ => &[],
        }
    }
}

// Puts what was given to the conversation that is begun, if any, behind what was given to those before.
fn close(talk: &mut Option<MemTalk>, ended: &mut Vec<List<u8>>)
    requires { vec_len ended.old + count_begun talk.old ≤ vec_capacity ended.old }
    ensures talk { talk.new ≡ None }
    ensures ended { ended.new.items ≡ all_given talk.old ended.old.items }
    ensures len { vec_len ended.new ≡ vec_len ended.old + count_begun talk.old }
    ensures capacity { vec_capacity ended.new ≡ vec_capacity ended.old }
{
    if let Some(talk) = talk.take() {
        ended.push_reserved(talk.into_given());
    }
}

// The conversations of these inputs, each with so much room.
fn waiting_all(alloc: Global, inputs: List<List<u8>>, room: usize) -> Result<Vec<Waiting>, NoMemory>
    ensures { IfOk result (λ all. all.items ≡ map (waiting room) inputs) }
{
    let mut all = Vec::new(alloc);
    for input in inputs.into_vec() {
        all.push(Waiting::new(alloc, input, room)?)?;
    }
    Ok(all)
}

impl Door for MemDoor {
    ghost use Rattle.std.specs.Prelude.{◌≡◌, ◌≤◌, ℕ, Bool, Option, Some, IsTrue, IfOk, length, is_ok, is_err};
    ghost use Rattle.std.specs.Result.{result_ok};
    ghost use Rattle.outside.specs.Sink.{HasCause, Takes};
    ghost use Rattle.doors.specs.Door.{Told, Opens, Nexts, Reads, Gives, ending};
    ghost use Rattle.doors.specs.Memory.{told_by, after_open, next_fails, after_next, taken, after_take, room_after, given_count, after_give, after_end};
    ghost use Rattle.outside.specs.Calls.{fails};

    ghost faults = { λ d. d.calls.faults };

    ghost is_open = { λ d. d.is_open };

    ghost told = { λ d. Some (told_by d) };

    /// It fails exactly where the call is listed.
    fn open(&mut self, port: u16) -> Result<(), Failed>
        ensures answer { is_err result ≡ fails self.old.calls }
        ensures after { self.new ≡ after_open self.old port }
        ensures kept { self.old.calls.faults ≤ self.new.calls.faults }
        ensures cause { HasCause self.old.calls.faults self.new.calls.faults result }
        ensures opened { self.new.is_open ≡ is_ok result }
        ensures told { (t : Told) → Some (told_by self.old) ≡ Some t → Opens t port result (Some (told_by self.new)) }
    {
        self.opened = false;
        self.calls.begin()?;
        self.opened = true;
        self.port = Some(port);
        Ok(())
    }

    /// It fails exactly where the call is listed, or no conversation is left.
    fn next(&mut self) -> Result<(), Failed>
        ensures answer { is_err result ≡ next_fails self.old }
        ensures after { self.new ≡ after_next self.old }
        ensures kept { self.old.calls.faults ≤ self.new.calls.faults }
        ensures cause { HasCause self.old.calls.faults self.new.calls.faults result }
        ensures opened { self.new.is_open ≡ self.old.is_open }
        ensures told { (t : Told) → Some (told_by self.old) ≡ Some t → Nexts t result (Some (told_by self.new)) }
    {
        self.calls.begin()?;
        match self.coming.next() {
            Some(next) => {
                close(&mut self.talk, &mut self.ended);
                self.talk = Some(next.begin());
                Ok(())
            }
            None => {
                self.calls.rise();
                Err(Failed)
            }
        }
    }

    /// It fails exactly where the call is listed.
    fn take(&mut self, room: &mut [u8]) -> Result<usize, Failed>
        ensures answer { result_ok result ≡ taken self.old (length room.old) }
        ensures room { room.new ≡ room_after self.old room.old }
        ensures after { self.new ≡ after_take self.old (length room.old) }
        ensures kept { self.old.calls.faults ≤ self.new.calls.faults }
        ensures cause { HasCause self.old.calls.faults self.new.calls.faults result }
        ensures opened { self.new.is_open ≡ self.old.is_open }
        ensures within { IfOk result (λ n. n ≤ length room.new) }
        ensures told { (t : Told) → Some (told_by self.old) ≡ Some t → Reads t room.new result (Some (told_by self.new)) }
    {
        self.calls.begin()?;
        match &mut self.talk {
            Some(talk) => Ok(talk.take(room)),
            None => Ok(0),
        }
    }

    /// It fails exactly where the call is listed, or a piece that has bytes finds no room at all.
    fn give(&mut self, bytes: &[u8]) -> Result<usize, Failed>
        ensures answer { result_ok result ≡ given_count self.old bytes.now }
        ensures after { self.new ≡ after_give self.old bytes.now }
        ensures kept { self.old.calls.faults ≤ self.new.calls.faults }
        ensures cause { HasCause self.old.calls.faults self.new.calls.faults result }
        ensures opened { self.new.is_open ≡ self.old.is_open }
        ensures takes { Takes bytes.now result }
        ensures told { (t : Told) → Some (told_by self.old) ≡ Some t → Gives t bytes.now result (Some (told_by self.new)) }
    {
        self.calls.begin()?;
        match &mut self.talk {
            Some(talk) => match talk.give(bytes) {
                Some(taken) => Ok(taken),
                None => {
                    self.calls.rise();
                    Err(Failed)
                }
            },
            None => Ok(bytes.len()),
        }
    }

    fn end(&mut self)
        ensures after { self.new ≡ after_end self.old }
        ensures faults { self.new.calls.faults ≡ self.old.calls.faults }
        ensures opened { self.new.is_open ≡ self.old.is_open }
        ensures told { (t : Told) → Some (told_by self.old) ≡ Some t → Some (told_by self.new) ≡ Some (ending t) }
    {
        close(&mut self.talk, &mut self.ended);
    }
}
