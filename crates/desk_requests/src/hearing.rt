//! Hears what a conversation asks for.

ghost use Rattle.std.specs.Prelude.{◌≡◌, ◌≤◌, ℕ, Some, Ok, IfOk, length, take, vec_len, true};
ghost use Rattle.doors.specs.Door.{Told, left_of};
ghost use Rattle.doors.specs.Stop.{HasReason};
ghost use Rattle.doors.specs.Reading.{IsRead};
ghost use Rattle.review_rules.specs.Judging.{IsCommand, is_key};
ghost use Rattle.desk_requests.specs.Asks.{Hears, HearsAs, IsSoundAsked, asked, commanded};
ghost use Rattle.desk_requests.specs.Head.{feeds, framed};
ghost use Rattle.desk_requests.specs.Plans.{IsSoundHeard};

use crate::bodies::command_of;
use crate::heads::read_head;
use crate::parsing::heard;
use crate::{Asked, Form, Heard, HttpRefusal, Plan};
use doors::{Door, Stop, read_to};
use review_rules::{Command, Request};
use std::alloc::Global;

// The command of the body behind a head of `len` bytes.
fn hear_body<D: Door>(
    alloc: Global,
    door: &mut D,
    bytes: &mut Vec<u8>,
    len: usize,
    form: Form,
    size: u64,
) -> Result<Result<Command, HttpRefusal>, Stop>
    requires within { len ≤ vec_len bytes.old }
    requires head { len ≤ 16384 }
    requires small { size ≤ 8388608 }
    ensures kept { D.faults door.old ≤ D.faults door.new }
    ensures cause { HasReason (D.faults door.old) (D.faults door.new) result }
    ensures opened { D.is_open door.new ≡ D.is_open door.old }
    ensures sound { IfOk result (λ r. IfOk r IsCommand) }
    ensures told { (t : Told) → IsRead t bytes.old.items (D.told door.old) → HearsAs t (commanded form size) len result (D.told door.new) }
{
    let want = len + size as usize;
    match read_to(door, bytes, want) {
        Ok(true) => match command_of(alloc, form, &bytes[len..want]) {
            Ok(command) => Ok(command),
            Err(_) => Err(Stop::NoMemory),
        },
        Ok(false) => Ok(Err(HttpRefusal::BadRequest)),
        Err(stop) => Err(stop),
    }
}

// What is asked behind a head of `len` bytes that says this.
fn hear_heard<D: Door>(
    alloc: Global,
    door: &mut D,
    bytes: &mut Vec<u8>,
    len: usize,
    heard: Heard,
) -> Result<Result<Asked, HttpRefusal>, Stop>
    requires within { len ≤ vec_len bytes.old }
    requires head { len ≤ 16384 }
    requires sound { IsSoundHeard heard }
    ensures kept { D.faults door.old ≤ D.faults door.new }
    ensures cause { HasReason (D.faults door.old) (D.faults door.new) result }
    ensures opened { D.is_open door.new ≡ D.is_open door.old }
    ensures sound { IfOk result (λ r. IfOk r IsSoundAsked) }
    ensures told { (t : Told) → IsRead t bytes.old.items (D.told door.old) → HearsAs t (asked (Ok heard)) len result (D.told door.new) }
{
    let Heard { token, key, plan } = heard;
    let (form, size) = match plan {
        Plan::Now(query) => return Ok(Ok(Asked::Query { token, query })),
        Plan::Body(form, size) => (form, size),
    };
    match hear_body(alloc, door, bytes, len, form, size) {
        Ok(Ok(command)) => Ok(Ok(Asked::Command(Request {
            token,
            key,
            command,
        }))),
        Ok(Err(refusal)) => Ok(Err(refusal)),
        Err(stop) => Err(stop),
    }
}

// What is asked behind a head of `len` bytes that says this, or is refused.
fn hear_rest<D: Door>(
    alloc: Global,
    door: &mut D,
    bytes: &mut Vec<u8>,
    len: usize,
    heard: Result<Heard, HttpRefusal>,
) -> Result<Result<Asked, HttpRefusal>, Stop>
    requires within { len ≤ vec_len bytes.old }
    requires head { len ≤ 16384 }
    requires sound { IfOk heard IsSoundHeard }
    ensures kept { D.faults door.old ≤ D.faults door.new }
    ensures cause { HasReason (D.faults door.old) (D.faults door.new) result }
    ensures opened { D.is_open door.new ≡ D.is_open door.old }
    ensures sound { IfOk result (λ r. IfOk r IsSoundAsked) }
    ensures told { (t : Told) → IsRead t bytes.old.items (D.told door.old) → HearsAs t (asked heard) len result (D.told door.new) }
{
    match heard {
        Ok(heard) => hear_heard(alloc, door, bytes, len, heard),
        Err(refusal) => Ok(Err(refusal)),
    }
}

// What is asked by a head of `len` bytes and what stands behind it.
fn hear_head<D: Door>(
    alloc: Global,
    door: &mut D,
    bytes: &mut Vec<u8>,
    len: usize,
) -> Result<Result<Asked, HttpRefusal>, Stop>
    requires within { len ≤ vec_len bytes.old }
    requires head { len ≤ 16384 }
    requires lines { feeds (take len bytes.old.items) ≤ 34 }
    ensures kept { D.faults door.old ≤ D.faults door.new }
    ensures cause { HasReason (D.faults door.old) (D.faults door.new) result }
    ensures opened { D.is_open door.new ≡ D.is_open door.old }
    ensures sound { IfOk result (λ r. IfOk r IsSoundAsked) }
    ensures told { (t : Told) → IsRead t bytes.old.items (D.told door.old) → framed (left_of t) ≡ Ok len → Hears t result (D.told door.new) }
{
    match heard(alloc, &bytes[..len]) {
        Ok(heard) => hear_rest(alloc, door, bytes, len, heard),
        Err(_) => Err(Stop::NoMemory),
    }
}

/// Hears what the conversation that is begun asks for, or its first refusal. Of its input it takes at least what
/// it needs to know that. Nothing is given.
///
/// # Errors
/// `Failed` where the door failed, only where its count of faults rose in this call.
pub fn hear<D: Door>(alloc: Global, door: &mut D) -> Result<Result<Asked, HttpRefusal>, Stop>
    ensures kept { D.faults door.old ≤ D.faults door.new }
    ensures cause { HasReason (D.faults door.old) (D.faults door.new) result }
    ensures opened { D.is_open door.new ≡ D.is_open door.old }
    ensures sound { IfOk result (λ r. IfOk r IsSoundAsked) }
    ensures told { (t : Told) → D.told door.old ≡ Some t → Hears t result (D.told door.new) }
{
    let mut bytes = Vec::new(alloc);
    match read_head(door, &mut bytes) {
        Ok(Ok(len)) => hear_head(alloc, door, &mut bytes, len),
        Ok(Err(refusal)) => Ok(Err(refusal)),
        Err(stop) => Err(stop),
    }
}
