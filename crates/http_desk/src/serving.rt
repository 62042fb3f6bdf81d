//! Serves one conversation.

ghost use Rattle.std.specs.Prelude.{◌≡◌, ◌≢◌, ◌≤◌, ℕ, List, [], None, Some};
ghost use Rattle.outside.specs.Sink.{HasCause};
ghost use Rattle.doors.specs.Door.{Told, GivesAll};
ghost use Rattle.desk_keeper.specs.Keeping.{Agrees};
ghost use Rattle.http_desk.specs.Ruled.{ruling_text, RepliesWith};
ghost use Rattle.http_desk.specs.Serves.{Converses, Serves, HasServedCause, Moves, StandsOrRose};

use crate::ruling::{Ruling, rule_on, ruling_code};
use desk_keeper::{DeskStore, Keeper};
use desk_replies::{Media, give_reply, http_body, http_code, memory_body, rule_code, store_body};
use desk_requests::hear;
use doors::{Door, Stop};
use outside::Failed;
use review_rules::Judge;
use std::alloc::Global;
use std::thread::Threads;

/// What became of a conversation.
#[derive(Clone, Copy, PartialEq, Eq, Debug)]
pub enum Served {
    /// The whole reply was given. It has this code.
    Replied(u16),
    /// The door failed.
    DoorFault,
}

fn give_ruling<D: Door>(door: &mut D, ruling: &Ruling) -> Result<(), Failed>
    ensures kept { D.faults door.old ≤ D.faults door.new }
    ensures cause { HasCause (D.faults door.old) (D.faults door.new) result }
    ensures opened { D.is_open door.new ≡ D.is_open door.old }
    ensures told { (t : Told) → D.told door.old ≡ Some t → GivesAll t (ruling_text ruling.now) result (D.told door.new) }
{
    match ruling {
        Ruling::Done(media, body) => give_reply(door, 200, *media, body.as_slice()),
        Ruling::Broken(rule, body) => {
            give_reply(door, rule_code(*rule), Media::Json, body.as_bytes())
        }
        Ruling::Faulty(refusal) => {
            let body = http_body(*refusal).as_bytes();
            give_reply(door, http_code(*refusal), Media::Json, body)
        }
        Ruling::StoreFault => give_reply(door, 503, Media::Json, store_body().as_bytes()),
        Ruling::NoMemory => give_reply(door, 507, Media::Json, memory_body().as_bytes()),
    }
}

fn reply<D: Door>(door: &mut D, ruling: Ruling) -> Served
    ensures kept { D.faults door.old ≤ D.faults door.new }
    ensures cause { HasServedCause (D.faults door.old) (D.faults door.new) result }
    ensures opened { D.is_open door.new ≡ D.is_open door.old }
    ensures told { (t : Told) → D.told door.old ≡ Some t → RepliesWith t ruling result (D.told door.new) }
{
    match give_ruling(door, &ruling) {
        Ok(()) => Served::Replied(ruling_code(&ruling)),
        Err(_) => Served::DoorFault,
    }
}

fn converse<D: Door, K: Keeper, J: Judge, R: Threads + Sync>(
    rt: &R,
    alloc: Global,
    store: &mut DeskStore,
    keeper: &mut K,
    door: &mut D,
    judge: &mut J,
) -> Served
    requires shown { K.opened keeper.old ≢ None }
    requires agrees { Agrees (K.tables keeper.old) store.old.state.tables }
    ensures agrees { Agrees (K.tables keeper.new) store.new.state.tables }
    ensures stays { K.opened keeper.new ≡ K.opened keeper.old }
    ensures judge { J.meaning judge.new ≡ J.meaning judge.old }
    ensures moved { Moves (J.meaning judge.old) store.old.state store.new.state }
    ensures counted { StandsOrRose (K.faults keeper.old) (K.faults keeper.new) }
    ensures kept { D.faults door.old ≤ D.faults door.new }
    ensures cause { HasServedCause (D.faults door.old) (D.faults door.new) result }
    ensures opened { D.is_open door.new ≡ D.is_open door.old }
    ensures told { (t : Told) → D.told door.old ≡ Some t → Converses (J.meaning judge.old) store.old.state t (K.faults keeper.old) (K.faults keeper.new) result store.new.state (D.told door.new) }
{
    match hear(alloc, door) {
        Ok(asked) => {
            let ruling = rule_on(rt, alloc, store, keeper, judge, asked);
            reply(door, ruling)
        }
        Err(Stop::NoMemory) => reply(door, Ruling::NoMemory),
        Err(Stop::Failed) => Served::DoorFault,
    }
}

/// Serves the conversation that is begun, and ends it. The keeper is open, and where it tells its tables, they are the
/// desk's; both stay so. Where the door tells its content, nothing was given to the conversation yet.
///
/// `DoorFault` only where the door's count of faults rose in this call: what was given is then a beginning of a reply,
/// and an accepted command stays accepted.
pub fn serve_one<D: Door, K: Keeper, J: Judge, R: Threads + Sync>(
    rt: &R,
    alloc: Global,
    store: &mut DeskStore,
    keeper: &mut K,
    door: &mut D,
    judge: &mut J,
) -> Served
    requires shown { K.opened keeper.old ≢ None }
    requires agrees { Agrees (K.tables keeper.old) store.old.state.tables }
    ensures agrees { Agrees (K.tables keeper.new) store.new.state.tables }
    ensures stays { K.opened keeper.new ≡ K.opened keeper.old }
    ensures judge { J.meaning judge.new ≡ J.meaning judge.old }
    ensures moved { Moves (J.meaning judge.old) store.old.state store.new.state }
    ensures counted { StandsOrRose (K.faults keeper.old) (K.faults keeper.new) }
    ensures kept { D.faults door.old ≤ D.faults door.new }
    ensures cause { HasServedCause (D.faults door.old) (D.faults door.new) result }
    ensures opened { D.is_open door.new ≡ D.is_open door.old }
    ensures told { (t : Told) (input : List ℕ) → D.told door.old ≡ Some t → t.talk ≡ Some (record { left = input; given = [] }) → Serves (J.meaning judge.old) store.old.state t input (K.faults keeper.old) (K.faults keeper.new) result store.new.state (D.told door.new) }
{
    let served = converse(rt, alloc, store, keeper, door, judge);
    door.end();
    served
}
