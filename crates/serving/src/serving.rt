//! Serves conversations.

ghost use Rattle.std.specs.Prelude.{◌≡◌, ◌≢◌, ◌≤◌, None, Some, IsTrue};
ghost use Rattle.doors.specs.Door.{Told};
ghost use Rattle.desk_keeper.specs.Keeping.{Agrees};
ghost use Rattle.serving.specs.Turns.{Comes, HasNextCause, ServesAll, ServesNext};

use desk_keeper::{DeskStore, Keeper};
use doors::Door;
use http_desk::serve_one;
use outside::Failed;
use review_rules::Judge;
use std::alloc::Global;
use std::thread::Threads;

// Begins the next conversation, and serves it.
fn serve_next<D: Door, K: Keeper, J: Judge, R: Threads + Sync>(
    rt: &R,
    alloc: Global,
    store: &mut DeskStore,
    keeper: &mut K,
    door: &mut D,
    judge: &mut J,
) -> Result<(), Failed>
    requires open { IsTrue (D.is_open door.old) }
    requires shown { K.opened keeper.old ≢ None }
    requires agrees { Agrees (K.tables keeper.old) store.old.state.tables }
    ensures agrees { Agrees (K.tables keeper.new) store.new.state.tables }
    ensures stays { K.opened keeper.new ≡ K.opened keeper.old }
    ensures judge { J.meaning judge.new ≡ J.meaning judge.old }
    ensures comes { Comes (J.meaning judge.old) store.old.state store.new.state }
    ensures kept { D.faults door.old ≤ D.faults door.new }
    ensures opened { D.is_open door.new ≡ D.is_open door.old }
    ensures cause { HasNextCause (D.faults door.old) (D.faults door.new) result }
    ensures told { (t : Told) → D.told door.old ≡ Some t → ServesNext (J.meaning judge.old) (record { state = store.old.state; keeper = K.faults keeper.old; door = D.faults door.old }) t result (record { state = store.new.state; keeper = K.faults keeper.new; door = D.faults door.new }) (D.told door.new) }
{
    door.next()?;
    let _served = serve_one(rt, alloc, store, keeper, door, judge);
    Ok(())
}

/// Serves so many conversations, one after the other. The door is open, and the keeper too; where this tells its tables,
/// they are the desk's. All this stays so.
///
/// # Errors
/// `Failed` where the door failed to begin the next conversation. Those before are served.
pub fn serve_all<D: Door, K: Keeper, J: Judge, R: Threads + Sync>(
    rt: &R,
    alloc: Global,
    store: &mut DeskStore,
    keeper: &mut K,
    door: &mut D,
    judge: &mut J,
    count: u32,
) -> Result<(), Failed>
    requires open { IsTrue (D.is_open door.old) }
    requires shown { K.opened keeper.old ≢ None }
    requires agrees { Agrees (K.tables keeper.old) store.old.state.tables }
    ensures agrees { Agrees (K.tables keeper.new) store.new.state.tables }
    ensures stays { K.opened keeper.new ≡ K.opened keeper.old }
    ensures judge { J.meaning judge.new ≡ J.meaning judge.old }
    ensures comes { Comes (J.meaning judge.old) store.old.state store.new.state }
    ensures kept { D.faults door.old ≤ D.faults door.new }
    ensures opened { D.is_open door.new ≡ D.is_open door.old }
    ensures cause { HasNextCause (D.faults door.old) (D.faults door.new) result }
    ensures told { (t : Told) → D.told door.old ≡ Some t → ServesAll (J.meaning judge.old) (record { state = store.old.state; keeper = K.faults keeper.old; door = D.faults door.old }) t count result (record { state = store.new.state; keeper = K.faults keeper.new; door = D.faults door.new }) (D.told door.new) }
{
    for _ in 0..count {
        serve_next(rt, alloc, store, keeper, door, judge)?;
    }
    Ok(())
}
