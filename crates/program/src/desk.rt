//! The review desk, from its file of users to its last conversation.

ghost use Rattle.std.specs.Prelude.{◌≡◌, ◌≢◌, ◌≤◌, ℕ, List as Seq, None, Some, IsTrue, IfOk, Option, Ok, length};
ghost use Rattle.outside.specs.Content.{Content};
ghost use Rattle.outside.specs.Faults.{Rose};
ghost use Rattle.doors.specs.Door.{Told};
ghost use Rattle.command_words.specs.Asked.{serving};
ghost use Rattle.command_words.specs.Serving.{CanServe};
ghost use Rattle.commands.specs.Stops.{Gives, HasCause, IsCalm};
ghost use Rattle.desk_judge.specs.Judged.{meant};
ghost use Rattle.desk_keeper.specs.Keeping.{Agrees};
ghost use Rattle.program.specs.DeskEnding.{users_at, users_in, DeskComes};
ghost use Rattle.program.specs.DeskSteps.{BeginsWith, IsSameStop, ServesFrom, StopsAtDoor};

use command_words::ServeWords;
use commands::{Form, Refusal, Stop, read_file};
use desk_judge::RunJudge;
use desk_keeper::{DeskStore, Keeper, StartRefusal};
use desk_tables::User;
use doors::Door;
use net_types::{FormRefusal, List};
use outside::{Failed, Shelf};
use serving::serve_all;
use std::alloc::Global;
use std::thread::Threads;
use user_file::read_users;

/// Why the desk ended before its last conversation.
#[derive(Debug, Drop)]
pub enum DeskStop {
    /// It is refused.
    Refused(Refusal),
    /// A call of the shelf failed.
    ReadFault,
    /// The keeper failed when it was opened or its tables were loaded.
    StoreFault,
    /// The door failed when it was opened or the next conversation was to begin.
    DoorFault,
    /// There was no memory.
    NoMemory,
}

// The users of a file.
fn users_in(alloc: Global, text: &[u8]) -> Result<List<User>, Stop>
    ensures gives { Gives (users_in text.now) result }
    ensures calm { IsCalm result }
{
    match read_users(alloc, text) {
        Ok(users) => Ok(users),
        Err(FormRefusal::NoMemory) => Err(Stop::NoMemory),
        Err(refusal) => Err(Stop::Refused(Refusal::Form(Form::Users, refusal))),
    }
}

// The users of the file at a path.
#[tactic(auto, unfolding(crate::specs::DeskEnding::users_at))]
fn users_at<F: Shelf>(alloc: Global, shelf: &mut F, path: &str) -> Result<List<User>, Stop>
    ensures cause { HasCause (F.faults shelf.old) (F.faults shelf.new) result }
    ensures same { F.content shelf.new ≡ F.content shelf.old }
    ensures told { (c : Content) → F.content shelf.old ≡ Some c → Gives (users_at c path.now) result }
{
    let text = read_file(alloc, shelf, path)?;
    users_in(alloc, text.as_slice())
}

// Opens the keeper and makes a desk of its tables.
fn begin<K: Keeper>(
    alloc: Global,
    keeper: &mut K,
    name: &str,
    users: List<User>,
) -> Result<DeskStore, DeskStop>
    ensures begins { BeginsWith users (K.tables keeper.old) (K.opened keeper.new) name.now (K.faults keeper.old) (K.faults keeper.new) result }
    ensures same { K.tables keeper.new ≡ K.tables keeper.old }
{
    match DeskStore::start(alloc, keeper, name, users) {
        Ok(store) => Ok(store),
        Err(StartRefusal::Failed) => Err(DeskStop::StoreFault),
        Err(StartRefusal::BadRow(table, row)) => Err(DeskStop::Refused(Refusal::BadRow(
            table, row,
        ))),
        Err(StartRefusal::NoMemory) => Err(DeskStop::NoMemory),
    }
}

// Opens the door and serves the conversations.
fn serve<D: Door, K: Keeper, R: Threads + Sync>(
    rt: &R,
    alloc: Global,
    store: &mut DeskStore,
    keeper: &mut K,
    door: &mut D,
    words: &ServeWords<'_>,
) -> Result<(), Failed>
    requires can { CanServe (serving words.now) }
    requires shown { K.opened keeper.old ≢ None }
    requires agrees { Agrees (K.tables keeper.old) store.old.state.tables }
    ensures stays { K.opened keeper.new ≡ K.opened keeper.old }
    ensures serves { ServesFrom (serving words.now) store.old.state store.new.state (K.tables keeper.old) (K.tables keeper.new) (K.faults keeper.old) (K.faults keeper.new) (D.told door.old) (D.told door.new) (D.faults door.old) (D.faults door.new) result }
{
    door.open(words.port)?;
    let mut judge = RunJudge::new(words.workers);
    serve_all(rt, alloc, store, keeper, door, &mut judge, words.count)
}

fn stopped(served: Result<(), Failed>) -> Result<(), DeskStop>
    ensures { StopsAtDoor served result }
{
    match served {
        Ok(()) => Ok(()),
        Err(_) => Err(DeskStop::DoorFault),
    }
}

// A desk of these users: its keeper, its door, and the conversations.
fn serve_users<D: Door, K: Keeper, R: Threads + Sync>(
    rt: &R,
    alloc: Global,
    keeper: &mut K,
    door: &mut D,
    words: &ServeWords<'_>,
    users: List<User>,
) -> Result<(), DeskStop>
    requires can { CanServe (serving words.now) }
    ensures comes { (content : Option Content) (files : ℕ) → ((c : Content) → content ≡ Some c → users_at c words.now.users.now ≡ Ok users) →
        DeskComes content (serving words.now)
        (record { tables = K.tables keeper.old; shown = K.opened keeper.old; door = D.told door.old; file_faults = files; keeper_faults = K.faults keeper.old; door_faults = D.faults door.old })
        (record { tables = K.tables keeper.new; shown = K.opened keeper.new; door = D.told door.new; file_faults = files; keeper_faults = K.faults keeper.new; door_faults = D.faults door.new })
        result }
{
    let mut store = begin(alloc, keeper, words.store, users)?;
    let served = serve(rt, alloc, &mut store, keeper, door, words);
    stopped(served)
}

fn desk_stop(stop: Stop) -> DeskStop
    ensures { IsSameStop stop result }
{
    match stop {
        Stop::Refused(refusal) => DeskStop::Refused(refusal),
        Stop::ReadFault => DeskStop::ReadFault,
        Stop::NoMemory => DeskStop::NoMemory,
    }
}

/// Serves a desk: reads its users, opens its keeper, loads its tables, opens its door, and serves as many conversations
/// as the words say. The first step that fails decides.
///
/// # Errors
/// Those of `DeskStop`, each where it says.
pub fn serve_desk<F: Shelf, D: Door, K: Keeper, R: Threads + Sync>(
    rt: &R,
    alloc: Global,
    shelf: &mut F,
    keeper: &mut K,
    door: &mut D,
    words: &ServeWords<'_>,
) -> Result<(), DeskStop>
    requires can { CanServe (serving words.now) }
    ensures same { F.content shelf.new ≡ F.content shelf.old }
    ensures comes { DeskComes (F.content shelf.old) (serving words.now)
        (record { tables = K.tables keeper.old; shown = K.opened keeper.old; door = D.told door.old; file_faults = F.faults shelf.old; keeper_faults = K.faults keeper.old; door_faults = D.faults door.old })
        (record { tables = K.tables keeper.new; shown = K.opened keeper.new; door = D.told door.new; file_faults = F.faults shelf.new; keeper_faults = K.faults keeper.new; door_faults = D.faults door.new })
        result }
{
    match users_at(alloc, shelf, words.users) {
        Ok(users) => serve_users(rt, alloc, keeper, door, words, users),
        Err(stop) => Err(desk_stop(stop)),
    }
}
