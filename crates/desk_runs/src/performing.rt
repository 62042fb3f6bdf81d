//! A desk over a keeper in memory, which is asked one thing after another.

ghost use Rattle.std.specs.Prelude.{◌≡◌, ◌≢◌, None, IsTrue};

use crate::FixedJudge;
use crate::lending_door::LendingDoor;
use crate::reading::read;
use crate::replies::reply_text;
use crate::requests::request_of;
use crate::texts::{rule_text, tables_text};
use crate::words::cut_word;
use desk_keeper::{DeskStore, MemKeeper, Performed};
use doors::Door;
use http_desk::serve_one;
use net_types::{List, NoMemory};
use std::alloc::Global;
use std::thread::Threads;

// A word and a reply.
fn with_reply(alloc: Global, word: &str, reply: &List<u8>) -> Result<String, NoMemory> {
    let reply = String::from_utf8_lossy(alloc, reply.as_slice())?;
    let reply = reply.as_str();
    Ok(format!(in alloc; "{word} {reply}")?)
}

// What became of a request, in words.
fn performed_text(alloc: Global, performed: Performed) -> Result<String, NoMemory> {
    match performed {
        Performed::Accepted(reply) => with_reply(alloc, "accepted", &reply),
        Performed::Repeated(reply) => with_reply(alloc, "repeated", &reply),
        Performed::Refused(rule) => {
            let rule = rule_text(alloc, rule)?;
            Ok(format!(in alloc; "refused {rule}")?)
        }
        Performed::StoreFault => Ok(String::from_str(alloc, "store fault")?),
        Performed::NoMemory => Err(NoMemory),
    }
}

// The head and the policy's version.
fn head_text(alloc: Global, store: &DeskStore) -> Result<String, NoMemory> {
    let (head, policy) = (store.desk().head(), store.desk().policy());
    Ok(format!(in alloc; "head {head} policy {policy}")?)
}

// Answers a question that is no request.
fn question(
    alloc: Global,
    store: &DeskStore,
    keeper: &MemKeeper,
    words: &str,
) -> Result<String, NoMemory> {
    match cut_word(words) {
        ("tables", "") => tables_text(alloc, &keeper.rows(alloc)?),
        ("head", "") => head_text(alloc, store),
        (reader, numbers) => read(alloc, store.desk(), reader, numbers),
    }
}

// Performs the request of a line.
#[tactic(auto, using(crate::proofs::KeeperLemmas::still_open))]
fn perform<R: Threads + Sync>(
    rt: &R,
    alloc: Global,
    store: &mut DeskStore,
    keeper: &mut MemKeeper,
    judge: &mut FixedJudge,
    line: &str,
) -> Result<String, NoMemory>
    requires shown { keeper.old.name ≢ None }
    requires agrees { keeper.old.rows ≡ store.old.state.tables }
    ensures shown { keeper.new.name ≢ None }
    ensures agrees { keeper.new.rows ≡ store.new.state.tables }
{
    let Some(request) = request_of(alloc, line)? else {
        return Ok(String::from_str(alloc, "no request")?);
    };
    let performed = store.perform(rt, alloc, keeper, judge, &request);
    performed_text(alloc, performed)
}

// Begins the next conversation, and serves it.
#[tactic(auto, using(crate::proofs::KeeperLemmas::still_open))]
fn converse<R: Threads + Sync>(
    rt: &R,
    alloc: Global,
    store: &mut DeskStore,
    keeper: &mut MemKeeper,
    door: &mut LendingDoor,
    judge: &mut FixedJudge,
) -> Result<String, NoMemory>
    requires open { IsTrue door.old.door.is_open }
    requires shown { keeper.old.name ≢ None }
    requires agrees { keeper.old.rows ≡ store.old.state.tables }
    ensures opened { door.new.door.is_open ≡ door.old.door.is_open }
    ensures shown { keeper.new.name ≢ None }
    ensures agrees { keeper.new.rows ≡ store.new.state.tables }
{
    match door.next() {
        Ok(()) => {
            let _served = serve_one(rt, alloc, store, keeper, door, judge);
            reply_text(alloc, door.given())
        }
        Err(_) => Ok(String::from_str(alloc, "door fault")?),
    }
}

/// Answers the line of a step.
pub fn answer<R: Threads + Sync>(
    rt: &R,
    alloc: Global,
    store: &mut DeskStore,
    keeper: &mut MemKeeper,
    door: &mut LendingDoor,
    judge: &mut FixedJudge,
    line: &str,
) -> Result<String, NoMemory>
    requires open { IsTrue door.old.door.is_open }
    requires shown { keeper.old.name ≢ None }
    requires agrees { keeper.old.rows ≡ store.old.state.tables }
    ensures opened { door.new.door.is_open ≡ door.old.door.is_open }
    ensures shown { keeper.new.name ≢ None }
    ensures agrees { keeper.new.rows ≡ store.new.state.tables }
{
    match line.split_once(' ') {
        Some((">", words)) => perform(rt, alloc, store, keeper, judge, words),
        Some(("!" | "*", _)) => converse(rt, alloc, store, keeper, door, judge),
        Some(("?", words)) => question(alloc, store, keeper, words),
        _ => Ok(String::from_str(alloc, "no question")?),
    }
}
