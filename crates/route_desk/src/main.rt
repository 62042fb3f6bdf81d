//! The route desk: certifies changes of routing.
//!
//! Decides: which words, files, output, door and keeper `run` gets, those of the machine; that no worker waits at a gate;
//! and that solved cases are counted from 0.
//! Stands on: `program` for what is done with them, `outside` for the files and the output, `tcp_door` for the door,
//! `sql_keeper` for the keeper.
//! Promises: nothing of its own; what is done is that of `run` of `program`.
#![tactic(auto)]

ghost use Rattle.std.specs.Prelude.{◌≡◌, ◌<◌};

use desk_keeper::Keeper;
use doors::Door;
use net_types::{NoMemory, Text};
use outside::{DirShelf, OpenGate, OutSink, Shelf, Sink, Steps};
use program::run;
use sql_keeper::SqlKeeper;
use std::alloc::Global;
use std::env;
use std::io::ErrorKind;
use std::marker::Brand;
use std::process::ExitCode;
use std::sync::ledger::{Blank, Ledger};
use std::thread::Threads;
use tcp_door::TcpDoor;

// The words after the program's name. Words that are no text are no command, so then there are none.
fn words(rt: &HostRuntime, alloc: Global) -> Result<Vec<Text>, NoMemory> {
    let mut words = Vec::new(alloc);
    let args = match env::args(rt) {
        Ok(args) => args,
        Err(error) => {
            return if error.kind() == ErrorKind::OutOfMemory {
                Err(NoMemory)
            } else {
                Ok(words)
            };
        }
    };
    for word in args.skip(1) {
        words.push(Text::from_string(word))?;
    }
    Ok(words)
}

// The status of a run of the words, with a counter of the ledger that the blank names.
fn status_of<R: Threads + Sync, F: Shelf, O: Sink, D: Door, K: Keeper, L: Ledger>(
    rt: &R,
    alloc: Global,
    words: &[Text],
    shelf: &mut F,
    out: &mut O,
    door: &mut D,
    keeper: &mut K,
    blank: Blank,
) -> u8
    requires name { blank.name ≡ L.name }
    requires parts { blank.parts ≡ L.parts }
    requires some { 0 < blank.parts }
{
    let mut steps: Steps<L> = Steps::open(blank);
    run(
        rt, alloc, words, shelf, out, door, keeper, &OpenGate, &mut steps,
    )
    .code()
}

// The door and the keeper of the machine.
fn door_and_keeper(rt: &HostRuntime) -> Result<(TcpDoor<HostRuntime>, SqlKeeper), NoMemory> {
    let door = TcpDoor::new(rt.clone()?);
    let keeper = SqlKeeper::new(rt.clone()?);
    Ok((door, keeper))
}

fn main(rt: HostRuntime) -> ExitCode {
    let alloc = rt.alloc();
    let status = match (words(&rt, alloc), door_and_keeper(&rt)) {
        (Ok(words), Ok((mut door, mut keeper))) => {
            let mut out = OutSink::new(rt.stdout());
            let mut shelf = DirShelf::new(&rt);
            let (words, blank) = (words.as_slice(), Blank::new(1));
            let (door, keeper) = (&mut door, &mut keeper);
            status_of::<_, _, _, _, _, Brand>(
                &rt, alloc, words, &mut shelf, &mut out, door, keeper, blank,
            )
        }
        _ => 8,
    };
    ExitCode::from(status)
}
