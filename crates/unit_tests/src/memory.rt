//! Want of memory: a run ends with status 8 and nothing written, or with its answer.

ghost use Rattle.std.specs.Prelude.{◌≡◌, ◌<◌};

use crate::asserting::holds;
use crate::folders::{FIRST, PROPERTY, SECOND, THIRD};
use commands::run;
use net_types::{List, NoMemory, SourceFile, Text};
use outside::{MemShelf, MemSink, OpenGate, Steps};
use std::alloc::Global;
use std::marker::Brand;
use std::sync::ledger::{Blank, Ledger};
use std::thread::Threads;

// The line before and after a change, and a property of it.
const FILES: [(&str, &str); 7] = [
    ("old/r1.conf", FIRST),
    ("old/r2.conf", SECOND),
    ("old/r3.conf", THIRD),
    ("new/r1.conf", FIRST),
    ("new/r2.conf", SECOND),
    ("new/r3.conf", THIRD),
    ("props", PROPERTY),
];

const REPORT: &[u8] =
    b"route certificate report, version 1\nbase: routers 3, links 2, solved 1 of 1\nnew: routers 3, links 2, solved 1 of 1\np1: base certified; new certified\nA certified property holds in every stable solution. That one exists is not claimed.\n";

fn files(alloc: Global) -> Result<List<SourceFile>, NoMemory> {
    let mut all = List::new(alloc);
    for (path, text) in FILES {
        all.push(SourceFile {
            name: Text::from_str(alloc, path)?,
            text: List::from_slice(alloc, text.as_bytes())?,
        })?;
    }
    Ok(all)
}

fn words(alloc: Global) -> Result<Vec<Text>, NoMemory> {
    let mut all = Vec::new(alloc);
    for word in ["check", "old", "new", "props"] {
        all.push(Text::from_str(alloc, word)?)?;
    }
    Ok(all)
}

// Whether a check of the files ends with its report and status 0, or with status 8 and nothing written, with a counter of
// the ledger that the blank names. It asks for no memory once the run is over, so that a run whose last allocation fails
// is seen too.
fn reports_or_is_silent<R: Threads + Sync, L: Ledger>(
    rt: &R,
    alloc: Global,
    content: List<SourceFile>,
    blank: Blank,
) -> Option<bool>
    requires name { blank.name ≡ L.name }
    requires parts { blank.parts ≡ L.parts }
    requires some { 0 < blank.parts }
{
    let words = words(alloc).ok()?;
    if !MemShelf::are_distinct(&content) {
        return None;
    }
    let mut shelf = MemShelf::new(alloc, content, &[]).ok()?;
    let mut out = MemSink::new(alloc, 1_024, &[]).ok()?;
    let mut steps: Steps<L> = Steps::open(blank);
    let (words, gate) = (words.as_slice(), &OpenGate);
    let status = run(rt, alloc, words, &mut shelf, &mut out, gate, &mut steps).code();
    let is_answer = status == 0 && out.bytes() == REPORT;
    let is_silent = status == 8 && out.bytes().is_empty();
    Some(is_answer || is_silent)
}

// The same with a counter of its own.
fn counted<R: Threads + Sync>(rt: &R, alloc: Global, content: List<SourceFile>) -> Option<bool> {
    reports_or_is_silent::<R, Brand>(rt, alloc, content, Blank::new(1))
}

// The line of three is to be run with each allocation failing in turn: `rt try --test --fail-alloc N`. Where the
// failing one is of the files themselves there is no run.
#[test]
fn line_of_three_with_or_without_memory(rt: HostRuntime) {
    let alloc = rt.alloc();
    let run = match files(alloc) {
        Ok(content) => counted(&rt, alloc, content),
        Err(_) => None,
    };
    holds(&rt, run != Some(false));
}
