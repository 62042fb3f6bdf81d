//! What a case asks, and how it ends.

ghost use Rattle.std.specs.Prelude.{◌≡◌, ◌<◌};

use crate::cases::{Asked, Case};
use crate::described::describe;
use crate::ending::{Ending, ended_with, files_in};
use crate::rows::row_ending;
use crate::transfers::route_ending;
use bundle_reader::read_bundle;
use commands::run;
use frr_reader::read_router;
use net_types::{BundleRefusal, List, NoMemory, SourceFile, Text};
use outside::{MemShelf, MemSink, OpenGate, Shelf, Sink, Steps};
use refusal_texts::bundle_text;
use std::alloc::Global;
use std::marker::Brand;
use std::sync::ledger::{Blank, Ledger};
use std::thread::Threads;

fn refused(
    alloc: Global,
    files: &[SourceFile],
    refusal: BundleRefusal,
) -> Result<Ending, NoMemory> {
    let mut text = bundle_text(alloc, files, refusal)?;
    text.push_str("\n")?;
    ended_with(alloc, 2, text.as_str())
}

// The words of a run, between single blanks.
fn words_of(alloc: Global, words: &str) -> Result<Vec<Text>, NoMemory> {
    let mut all = Vec::new(alloc);
    if words.is_empty() {
        return Ok(all);
    }
    for word in words.split(' ') {
        let word = if word == "\"\"" { "" } else { word };
        all.push(Text::from_str(alloc, word)?)?;
    }
    Ok(all)
}

// How a case ends that asks whether its first file is a configuration, or what it says: with no text, or with that, or
// with the refusal.
fn read_ending(alloc: Global, case: &Case, told: bool) -> Result<Ending, NoMemory> {
    let files = files_in(alloc, case.files.as_slice(), "")?;
    let bytes = match files.first() {
        Some(file) => file.text.as_slice(),
        None => return ended_with(alloc, 2, "no file\n"),
    };
    match read_router(alloc, bytes) {
        Ok(config) if told => { ended_with(alloc, 0, format!(in alloc; "{config:?}\n")?.as_str()) }
        Ok(_config) => ended_with(alloc, 0, ""),
        Err(refusal) => refused(alloc, files.as_slice(), BundleRefusal::InFile(0, refusal)),
    }
}

// How a case ends that asks for the network of the files whose paths begin so.
fn network_ending(alloc: Global, case: &Case, folder: &str) -> Result<Ending, NoMemory> {
    let files = files_in(alloc, case.files.as_slice(), folder)?;
    match read_bundle(alloc, files.as_slice()) {
        Ok(net) => ended_with(alloc, 0, describe(alloc, &net)?.as_str()),
        Err(refusal) => refused(alloc, files.as_slice(), refusal),
    }
}

// The status of a run of the words, with a counter of the ledger that the blank names.
fn status_of<R: Threads + Sync, F: Shelf, O: Sink, L: Ledger>(
    rt: &R,
    alloc: Global,
    words: &[Text],
    shelf: &mut F,
    out: &mut O,
    blank: Blank,
) -> u8
    requires name { blank.name ≡ L.name }
    requires parts { blank.parts ≡ L.parts }
    requires some { 0 < blank.parts }
{
    let mut steps: Steps<L> = Steps::open(blank);
    run(rt, alloc, words, shelf, out, &OpenGate, &mut steps).code()
}

// How a run of the program over the files of the case ends.
fn run_ending<R: Threads + Sync>(
    rt: &R,
    alloc: Global,
    case: &Case,
    words: &str,
) -> Result<Ending, NoMemory> {
    let content = List::from_vec(files_in(alloc, case.files.as_slice(), "")?);
    if !MemShelf::are_distinct(&content) {
        return ended_with(alloc, 2, "two files of one path\n");
    }
    let mut shelf = MemShelf::new(alloc, content, case.failing.as_slice())?;
    let mut out = MemSink::new(alloc, case.room, case.failing_writes.as_slice())?;
    let words = words_of(alloc, words)?;
    let (words, blank) = (words.as_slice(), Blank::new(1));
    let status = status_of::<_, _, _, Brand>(rt, alloc, words, &mut shelf, &mut out, blank);
    Ok(Ending {
        status,
        text: Vec::from_slice(alloc, out.bytes())?,
    })
}

// How a question ends; one that is not known is said to be none.
fn question_ending<R: Threads + Sync>(
    rt: &R,
    alloc: Global,
    case: &Case,
    words: &str,
) -> Result<Ending, NoMemory> {
    match words.split_once(' ') {
        None if words == "read" => read_ending(alloc, case, false),
        None if words == "config" => read_ending(alloc, case, true),
        Some(("network", folder)) => network_ending(alloc, case, folder),
        Some(("route", asked)) => route_ending(alloc, case, asked),
        Some(("row", asked)) => row_ending(rt, alloc, case, asked),
        _ => ended_with(alloc, 2, "no question\n"),
    }
}

/// How the case ends, if it asks something.
pub fn ending_of<R: Threads + Sync>(
    rt: &R,
    alloc: Global,
    case: &Case,
) -> Result<Option<Ending>, NoMemory> {
    Ok(match &case.asked {
        Asked::Nothing => None,
        Asked::Run(words) => Some(run_ending(rt, alloc, case, words.as_str())?),
        Asked::Question(words) => Some(question_ending(rt, alloc, case, words.as_str())?),
    })
}
