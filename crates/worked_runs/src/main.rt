//! Whole runs, worked out by hand: tables of cases in `data/`, each with how it has to end.
//!
//! Decides: how a case is written, and which of them end otherwise.
//! Stands on: `commands` for what a run does, `outside` for files and output in memory, `bundle_reader` and
//! `frr_reader` for networks and single files, `label_file`, `ospf_paths` and `concrete_algebra` for routes,
//! `abstract_maps`, `possible_fixpoint` and `refine_rounds` for rows.
//! Promises: nothing of its own; it is a test, to which a case is added without a proof. It prints how many cases a
//! table has, and each that ends otherwise than it says, with how it ends.
//!
//! A case begins with `== ` and its name, which no other case of the table has. Its lines, each begun by a word and a
//! blank:
//! `$` the words of a run of the program, where `""` is an empty one;
//! `?` a question in place of a run;
//! `+` the name of an earlier case, whose files it has too;
//! `--` the path of a file, whose lines follow, behind those that it has already;
//! `=>` the status that it ends with, and behind it the lines that it writes, up to an empty one;
//! `%lines` a first number, how many, and a line for each, with the number for `%`, and `|` between lines;
//! `%char` a number below 256, and a line with the character of this number for `%`;
//! `%unended`, alone: the text before it ends without the line feed of its last line;
//! `%read`, `%write` the number of a call that fails, from 1; `%room` how many bytes the output takes.
//! A case without words and question is there for its files. Where no text is open, a line that begins with `#` is a
//! comment.
//!
//! Questions: `read`, whether the first file is a configuration, with its refusal; `config`, what it says, as it is
//! kept; `network` and the beginning of paths, the network of those files, or its refusal; `route` and further words,
//! what becomes of the labels of the file `labels` in the network of `net/`: `labels`, what is read; `export` or `import`
//! with a link and `up` or `down`, what is sent of the sender's label, and what is taken in of it, as if it had been sent;
//! `map`, what the first map of the first router gives of its label; `origin`, with OSPF's distance or none, what that
//! router originates; `paths`, the distance of each router, and which arcs are tight and which go to next hops; `row` and
//! a further word, rows of the prefix and the failed links of that file in that network: `local`, those of the local
//! routes; `possible`, of what each router may hold, nothing being dropped; `transfer` with a link and `up` or `down`, what
//! that arc makes of its sender's; `passes`, whether passes over all arcs find the same as the solver; `result`, the certain
//! routers, what is alive, and the rows of the last round.
#![tactic(auto)]

mod asked;
mod cases;
mod described;
mod ending;
mod labelling;
mod lines;
mod results;
mod rows;
mod table;
mod transfers;

use asked::ending_of;
use cases::{Asked, Case};
use ending::Ending;
use net_types::NoMemory;
use std::alloc::Global;
use std::env;
use std::fs::{self, Files};
use std::io::{self, ErrorKind, Write};
use std::thread::Threads;
use table::table_of;

// Whether a case ends as it says.
fn is_as_wanted(case: &Case, ending: &Ending) -> bool {
    case.wanted == Some(u64::from(ending.status))
        && case.answer.as_bytes() == ending.text.as_slice()
}

// Prints how the case ends, where it does not end as it says.
fn judge(rt: &(impl Print + Threads + Sync), alloc: Global, case: &Case) -> io::Result<()> {
    match ending_of(rt, alloc, case) {
        Ok(Some(ending)) => {
            if is_as_wanted(case, &ending) {
                return Ok(());
            }
            println!(rt; "== {}\n=> {}", case.name, ending.status)?;
            io::writer(rt).write_all(ending.text.as_slice())
        }
        Ok(None) => Ok(()),
        Err(NoMemory) => Err(ErrorKind::OutOfMemory)?,
    }
}

// Judges a case whose lines are all understood; of another one prints the first line that is not.
fn run_case(rt: &(impl Print + Threads + Sync), alloc: Global, case: &Case) -> io::Result<()> {
    match &case.misread {
        Some(line) => println!(rt; "== {}\nmisread: {line}", case.name),
        None => judge(rt, alloc, case),
    }
}

// Runs the cases of a table, and prints how many there are, and how many of them are there for their files alone.
fn run_table(
    rt: &(impl Print + Files + AllocGlobal + Threads + Sync),
    path: &str,
) -> io::Result<()> {
    let alloc = rt.alloc();
    let text = fs::read_to_string(rt, path)?;
    let Ok(cases) = table_of(alloc, text.as_str()) else {
        return Err(ErrorKind::OutOfMemory)?;
    };
    for case in cases.as_slice() {
        run_case(rt, alloc, case)?;
    }
    let all = cases.len();
    let bare = cases
        .iter()
        .filter(|case| matches!(&case.asked, Asked::Nothing))
        .count();
    println!(rt; "{path}: {all} cases, {bare} of them for their files")
}

fn main(rt: HostRuntime) -> io::Result<()> {
    for path in env::args(&rt)?.skip(1) {
        run_table(&rt, path.as_str())?;
    }
    Ok(())
}
