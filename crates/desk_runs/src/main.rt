//! Conversations with the review desk, by its requests and over HTTP, stored rows and files of users: tables of cases in
//! `data/`, each with what is answered, worked out by hand.
//!
//! Decides: how a case is written, and which of them are answered otherwise.
//! Stands on: `desk_keeper` for a desk over a keeper in memory, `http_desk` and `doors` for conversations over HTTP,
//! `review_rules` and `stored_rows` for stored rows, `user_file` for users, `refusal_texts` for the words of refusals.
//! Promises: nothing of its own; it is a test, to which a case is added without a proof. It prints how many cases and
//! answers a table has, and each answer that is another than the case says. Of the judge it is proved that it is one.
//!
//! A case begins with `== ` and its name, which no other case of the table has. Its lines, each begun by a word and a
//! blank; where a text stands, it is the rest of the line:
//! `+` the name of an earlier case, whose setting it has too;
//! `|` a line of the file of users, and `%lines` a first number, how many, and lines with `|` between them for each, with
//! the number for `%`;
//! `policy`, `review`, `file`, `approval`, `certificate`, `kept` a stored row: the numbers and names of its columns, and
//! the text of its last one behind them; `-` for no property that is missing. `review` has its title last, and before it
//! number, author, base, state and head; `certificate` review, policy, missing property and report;
//! `%rows` a first number, how many, and a row for each, with the number for `%`;
//! `bundle`, `book`, `run` what the judge answers: `fine`; `many` and how many files; `toml`; `base` or `new` and how many
//! files; `limit` and how many cases; `judged`, a missing property or `-`, and the report;
//! `%fail` the number of a call of the keeper that fails, from 1; `%shut` that of one of the door;
//! `>` a request: token, key and command: `policy` with approvals and a text, `submit` with base, title and files, each a
//! name, `=` and a text without blanks, `certify`, `approve`, `merge`, `withdraw` with a number; `"` is a title without
//! bytes;
//! `!` a conversation over HTTP: method, target, token and key, `-` for none of them, and a body, if there is one;
//! `*` one by its bytes, with a remark; its bytes are those of the lines behind it: `:` a line with CR LF behind it, `.` a
//! text, `byte` the number of one, `:=` a body, with its `content-length` and an empty line before it, and `times` how
//! often, and one of these lines;
//! `?` a question: `users`, what the file of users says; `restore`, whether the rows make a desk; `start`, whether the
//! store does, which has to be the first, over rows that are valid or of which no table has two; `tables`, how many rows
//! each table of the keeper has; `head`, the desk's; what its readers find, each as a row stands in a setting: `policy`
//! with a version, `review` and `certificate` with a review, `kept` with a row, `file` and `approver` with a review and a
//! position from 0, `merged` with a head;
//! `=>` the answer to the request, conversation or question before it: to a conversation code and body, with `text/plain`
//! between them where that is its kind, if the reply is the whole one with these, byte by byte; else `only` and what was
//! given, or `nothing`.
//! A case with conversations is run twice, at last over a door that lends the one in memory only the first byte of each
//! room; it has to answer the same. Where calls of the door fail it is run once, since so cut they are more.
//! An empty line and one that begins with `#` are comments.
#![tactic(auto)]

mod answers;
mod cases;
mod fixed_judge;
mod lending_door;
mod performing;
mod reading;
mod replies;
mod requests;
mod setting;
mod stored;
mod talks;
mod texts;
mod words;

use answers::answers_of;
use cases::{Case, table_of};
use fixed_judge::{BookAnswer, BundleAnswer, FixedJudge, RunAnswer};
use lending_door::Lent;
use net_types::NoMemory;
use std::alloc::Global;
use std::env;
use std::fs::{self, Files};
use std::io::{self, ErrorKind};
use std::thread::Threads;
use talks::is_talk;

// The answer to the step at this place.
fn answer_at(answers: &[String], i: usize) -> &str {
    match answers.get(i) {
        Some(answer) => answer.as_str(),
        None => "no answer",
    }
}

// Prints each step of the case that is not answered as it says.
fn compare(rt: &impl Print, case: &Case, answers: &[String]) -> io::Result<()> {
    for (i, step) in case.steps.iter().enumerate() {
        let answer = answer_at(answers, i);
        if step.wanted.as_str() != answer {
            println!(rt; "== {}\n{}\n=> {answer}", case.name, step.asked)?;
        }
    }
    Ok(())
}

// Whether the case has conversations, and a door that does not fail.
fn has_talks(case: &Case) -> bool {
    let shut = case
        .setting
        .iter()
        .any(|line| line.as_str().starts_with("%shut"));
    !shut && case.steps.iter().any(|step| is_talk(step))
}

// Prints each step that is answered otherwise where single bytes are lent.
fn compare_lent(
    rt: &impl Print,
    case: &Case,
    whole: &[String],
    single: &[String],
) -> io::Result<()> {
    for (i, step) in case.steps.iter().enumerate() {
        let single = answer_at(single, i);
        if single != answer_at(whole, i) {
            println!(rt;
                "== {}, byte by byte\n{}\n=> {single}",
                case.name, step.asked
            )?;
        }
    }
    Ok(())
}

// Runs a case that is understood; one with conversations a second time, with single bytes lent.
fn run_steps(rt: &(impl Print + Threads + Sync), alloc: Global, case: &Case) -> io::Result<()> {
    let Ok(answers) = answers_of(rt, alloc, case, Lent::Whole) else {
        return Err(ErrorKind::OutOfMemory)?;
    };
    compare(rt, case, answers.as_slice())?;
    if !has_talks(case) {
        return Ok(());
    }
    match answers_of(rt, alloc, case, Lent::FirstByte) {
        Ok(single) => compare_lent(rt, case, answers.as_slice(), single.as_slice()),
        Err(NoMemory) => Err(ErrorKind::OutOfMemory)?,
    }
}

// Runs a case whose lines are all understood; of another one prints the first line that is not.
fn run_case(rt: &(impl Print + Threads + Sync), alloc: Global, case: &Case) -> io::Result<()> {
    if let Some(line) = &case.misread {
        return println!(rt; "== {}\nmisread: {line}", case.name);
    }
    run_steps(rt, alloc, case)
}

// Runs the cases of a table, and prints how many there are, and how many answers they have.
fn run_table(
    rt: &(impl Print + Files + AllocGlobal + Threads + Sync),
    path: &str,
) -> io::Result<()> {
    let alloc = rt.alloc();
    let text = fs::read_to_string(rt, path)?;
    let Ok(cases) = table_of(alloc, text.as_str()) else {
        return Err(ErrorKind::OutOfMemory)?;
    };
    let mut steps: u64 = 0;
    for case in cases.as_slice() {
        run_case(rt, alloc, case)?;
        steps = steps.saturating_add(case.steps.len() as u64);
    }
    println!(rt; "{path}: {} cases, {steps} answers", cases.len())
}

fn main(rt: HostRuntime) -> io::Result<()> {
    for path in env::args(&rt)?.skip(1) {
        run_table(&rt, path.as_str())?;
    }
    Ok(())
}
