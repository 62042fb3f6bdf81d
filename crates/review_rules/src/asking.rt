//! The judge is asked what a request needs.

ghost use Rattle.std.specs.Prelude.{◌≡◌, IfOk};
ghost use Rattle.desk_tables.specs.Tables.{book_of};
ghost use Rattle.review_rules.specs.Judging.{IsCommand, IsRequest, Means, NamesAscend, NamesProperty, answer_of, bundle_of, head_bundle, judged_command};

use crate::{Ask, Command, Desk, Judge, JudgeAnswer, Request, asks};
use desk_tables::source_files;
use net_types::{List, NoMemory, SourceFile};
use std::alloc::Global;
use std::thread::Threads;

// The bundle of the review.
#[tactic(auto, using(crate::proofs::JudgeLemmas::bundle_named))]
fn bundle_of(alloc: Global, desk: &Desk, id: u64) -> Result<List<SourceFile>, NoMemory>
    ensures value { IfOk result (λ files. files ≡ bundle_of desk.now.state.tables id) }
    ensures names { IfOk result NamesAscend }
{
    let files = source_files(alloc, desk.files_of(id))?;
    Ok(files)
}

// The bundle of the head.
fn head_bundle(alloc: Global, desk: &Desk) -> Result<List<SourceFile>, NoMemory>
    ensures value { IfOk result (λ files. files ≡ head_bundle desk.now.state.tables) }
    ensures names { IfOk result NamesAscend }
{
    match desk.merged_as(desk.head()) {
        Some(id) => bundle_of(alloc, desk, id),
        None => Ok(List::new(alloc)),
    }
}

// The run over the head's bundle and the review's.
#[tactic(auto, using(crate::proofs::JudgeLemmas::run_names))]
fn run<J: Judge, R: Threads + Sync>(
    rt: &R,
    alloc: Global,
    desk: &Desk,
    judge: &mut J,
    id: u64,
) -> JudgeAnswer
    ensures value { Means ((J.meaning judge.old).run (head_bundle desk.now.state.tables) (bundle_of desk.now.state.tables id) (book_of desk.now.state.tables)) result }
    ensures names { NamesProperty result }
    ensures same { J.meaning judge.new ≡ J.meaning judge.old }
{
    let Ok(base) = head_bundle(alloc, desk) else {
        return JudgeAnswer::NoMemory;
    };
    let Ok(new) = bundle_of(alloc, desk, id) else {
        return JudgeAnswer::NoMemory;
    };
    judge.run(rt, alloc, base.as_slice(), new.as_slice(), desk.book())
}

// What the judge answers to the command's question.
#[tactic(auto, using(crate::proofs::JudgeLemmas::book_names, crate::proofs::JudgeLemmas::bundle_names))]
fn answer_to<J: Judge, R: Threads + Sync>(
    rt: &R,
    alloc: Global,
    desk: &Desk,
    judge: &mut J,
    command: &Command,
) -> JudgeAnswer
    requires { IsCommand command.now }
    ensures value { Means (judged_command (J.meaning judge.old) desk.now.state.tables command.now) result }
    ensures names { NamesProperty result }
    ensures same { J.meaning judge.new ≡ J.meaning judge.old }
{
    match command {
        Command::SetPolicy { book, .. } => judge.book(alloc, book.as_slice()),
        Command::Submit { files, .. } => judge.bundle(alloc, files.as_slice()),
        Command::Certify(id) => run(rt, alloc, desk, judge, *id),
        _ => JudgeAnswer::NotAsked,
    }
}

/// Asks the judge what the request needs to be decided: its answer to the question of `asks`, `NotAsked` where this is
/// nothing. `NoMemory` at any time.
pub fn ask<J: Judge, R: Threads + Sync>(
    rt: &R,
    alloc: Global,
    desk: &Desk,
    judge: &mut J,
    request: &Request,
) -> JudgeAnswer
    requires { IsRequest request.now }
    ensures value { Means (answer_of (J.meaning judge.old) desk.now.state request.now) result }
    ensures names { NamesProperty result }
    ensures same { J.meaning judge.new ≡ J.meaning judge.old }
{
    match asks(desk, request) {
        Ask::Nothing => JudgeAnswer::NotAsked,
        Ask::Bundle => answer_to(rt, alloc, desk, judge, &request.command),
        Ask::Run => answer_to(rt, alloc, desk, judge, &request.command),
        Ask::Book => answer_to(rt, alloc, desk, judge, &request.command),
    }
}
