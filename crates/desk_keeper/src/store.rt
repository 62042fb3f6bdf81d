//! A desk whose tables are kept.

ghost use Rattle.std.specs.Prelude.{◌≡◌, ◌≢◌, ◌≤◌, ℕ, List as Seq, None, Some, IfOk, OnOk, OnErr};
ghost use Rattle.review_rules.specs.State.{State};
ghost use Rattle.desk_tables.specs.Valid.{IsValid};
ghost use Rattle.desk_tables.specs.declared.rows.Rows.{Rows};
ghost use Rattle.review_rules.specs.Rules.{step, decision, reply_of};
ghost use Rattle.review_rules.specs.Changes.{made, change_for, rows_of};
ghost use Rattle.review_rules.specs.Judging.{IsRequest, NamesProperty, judged, answer_of};
ghost use Rattle.desk_keeper.specs.Keeping.{Agrees, AnswersKept, Performs, Starts};

use crate::{Keeper, KeeperError};
use desk_tables::{User, copy};
use net_types::{List, NoMemory};
use review_rules::{
    Change, Decision, Desk, Judge, JudgeAnswer, Request, RestoreRefusal, Rule, ask, change_of,
    decide, restore,
};
use std::alloc::Global;
use std::marker::Model;
use std::thread::Threads;

/// Why a store was not started.
#[derive(Clone, Copy, PartialEq, Eq, Debug)]
pub enum StartRefusal {
    /// The keeper could not open or load: a fault.
    Failed,
    /// A stored row is not valid: the number of its table, and its own from 1.
    BadRow(u64, u64),
    /// There was no memory.
    NoMemory,
}

/// What became of a request. The lists are the replies.
#[derive(Debug, Drop)]
pub enum Performed {
    /// It is accepted.
    Accepted(List<u8>),
    /// The same command was accepted before, with this reply.
    Repeated(List<u8>),
    /// The first rule that breaks.
    Refused(Rule),
    /// The keeper failed.
    StoreFault,
    /// There was no memory.
    NoMemory,
}

/// A desk whose tables are kept. The keeper stays with the caller, and is lent to each call.
#[derive(Debug, Drop)]
pub struct DeskStore {
    desk: Desk,
}

impl Model for DeskStore {
    ghost use Rattle.review_rules.specs.State.{Held};

    ghost Value = { Held };

    ghost view = { λ s. s.desk };
}

impl DeskStore {
    /// The desk, for its readers.
    pub fn desk(&self) -> &Desk
        ensures { result.now ≡ self.now }
    {
        &self.desk
    }

    /// Opens the keeper under the name, loads its tables, and makes a desk of them and of these users.
    ///
    /// # Errors
    /// `Failed` where the keeper failed in this call; then `BadRow` with the first row that is not valid, where the
    /// keeper stays open; `NoMemory` at any time.
    pub fn start<K: Keeper>(
        alloc: Global,
        keeper: &mut K,
        name: &str,
        users: List<User>,
    ) -> Result<DeskStore, StartRefusal>
        ensures start { Starts users (K.tables keeper.old) (K.opened keeper.new) name.now (K.faults keeper.old) (K.faults keeper.new) result }
        ensures same { K.tables keeper.new ≡ K.tables keeper.old }
    {
        match keeper.open(alloc, name) {
            Ok(()) => begin(alloc, keeper, users),
            Err(KeeperError::Failed) => Err(StartRefusal::Failed),
            Err(KeeperError::NoMemory) => Err(StartRefusal::NoMemory),
        }
    }

    /// Performs a request: asks the judge, decides, has the change kept, and answers. The keeper is open, and where it
    /// tells its tables, they are the desk's; both stay so. All memory for the reply and the desk is taken before the
    /// keeper is asked.
    pub fn perform<K: Keeper, J: Judge, R: Threads + Sync>(
        &mut self,
        rt: &R,
        alloc: Global,
        keeper: &mut K,
        judge: &mut J,
        request: &Request,
    ) -> Performed
        requires request { IsRequest request.now }
        requires shown { K.opened keeper.old ≢ None }
        requires agrees { Agrees (K.tables keeper.old) self.old.state.tables }
        ensures outcome { Performs (judged (J.meaning judge.old) self.old.state request.now) self.old.state self.new.state (K.tables keeper.old) (K.tables keeper.new) (K.faults keeper.old) (K.faults keeper.new) result }
        ensures agrees { Agrees (K.tables keeper.new) self.new.state.tables }
        ensures stays { K.opened keeper.new ≡ K.opened keeper.old }
        ensures judge { J.meaning judge.new ≡ J.meaning judge.old }
    {
        match ask(rt, alloc, &self.desk, judge, request) {
            JudgeAnswer::NoMemory => Performed::NoMemory,
            answer => perform_judged(alloc, &mut self.desk, keeper, request, answer),
        }
    }
}

// Loads the tables of an open keeper.
#[tactic(auto, using(crate::proofs::KeepingLemmas::bad_told))]
fn begin<K: Keeper>(
    alloc: Global,
    keeper: &mut K,
    users: List<User>,
) -> Result<DeskStore, StartRefusal>
    requires { K.opened keeper.old ≢ None }
    ensures start { (name : Seq ℕ) → K.opened keeper.old ≡ Some name → Starts users (K.tables keeper.old) (K.opened keeper.new) name (K.faults keeper.old) (K.faults keeper.new) result }
    ensures same { K.tables keeper.new ≡ K.tables keeper.old }
{
    let rows = match keeper.load(alloc) {
        Ok(rows) => rows,
        Err(KeeperError::Failed) => return Err(StartRefusal::Failed),
        Err(KeeperError::NoMemory) => return Err(StartRefusal::NoMemory),
    };
    match restore(alloc, users, rows) {
        Ok(desk) => Ok(DeskStore { desk }),
        Err(RestoreRefusal::BadRow(table, row)) => Err(StartRefusal::BadRow(table, row)),
        Err(RestoreRefusal::NoMemory) => Err(StartRefusal::NoMemory),
    }
}

// Performs a request, to which the judge gave this answer.
fn perform_judged<K: Keeper>(
    alloc: Global,
    desk: &mut Desk,
    keeper: &mut K,
    request: &Request,
    answer: JudgeAnswer,
) -> Performed
    requires request { IsRequest request.now }
    requires names { NamesProperty answer }
    requires shown { K.opened keeper.old ≢ None }
    requires agrees { Agrees (K.tables keeper.old) desk.old.state.tables }
    ensures outcome { Performs (step desk.old.state request.now answer) desk.old.state desk.new.state (K.tables keeper.old) (K.tables keeper.new) (K.faults keeper.old) (K.faults keeper.new) result }
    ensures agrees { Agrees (K.tables keeper.new) desk.new.state.tables }
    ensures stays { K.opened keeper.new ≡ K.opened keeper.old }
{
    match decide(desk, request, &answer) {
        Decision::Accepted => accept(alloc, desk, keeper, request, answer),
        Decision::Repeated(number) => repeat(alloc, desk, request, &answer, number),
        Decision::Refused(rule) => Performed::Refused(rule),
    }
}

// Answers what is kept.
fn repeat(
    alloc: Global,
    desk: &Desk,
    request: &Request,
    answer: &JudgeAnswer,
    number: u64,
) -> Performed
    requires { decision desk.now.state request.now answer.now ≡ Decision.Repeated number }
    ensures { AnswersKept (step desk.now.state request.now answer.now) result }
{
    match desk.kept_under(request) {
        Some(row) => match copy(alloc, row.reply.as_slice()) {
            Ok(reply) => Performed::Repeated(reply),
            Err(_) => Performed::NoMemory,
        },
        None => unreachable!(),
    }
}

// Makes all that an accepted request needs memory for: the change, the reply and the room in the desk.
fn prepare(
    alloc: Global,
    desk: &mut Desk,
    request: &Request,
    answer: JudgeAnswer,
) -> Result<(Change, List<u8>), NoMemory>
    requires { decision desk.old.state request.now answer ≡ Decision.Accepted }
    ensures same { desk.new.state ≡ desk.old.state }
    ensures change { IfOk result (λ p. p.0 ≡ change_for desk.old.state request.now answer) }
    ensures reply { IfOk result (λ p. p.1 ≡ reply_of desk.old.state.tables answer request.now.command) }
    ensures room { IfOk result (λ p. rows_of p.0.kind ≤ desk.new.spare) }
    ensures valid { IsValid desk.old.state.tables }
{
    desk.check();
    let change = change_of(alloc, desk, request, answer)?;
    let reply = copy(alloc, change.kept.reply.as_slice())?;
    desk.reserve(alloc, &change)?;
    Ok((change, reply))
}

// Has the change of an accepted request kept.
fn accept<K: Keeper>(
    alloc: Global,
    desk: &mut Desk,
    keeper: &mut K,
    request: &Request,
    answer: JudgeAnswer,
) -> Performed
    requires request { IsRequest request.now }
    requires names { NamesProperty answer }
    requires shown { K.opened keeper.old ≢ None }
    requires agrees { Agrees (K.tables keeper.old) desk.old.state.tables }
    requires accepted { decision desk.old.state request.now answer ≡ Decision.Accepted }
    ensures outcome { Performs (step desk.old.state request.now answer) desk.old.state desk.new.state (K.tables keeper.old) (K.tables keeper.new) (K.faults keeper.old) (K.faults keeper.new) result }
    ensures agrees { Agrees (K.tables keeper.new) desk.new.state.tables }
    ensures stays { K.opened keeper.new ≡ K.opened keeper.old }
{
    let (change, reply) = match prepare(alloc, desk, request, answer) {
        Ok(ready) => ready,
        Err(_) => return Performed::NoMemory,
    };
    match keeper.commit(alloc, &change) {
        Ok(()) => {
            desk.take(change);
            Performed::Accepted(reply)
        }
        Err(KeeperError::Failed) => Performed::StoreFault,
        Err(KeeperError::NoMemory) => Performed::NoMemory,
    }
}
