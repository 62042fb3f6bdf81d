//! What is answered to the steps of a case.

ghost use Rattle.std.specs.Prelude.{◌≡◌, ◌≢◌, ◌≤◌, None, true, length, IfOk, IsTrue};
ghost use Rattle.desk_keeper.specs.Memory.{AreInOrder};

use crate::FixedJudge;
use crate::cases::{Case, Step};
use crate::lending_door::{LendingDoor, Lent};
use crate::performing::answer;
use crate::setting::{Setting, setting_of};
use crate::talks::inputs_of;
use crate::texts::users_text;
use desk_keeper::{DeskStore, MemKeeper, StartRefusal};
use desk_tables::{Rows, User};
use doors::Door;
use net_types::{FormRefusal, List, NoMemory};
use refusal_texts::form_text;
use review_rules::{RestoreRefusal, restore};
use std::alloc::Global;
use std::thread::Threads;
use stored_rows::first_bad_row;
use user_file::read_users;

// What the file of users says, or its refusal.
fn users_answer(alloc: Global, setting: &Setting) -> Result<String, NoMemory> {
    match read_users(alloc, setting.users.as_bytes()) {
        Ok(users) => users_text(alloc, users.as_slice()),
        Err(FormRefusal::NoMemory) => Err(NoMemory),
        Err(refusal) => form_text(alloc, refusal),
    }
}

// Whether the rows make a desk, or which row is the first that is not valid.
fn restore_answer(alloc: Global, setting: Setting) -> Result<String, NoMemory> {
    match restore(alloc, List::new(alloc), setting.rows) {
        Ok(_desk) => Ok(String::from_str(alloc, "restored")?),
        Err(RestoreRefusal::BadRow(table, row)) => {
            Ok(format!(in alloc; "BadRow {table} {row}")?)
        }
        Err(RestoreRefusal::NoMemory) => Err(NoMemory),
    }
}

fn start_text(alloc: Global, refusal: StartRefusal) -> Result<String, NoMemory> {
    match refusal {
        StartRefusal::Failed => Ok(String::from_str(alloc, "store fault")?),
        StartRefusal::BadRow(table, row) => Ok(format!(in alloc; "BadRow {table} {row}")?),
        StartRefusal::NoMemory => Err(NoMemory),
    }
}

// Whether none of the tables of policies, reviews and files has two rows.
fn have_few_reviews(rows: &Rows) -> bool
    ensures { result ≡ true → (length rows.now.policies ≤ 1) × (length rows.now.reviews ≤ 1) × (length rows.now.files ≤ 1) }
{
    rows.policies.len() <= 1 && rows.reviews.len() <= 1 && rows.files.len() <= 1
}

// Whether none of the other three tables has two rows.
fn have_few_answers(rows: &Rows) -> bool
    ensures { result ≡ true → (length rows.now.approvals ≤ 1) × (length rows.now.certificates ≤ 1) × (length rows.now.kept ≤ 1) }
{
    rows.approvals.len() <= 1 && rows.certificates.len() <= 1 && rows.kept.len() <= 1
}

// Whether no table has two rows.
#[tactic(auto, using(crate::proofs::RowLemmas::single_in_order))]
fn are_single(rows: &Rows) -> bool
    ensures { result ≡ true → AreInOrder rows.now }
{
    have_few_reviews(rows) && have_few_answers(rows)
}

// Whether the tables are valid.
#[tactic(auto, using(crate::proofs::RowLemmas::rows_in_order))]
fn are_valid(alloc: Global, rows: &Rows) -> Result<bool, NoMemory>
    ensures { IfOk result (λ is. is ≡ true → AreInOrder rows.now) }
{
    match first_bad_row(alloc, rows)? {
        None => Ok(true),
        Some(_) => Ok(false),
    }
}

// Whether the tables are seen to be in the order of their keys, as those of a keeper in memory have to be.
fn are_in_order(alloc: Global, rows: &Rows) -> Result<bool, NoMemory>
    ensures { IfOk result (λ is. is ≡ true → AreInOrder rows.now) }
{
    if are_single(rows) {
        return Ok(true);
    }
    are_valid(alloc, rows)
}

// Answers the steps in turn.
fn answer_all<R: Threads + Sync>(
    rt: &R,
    alloc: Global,
    mut store: DeskStore,
    mut keeper: MemKeeper,
    mut door: LendingDoor,
    mut judge: FixedJudge,
    steps: &[Step],
) -> Result<Vec<String>, NoMemory>
    requires open { IsTrue door.door.is_open }
    requires shown { keeper.name ≢ None }
    requires agrees { keeper.rows ≡ store.state.tables }
{
    let mut answers = Vec::new(alloc);
    for step in steps {
        let line = step.asked.as_str();
        if line == "? start" {
            answers.push(String::from_str(alloc, "started")?)?;
        } else {
            let text = answer(
                rt,
                alloc,
                &mut store,
                &mut keeper,
                &mut door,
                &mut judge,
                line,
            )?;
            answers.push(text)?;
        }
    }
    Ok(answers)
}

// One answer to the first step.
fn single(alloc: Global, answer: String) -> Result<Vec<String>, NoMemory> {
    let mut answers = Vec::new(alloc);
    answers.push(answer)?;
    Ok(answers)
}

// Opens the door, and asks the store the steps.
fn open<R: Threads + Sync>(
    rt: &R,
    alloc: Global,
    store: DeskStore,
    keeper: MemKeeper,
    mut door: LendingDoor,
    judge: FixedJudge,
    steps: &[Step],
) -> Result<Vec<String>, NoMemory>
    requires shown { keeper.name ≢ None }
    requires agrees { keeper.rows ≡ store.state.tables }
{
    match door.open(0) {
        Ok(()) => answer_all(rt, alloc, store, keeper, door, judge, steps),
        Err(_) => single(alloc, String::from_str(alloc, "door fault")?),
    }
}

// Starts a store over the rows, and asks it the steps.
fn start<R: Threads + Sync>(
    rt: &R,
    alloc: Global,
    users: List<User>,
    setting: Setting,
    steps: &[Step],
    lent: Lent,
) -> Result<Vec<String>, NoMemory> {
    let Setting {
        rows,
        judge,
        failing,
        shut,
        ..
    } = setting;
    let Some(inputs) = inputs_of(alloc, steps)? else {
        return single(alloc, String::from_str(alloc, "no conversation")?);
    };
    let door = LendingDoor::new(alloc, inputs, shut.as_slice(), lent)?;
    if !are_in_order(alloc, &rows)? {
        return single(alloc, String::from_str(alloc, "rows that are not valid")?);
    }
    let mut keeper = MemKeeper::new(alloc, rows, failing.as_slice())?;
    match DeskStore::start(alloc, &mut keeper, "desk", users) {
        Ok(store) => open(rt, alloc, store, keeper, door, judge, steps),
        Err(refusal) => single(alloc, start_text(alloc, refusal)?),
    }
}

// The answers of a case with this setting, whose first step decides what is asked.
fn answers_in<R: Threads + Sync>(
    rt: &R,
    alloc: Global,
    setting: Setting,
    steps: &[Step],
    lent: Lent,
) -> Result<Vec<String>, NoMemory> {
    let first = match steps.first() {
        Some(step) => step.asked.as_str(),
        None => "",
    };
    match first {
        "? users" => single(alloc, users_answer(alloc, &setting)?),
        "? restore" => single(alloc, restore_answer(alloc, setting)?),
        _ => match read_users(alloc, setting.users.as_bytes()) {
            Ok(users) => start(rt, alloc, users, setting, steps, lent),
            Err(FormRefusal::NoMemory) => Err(NoMemory),
            Err(refusal) => single(alloc, form_text(alloc, refusal)?),
        },
    }
}

/// The answers to the steps of a case, as far as there are any.
pub fn answers_of<R: Threads + Sync>(
    rt: &R,
    alloc: Global,
    case: &Case,
    lent: Lent,
) -> Result<Vec<String>, NoMemory> {
    match setting_of(alloc, case.setting.as_slice())? {
        Some(setting) => answers_in(rt, alloc, setting, case.steps.as_slice(), lent),
        None => single(
            alloc,
            String::from_str(alloc, "a setting that can't be read")?,
        ),
    }
}
