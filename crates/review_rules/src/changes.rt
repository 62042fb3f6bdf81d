//! What an accepted command changes in the tables, as one change.

ghost use Rattle.std.specs.Prelude.{◌≡◌, IfOk, Some};
ghost use Rattle.review_rules.specs.declared.requests.JudgeAnswer.{JudgeAnswer};
ghost use Rattle.review_rules.specs.declared.requests.Command.{Command};
ghost use Rattle.review_rules.specs.declared.requests.Decision.{Decision};
ghost use Rattle.review_rules.specs.Rules.{asker, decision, missing_of, report_of, policy_row, review_row, certificate_row, kind_of, target_of, kept_row};
ghost use Rattle.review_rules.specs.Changes.{kind_for, change_for};

use crate::replies::reply_to;
use crate::{Command, Desk, JudgeAnswer, Request};
use desk_tables::{
    ApprovalRow, CertificateRow, FileRow, KeptRow, PolicyRow, ReviewRow, User, copy, copy_text,
    file_rows,
};
use net_types::{List, NoMemory, SourceFile, Text};
use std::alloc::Global;

/// What a command does to the tables, but for what is kept of it.
#[derive(Debug, Drop)]
pub enum ChangeKind {
    /// A version of the policy.
    Policy(PolicyRow),
    /// A review and the files of its bundle.
    Review(ReviewRow, List<FileRow>),
    /// A certificate, in place of one of the same review.
    Certificate(CertificateRow),
    /// An approval.
    Approval(ApprovalRow),
    /// The review is merged as this head.
    Merge {
        /// The review's number.
        review: u64,
        /// The head.
        head: u64,
    },
    /// The review is withdrawn.
    Withdraw {
        /// The review's number.
        review: u64,
    },
}

/// What an accepted command does to the tables, with what is kept of it.
#[derive(Debug, Drop)]
pub struct Change {
    /// What it does.
    pub kind: ChangeKind,
    /// What is kept of it.
    pub kept: KeptRow,
}

// The first property that the judge found missing.
fn missing_of(answer: &JudgeAnswer) -> Option<u8>
    ensures { result ≡ missing_of answer.now }
{
    match answer {
        JudgeAnswer::Judged { missing, .. } => *missing,
        _ => None,
    }
}

// The judge's report.
fn report_of(alloc: Global, answer: JudgeAnswer) -> List<u8>
    ensures { result ≡ report_of answer }
{
    match answer {
        JudgeAnswer::Judged { report, .. } => report,
        _ => List::new(alloc),
    }
}

// The next version of the policy.
fn policy_row(
    alloc: Global,
    desk: &Desk,
    approvals: u64,
    book: &[u8],
) -> Result<PolicyRow, NoMemory>
    ensures { IfOk result (λ row. row ≡ policy_row desk.now.state.tables approvals book.now) }
{
    Ok(PolicyRow {
        version: desk.next_version(),
        approvals,
        book: copy(alloc, book)?,
    })
}

// The next review.
fn review_row(
    alloc: Global,
    desk: &Desk,
    user: &User,
    base: u64,
    title: &Text,
) -> Result<ReviewRow, NoMemory>
    ensures { IfOk result (λ row. row ≡ review_row desk.now.state.tables user.now.name base title.now) }
{
    Ok(ReviewRow {
        id: desk.next_review(),
        author: copy_text(alloc, &user.name)?,
        title: copy_text(alloc, title)?,
        base,
        state: 0,
        head: 0,
    })
}

// The change of a submission.
fn submission(
    alloc: Global,
    desk: &Desk,
    user: &User,
    base: u64,
    title: &Text,
    files: &[SourceFile],
) -> Result<ChangeKind, NoMemory>
    ensures { IfOk result (λ kind. kind ≡ kind_for desk.now.state.tables user.now.name JudgeAnswer.NotAsked (Command.Submit base title.now files.now)) }
{
    let row = review_row(alloc, desk, user, base, title)?;
    let files = file_rows(alloc, desk.next_review(), files)?;
    Ok(ChangeKind::Review(row, files))
}

// The certificate of what the judge found, under the present policy.
fn certificate_row(alloc: Global, desk: &Desk, id: u64, answer: JudgeAnswer) -> CertificateRow
    ensures { result ≡ certificate_row desk.now.state.tables id answer }
{
    let missing = missing_of(&answer);
    CertificateRow {
        review: id,
        policy: desk.policy(),
        missing,
        report: report_of(alloc, answer),
    }
}

// What the command does to the tables, but for what is kept of it.
fn kind_for(
    alloc: Global,
    desk: &Desk,
    user: &User,
    command: &Command,
    answer: JudgeAnswer,
) -> Result<ChangeKind, NoMemory>
    ensures { IfOk result (λ kind. kind ≡ kind_for desk.now.state.tables user.now.name answer command.now) }
{
    match command {
        Command::SetPolicy { approvals, book } => {
            let row = policy_row(alloc, desk, *approvals, book.as_slice())?;
            Ok(ChangeKind::Policy(row))
        }
        Command::Submit { base, title, files } => {
            submission(alloc, desk, user, *base, title, files.as_slice())
        }
        Command::Certify(id) => {
            let row = certificate_row(alloc, desk, *id, answer);
            Ok(ChangeKind::Certificate(row))
        }
        Command::Approve(id) => {
            let user = copy_text(alloc, &user.name)?;
            Ok(ChangeKind::Approval(ApprovalRow { review: *id, user }))
        }
        Command::Merge(id) => Ok(ChangeKind::Merge {
            review: *id,
            head: desk.next_head(),
        }),
        Command::Withdraw(id) => Ok(ChangeKind::Withdraw { review: *id }),
    }
}

// The number of the command's kind.
fn kind_of(command: &Command) -> u8
    ensures { result ≡ kind_of command.now }
{
    match command {
        Command::SetPolicy { .. } => 1,
        Command::Submit { .. } => 2,
        Command::Certify(_) => 3,
        Command::Approve(_) => 4,
        Command::Merge(_) => 5,
        Command::Withdraw(_) => 6,
    }
}

// What the command is about.
fn target_of(desk: &Desk, command: &Command) -> u64
    ensures { result ≡ target_of desk.now.state.tables command.now }
{
    match command {
        Command::SetPolicy { .. } => desk.next_version(),
        Command::Submit { .. } => desk.next_review(),
        Command::Certify(id) => *id,
        Command::Approve(id) => *id,
        Command::Merge(id) => *id,
        Command::Withdraw(id) => *id,
    }
}

// What is kept of the request.
fn kept_row(
    alloc: Global,
    desk: &Desk,
    user: &User,
    request: &Request,
    answer: &JudgeAnswer,
) -> Result<KeptRow, NoMemory>
    ensures { IfOk result (λ row. row ≡ kept_row desk.now.state.tables user.now.name request.now answer.now) }
{
    Ok(KeptRow {
        user: copy_text(alloc, &user.name)?,
        key: copy_text(alloc, &request.key)?,
        kind: kind_of(&request.command),
        target: target_of(desk, &request.command),
        reply: reply_to(alloc, desk, &request.command, missing_of(answer))?,
    })
}

// The change of a user's request.
fn change_by(
    alloc: Global,
    desk: &Desk,
    user: &User,
    request: &Request,
    answer: JudgeAnswer,
) -> Result<Change, NoMemory>
    requires { asker desk.now.state request.now ≡ Some user.now }
    ensures { IfOk result (λ change. change ≡ change_for desk.now.state request.now answer) }
{
    let kept = kept_row(alloc, desk, user, request, &answer)?;
    let kind = kind_for(alloc, desk, user, &request.command, answer)?;
    Ok(Change { kind, kept })
}

/// The change of an accepted request, to which the judge gave this answer.
///
/// # Errors
/// `NoMemory` at any time.
pub fn change_of(
    alloc: Global,
    desk: &Desk,
    request: &Request,
    answer: JudgeAnswer,
) -> Result<Change, NoMemory>
    requires { decision desk.now.state request.now answer ≡ Decision.Accepted }
    ensures { IfOk result (λ change. change ≡ change_for desk.now.state request.now answer) }
{
    match desk.user(request.token.as_bytes()) {
        Some(user) => change_by(alloc, desk, user, request, answer),
        None => unreachable!(),
    }
}
