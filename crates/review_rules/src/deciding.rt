//! What is decided on a request.

ghost use Rattle.std.specs.Prelude.{◌≡◌, ◌+◌, ◌-◌, ◌^◌, ◌≤◌, ◌<◌, ℕ, IfNone, false, Some, None, min, length, sum_by};
ghost use Rattle.desk_tables.specs.declared.rows.User.{User};
ghost use Rattle.desk_tables.specs.declared.rows.Rows.{Rows};
ghost use Rattle.desk_tables.specs.Tables.{kept_of, files_of, review_of, policy_of, bytes_of, has_approved};
ghost use Rattle.desk_tables.specs.Valid.{IsValid};
ghost use Rattle.review_rules.specs.declared.requests.JudgeAnswer.{JudgeAnswer};
ghost use Rattle.review_rules.specs.Rules.{same_command, submitted_as, set_as, asker, kept_under, policy_early, submit_early, certify_early, approve_early, merge_early, withdraw_early, early, policy_late, submit_late, certify_late, late, own_rules, first_broken, desk_full, decision, decided, ask_of, question, report_of, size_of, cost_of, freed_of, IsFirstApproval};

use crate::rules::{
    already_approved, bad_approvals, closed, no_admin, no_approver, no_author, no_certifier,
    no_such_review, not_certified, over, over_cases, own_review, refused_book, refused_bundle,
    stale, stale_base, too_few_approvals, too_many_reviews,
};
use crate::{Ask, Command, Decision, Desk, JudgeAnswer, Request, Rule};
use desk_tables::{KeptRow, User, is_same, is_same_files};
use net_types::SourceFile;

// Whether the version of the policy is what a command sets.
fn is_set(desk: &Desk, version: u64, approvals: u64, book: &[u8]) -> bool
    ensures { result ≡ set_as approvals book.now (policy_of desk.now.state.tables version) }
{
    match desk.policy_row(version) {
        Some(policy) => policy.approvals == approvals && is_same(policy.book.as_slice(), book),
        None => false,
    }
}

// Whether the review is what a command submits.
fn is_submitted(desk: &Desk, id: u64, base: u64, title: &[u8], files: &[SourceFile]) -> bool
    ensures { result ≡ submitted_as (files_of desk.now.state.tables id) base title.now files.now (review_of desk.now.state.tables id) }
{
    match desk.review(id) {
        Some(review) => {
            review.base == base
                && is_same(review.title.as_bytes(), title)
                && is_same_files(desk.files_of(id), files)
        }
        None => false,
    }
}

// Whether the row is kept with this command.
fn is_same_command(desk: &Desk, row: &KeptRow, command: &Command) -> bool
    ensures { result ≡ same_command desk.now.state.tables row.now command.now }
{
    match command {
        Command::SetPolicy { approvals, book } => {
            row.kind == 1 && is_set(desk, row.target, *approvals, book.as_slice())
        }
        Command::Submit { base, title, files } => {
            row.kind == 2
                && is_submitted(desk, row.target, *base, title.as_bytes(), files.as_slice())
        }
        Command::Certify(id) => row.kind == 3 && row.target == *id,
        Command::Approve(id) => row.kind == 4 && row.target == *id,
        Command::Merge(id) => row.kind == 5 && row.target == *id,
        Command::Withdraw(id) => row.kind == 6 && row.target == *id,
    }
}

// The first rule of a command to set the policy that is broken before the judge is asked.
fn policy_early(desk: &Desk, user: &User, request: &Request, approvals: u64) -> Option<Rule>
    requires { asker desk.now.state request.now ≡ Some user.now }
    ensures { result ≡ first_broken (policy_early approvals) desk.now.state request.now }
{
    if let Some(rule) = no_admin(user) {
        return Some(rule);
    }
    bad_approvals(approvals)
}

// The same of a submission.
fn submit_early(desk: &Desk, user: &User, request: &Request, base: u64) -> Option<Rule>
    requires { asker desk.now.state request.now ≡ Some user.now }
    ensures { result ≡ first_broken (submit_early base) desk.now.state request.now }
{
    if let Some(rule) = no_author(user) {
        return Some(rule);
    }
    stale_base(desk, base)
}

// The same of a command to certify.
fn certify_early(desk: &Desk, user: &User, request: &Request, id: u64) -> Option<Rule>
    requires { asker desk.now.state request.now ≡ Some user.now }
    ensures { result ≡ first_broken (certify_early id) desk.now.state request.now }
{
    if let Some(rule) = no_certifier(user) {
        return Some(rule);
    }
    if let Some(rule) = no_such_review(desk, id) {
        return Some(rule);
    }
    if let Some(rule) = closed(desk, id) {
        return Some(rule);
    }
    stale(desk, id)
}

// The same of an approval.
fn approve_early(desk: &Desk, user: &User, request: &Request, id: u64) -> Option<Rule>
    requires { asker desk.now.state request.now ≡ Some user.now }
    ensures rule { result ≡ first_broken (approve_early id) desk.now.state request.now }
    ensures first { IfNone result (has_approved desk.now.state.tables id user.now.name ≡ false) }
{
    if let Some(rule) = no_approver(user) {
        return Some(rule);
    }
    if let Some(rule) = no_such_review(desk, id) {
        return Some(rule);
    }
    if let Some(rule) = closed(desk, id) {
        return Some(rule);
    }
    if let Some(rule) = stale(desk, id) {
        return Some(rule);
    }
    if let Some(rule) = own_review(desk, id, user) {
        return Some(rule);
    }
    already_approved(desk, id, user)
}

// The same of a merge.
fn merge_early(desk: &Desk, user: &User, request: &Request, id: u64) -> Option<Rule>
    requires { asker desk.now.state request.now ≡ Some user.now }
    ensures { result ≡ first_broken (merge_early id) desk.now.state request.now }
{
    if let Some(rule) = no_author(user) {
        return Some(rule);
    }
    if let Some(rule) = no_such_review(desk, id) {
        return Some(rule);
    }
    if let Some(rule) = closed(desk, id) {
        return Some(rule);
    }
    if let Some(rule) = stale(desk, id) {
        return Some(rule);
    }
    if let Some(rule) = not_certified(desk, id) {
        return Some(rule);
    }
    too_few_approvals(desk, id)
}

// The same of a withdrawal.
fn withdraw_early(desk: &Desk, user: &User, request: &Request, id: u64) -> Option<Rule>
    requires { asker desk.now.state request.now ≡ Some user.now }
    ensures { result ≡ first_broken (withdraw_early id) desk.now.state request.now }
{
    if let Some(rule) = no_author(user) {
        return Some(rule);
    }
    if let Some(rule) = no_such_review(desk, id) {
        return Some(rule);
    }
    closed(desk, id)
}

// The first rule of the command that is broken before the judge is asked.
fn early(desk: &Desk, user: &User, request: &Request) -> Option<Rule>
    requires { asker desk.now.state request.now ≡ Some user.now }
    ensures rule { result ≡ first_broken (early request.now.command) desk.now.state request.now }
    ensures first { IfNone result (IsFirstApproval desk.now.state.tables user.now.name request.now.command) }
{
    match &request.command {
        Command::SetPolicy { approvals, .. } => policy_early(desk, user, request, *approvals),
        Command::Submit { base, .. } => submit_early(desk, user, request, *base),
        Command::Certify(id) => certify_early(desk, user, request, *id),
        Command::Approve(id) => approve_early(desk, user, request, *id),
        Command::Merge(id) => merge_early(desk, user, request, *id),
        Command::Withdraw(id) => withdraw_early(desk, user, request, *id),
    }
}

// How long the judge's report is.
fn report_len(answer: &JudgeAnswer) -> usize
    ensures { result ≡ length (report_of answer.now) }
{
    match answer {
        JudgeAnswer::Judged { report, .. } => report.len(),
        _ => 0,
    }
}

// How many bytes the files have. The number stops at the end of its type.
fn size_of_files(files: &[SourceFile]) -> u128
    ensures { result ≡ min (sum_by size_of files.now) (2 ^ 128 - 1) }
{
    let mut size: u128 = 0;
    for file in files {
        size = size
            .saturating_add(file.name.len() as u128)
            .saturating_add(file.text.len() as u128);
    }
    size
}

// How many bytes more an accepted command keeps. The number stops at the end of its type.
fn cost(answer: &JudgeAnswer, command: &Command) -> u128
    ensures { result ≡ min (cost_of answer.now command.now) (2 ^ 128 - 1) }
{
    match command {
        Command::SetPolicy { book, .. } => book.len() as u128 + 512,
        Command::Submit { files, .. } => size_of_files(files.as_slice()).saturating_add(512),
        Command::Certify(_) => report_len(answer) as u128 + 512,
        Command::Approve(_) => 512,
        Command::Merge(_) => 256,
        Command::Withdraw(_) => 256,
    }
}

// How many bytes the command takes away: those of the certificate that it replaces.
fn freed(desk: &Desk, command: &Command) -> u128
    ensures value { result ≡ freed_of desk.now.state.tables command.now }
    ensures small { result < 2 ^ 65 }
{
    match command {
        Command::Certify(review) => match desk.certificate(*review) {
            Some(certificate) => certificate.report.len() as u128 + 256,
            None => 0,
        },
        _ => 0,
    }
}

// The bytes kept after the command would pass the limit.
fn full(desk: &Desk, user: &User, request: &Request, answer: &JudgeAnswer) -> Option<Rule>
    requires asker { asker desk.now.state request.now ≡ Some user.now }
    requires fresh { kept_of desk.now.state.tables user.now.name request.now.key ≡ None }
    requires first { IsFirstApproval desk.now.state.tables user.now.name request.now.command }
    ensures { result ≡ desk_full answer.now desk.now.state request.now }
{
    over(desk.bytes_after(
        freed(desk, &request.command),
        cost(answer, &request.command),
    ))
}

// The first rule of a command to set the policy that is broken behind the judge's answer.
fn policy_late(desk: &Desk, user: &User, request: &Request, answer: &JudgeAnswer) -> Option<Rule>
    requires asker { asker desk.now.state request.now ≡ Some user.now }
    requires fresh { kept_of desk.now.state.tables user.now.name request.now.key ≡ None }
    requires first { IsFirstApproval desk.now.state.tables user.now.name request.now.command }
    ensures { result ≡ first_broken (policy_late answer.now) desk.now.state request.now }
{
    if let Some(rule) = refused_book(answer) {
        return Some(rule);
    }
    full(desk, user, request, answer)
}

// The same of a submission.
fn submit_late(desk: &Desk, user: &User, request: &Request, answer: &JudgeAnswer) -> Option<Rule>
    requires asker { asker desk.now.state request.now ≡ Some user.now }
    requires fresh { kept_of desk.now.state.tables user.now.name request.now.key ≡ None }
    requires first { IsFirstApproval desk.now.state.tables user.now.name request.now.command }
    ensures { result ≡ first_broken (submit_late answer.now) desk.now.state request.now }
{
    if let Some(rule) = refused_bundle(answer) {
        return Some(rule);
    }
    if let Some(rule) = too_many_reviews(desk) {
        return Some(rule);
    }
    full(desk, user, request, answer)
}

// The same of a command to certify.
fn certify_late(desk: &Desk, user: &User, request: &Request, answer: &JudgeAnswer) -> Option<Rule>
    requires asker { asker desk.now.state request.now ≡ Some user.now }
    requires fresh { kept_of desk.now.state.tables user.now.name request.now.key ≡ None }
    requires first { IsFirstApproval desk.now.state.tables user.now.name request.now.command }
    ensures { result ≡ first_broken (certify_late answer.now) desk.now.state request.now }
{
    if let Some(rule) = refused_bundle(answer) {
        return Some(rule);
    }
    if let Some(rule) = over_cases(answer) {
        return Some(rule);
    }
    if let Some(rule) = refused_book(answer) {
        return Some(rule);
    }
    full(desk, user, request, answer)
}

// The first rule of the command that is broken behind the judge's answer.
fn late(desk: &Desk, user: &User, request: &Request, answer: &JudgeAnswer) -> Option<Rule>
    requires asker { asker desk.now.state request.now ≡ Some user.now }
    requires fresh { kept_of desk.now.state.tables user.now.name request.now.key ≡ None }
    requires first { IsFirstApproval desk.now.state.tables user.now.name request.now.command }
    ensures { result ≡ first_broken (late answer.now request.now.command) desk.now.state request.now }
{
    match &request.command {
        Command::SetPolicy { .. } => policy_late(desk, user, request, answer),
        Command::Submit { .. } => submit_late(desk, user, request, answer),
        Command::Certify(_) => certify_late(desk, user, request, answer),
        _ => full(desk, user, request, answer),
    }
}

// The first rule of the command that is broken, but for those of who asks.
fn broken(desk: &Desk, user: &User, request: &Request, answer: &JudgeAnswer) -> Option<Rule>
    requires asker { asker desk.now.state request.now ≡ Some user.now }
    requires fresh { kept_of desk.now.state.tables user.now.name request.now.key ≡ None }
    ensures { result ≡ first_broken (own_rules answer.now request.now.command) desk.now.state request.now }
{
    match early(desk, user, request) {
        Some(rule) => Some(rule),
        None => late(desk, user, request, answer),
    }
}

// What is decided where the key is new.
fn decision_of(broken: Option<Rule>) -> Decision
    ensures { (t : Rows) → result ≡ decided t None broken }
{
    match broken {
        Some(rule) => Decision::Refused(rule),
        None => Decision::Accepted,
    }
}

// What is decided where the key is kept with a command.
fn decide_kept(desk: &Desk, row: &KeptRow, request: &Request) -> Decision
    requires { kept_under desk.now.state request.now ≡ Some row.now }
    ensures { (user : User) → (a : JudgeAnswer) → asker desk.now.state request.now ≡ Some user → result ≡ decision desk.now.state request.now a }
{
    if is_same_command(desk, row, &request.command) {
        Decision::Repeated(desk.number(row))
    } else {
        Decision::Refused(Rule::KeyReused)
    }
}

// What is decided on a user's request.
fn decide_for(desk: &Desk, user: &User, request: &Request, answer: &JudgeAnswer) -> Decision
    requires { asker desk.now.state request.now ≡ Some user.now }
    ensures { result ≡ decision desk.now.state request.now answer.now }
{
    match desk.kept_by(user.name.as_bytes(), request.key.as_bytes()) {
        Some(row) => decide_kept(desk, row, request),
        None => decision_of(broken(desk, user, request, answer)),
    }
}

/// What is decided on a request, to which the judge gave this answer: the number of the kept row where the same
/// command is kept under the user's key; else the first rule of the command that breaks; else it is accepted.
/// The answer has to be the one to the question of `asks`, `NotAsked` where this is nothing.
pub fn decide(desk: &Desk, request: &Request, answer: &JudgeAnswer) -> Decision
    ensures { result ≡ decision desk.now.state request.now answer.now }
{
    match desk.user(request.token.as_bytes()) {
        Some(user) => decide_for(desk, user, request, answer),
        None => Decision::Refused(Rule::UnknownUser),
    }
}

// What the command asks of the judge.
fn question(command: &Command) -> Ask
    ensures { result ≡ question command.now }
{
    match command {
        Command::SetPolicy { .. } => Ask::Book,
        Command::Submit { .. } => Ask::Bundle,
        Command::Certify(_) => Ask::Run,
        _ => Ask::Nothing,
    }
}

// What has to be asked under a new key.
fn asks_new(desk: &Desk, user: &User, request: &Request) -> Ask
    requires asker { asker desk.now.state request.now ≡ Some user.now }
    requires fresh { kept_of desk.now.state.tables user.now.name request.now.key ≡ None }
    ensures { result ≡ ask_of desk.now.state request.now }
{
    match early(desk, user, request) {
        Some(_) => Ask::Nothing,
        None => question(&request.command),
    }
}

/// What has to be asked of the judge before a request is decided: of a submission whether its files are a bundle,
/// of a new policy whether its text is a property file, and of a command to certify the run over both bundles, where
/// the command is not repeated and no rule breaks that is tried before the answer is needed; else nothing.
pub fn asks(desk: &Desk, request: &Request) -> Ask
    ensures { result ≡ ask_of desk.now.state request.now }
{
    let Some(user) = desk.user(request.token.as_bytes()) else {
        return Ask::Nothing;
    };
    match desk.kept_by(user.name.as_bytes(), request.key.as_bytes()) {
        Some(row) => asks_kept(desk, row, request),
        None => asks_new(desk, user, request),
    }
}

// A command under a key that is kept asks nothing.
fn asks_kept(desk: &Desk, row: &KeptRow, request: &Request) -> Ask
    requires { kept_under desk.now.state request.now ≡ Some row.now }
    ensures { (user : User) → asker desk.now.state request.now ≡ Some user → result ≡ ask_of desk.now.state request.now }
{
    let _is_same = is_same_command(desk, row, &request.command);
    Ask::Nothing
}
