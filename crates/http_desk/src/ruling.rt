//! What is replied to what is asked.

ghost use Rattle.std.specs.Prelude.{◌≡◌, ◌≢◌, ◌≤◌, IfOk, None, Some, [], string_bytes, Result, Ok};
ghost use Rattle.std.specs.Option.{option_map};
ghost use Rattle.http.specs.StatusCode.{IsStatusCode};
ghost use Rattle.desk_tables.specs.Tables.{user_of};
ghost use Rattle.review_rules.specs.Judging.{IsRequest, Judging, bundle_of, head_bundle};
ghost use Rattle.desk_keeper.specs.Keeping.{Agrees};
ghost use Rattle.desk_requests.specs.Asks.{IsSoundAsked};
ghost use Rattle.desk_replies.specs.Replies.{http_code};
ghost use Rattle.desk_replies.specs.RuleWords.{rule_body};
ghost use Rattle.http_desk.specs.Answer.{refused_side, new_files, side_files, broken, told, shown, shown_to, about_review, about_report};
ghost use Rattle.http_desk.specs.Ruled.{ruling_code, ruling_media, IsRuling, RuledAs};
ghost use Rattle.http_desk.specs.Serves.{Moves, StandsOrRose};

use desk_keeper::{DeskStore, Keeper, Performed};
use desk_replies::{Media, head_body, http_code, review_body, rule_body, rule_code};
use desk_requests::{Asked, HttpRefusal, Query};
use desk_tables::{copy, source_files};
use net_types::{List, NoMemory, SourceFile};
use review_rules::{BundleSide, Command, Desk, Judge, Lack, Request, Rule};
use std::alloc::Global;
use std::thread::Threads;

/// What is replied. The texts are bodies.
#[derive(Debug, Drop)]
pub enum Ruling {
    /// 200, with this body.
    Done(Media, List<u8>),
    /// A rule that breaks.
    Broken(Rule, String),
    /// The conversation is no request.
    Faulty(HttpRefusal),
    /// The keeper failed.
    StoreFault,
    /// There was no memory.
    NoMemory,
}

/// The code of a ruling.
pub fn ruling_code(ruling: &Ruling) -> u16
    ensures code { result ≡ ruling_code ruling.now }
    ensures valid { IsStatusCode result }
{
    match ruling {
        Ruling::Done(_, _) => 200,
        Ruling::Broken(rule, _) => rule_code(*rule),
        Ruling::Faulty(refusal) => http_code(*refusal),
        Ruling::StoreFault => 503,
        Ruling::NoMemory => 507,
    }
}

fn refused_side(rule: &Rule) -> Option<BundleSide>
    ensures { result ≡ refused_side rule.now }
{
    match rule {
        Rule::BundleRefused(side, _) => Some(*side),
        _ => None,
    }
}

fn bundle_of(alloc: Global, desk: &Desk, id: u64) -> Result<List<SourceFile>, NoMemory>
    ensures { IfOk result (λ files. files ≡ bundle_of desk.now.state.tables id) }
{
    source_files(alloc, desk.files_of(id))
}

fn head_bundle(alloc: Global, desk: &Desk) -> Result<List<SourceFile>, NoMemory>
    ensures { IfOk result (λ files. files ≡ head_bundle desk.now.state.tables) }
{
    match desk.merged_as(desk.head()) {
        Some(id) => bundle_of(alloc, desk, id),
        None => Ok(List::new(alloc)),
    }
}

// The body of a rule that names files of the command's own bundle.
fn body_by_new(
    alloc: Global,
    desk: &Desk,
    command: &Command,
    rule: &Rule,
) -> Result<String, NoMemory>
    ensures { IfOk result (λ text. string_bytes text ≡ rule_body (new_files desk.now.state.tables command.now) rule.now) }
{
    match command {
        Command::Submit { files, .. } => rule_body(alloc, files.as_slice(), *rule),
        Command::Certify(id) => {
            let files = bundle_of(alloc, desk, *id)?;
            rule_body(alloc, files.as_slice(), *rule)
        }
        _ => rule_body(alloc, &[], *rule),
    }
}

fn body_by_side(
    alloc: Global,
    desk: &Desk,
    command: &Command,
    side: Option<BundleSide>,
    rule: &Rule,
) -> Result<String, NoMemory>
    ensures { IfOk result (λ text. string_bytes text ≡ rule_body (side_files desk.now.state.tables command.now side) rule.now) }
{
    match side {
        None => rule_body(alloc, &[], *rule),
        Some(BundleSide::Base) => {
            let files = head_bundle(alloc, desk)?;
            rule_body(alloc, files.as_slice(), *rule)
        }
        Some(BundleSide::New) => body_by_new(alloc, desk, command, rule),
    }
}

// A command that breaks a rule.
fn broken(alloc: Global, desk: &Desk, command: &Command, rule: Rule) -> Ruling
    ensures { IsRuling (broken desk.now.state (side_files desk.now.state.tables command.now (refused_side rule)) rule) desk.now.state result }
{
    match body_by_side(alloc, desk, command, refused_side(&rule), &rule) {
        Ok(body) => Ruling::Broken(rule, body),
        Err(_) => Ruling::NoMemory,
    }
}

// The body of a rule that names no file.
fn query_body(alloc: Global, rule: &Rule) -> Result<String, NoMemory>
    ensures { IfOk result (λ text. string_bytes text ≡ rule_body [] rule.now) }
{
    rule_body(alloc, &[], *rule)
}

// A query that breaks a rule.
fn broken_query(alloc: Global, desk: &Desk, rule: Rule) -> Ruling
    ensures { IsRuling (broken desk.now.state [] rule) desk.now.state result }
{
    match query_body(alloc, &rule) {
        Ok(body) => Ruling::Broken(rule, body),
        Err(_) => Ruling::NoMemory,
    }
}

// What is told of the head.
fn show_head(alloc: Global, desk: &Desk) -> Ruling
    ensures { IsRuling (shown desk.now.state Query.Head) desk.now.state result }
{
    match head_body(alloc, desk) {
        Ok(body) => Ruling::Done(Media::Json, List::from_vec(body.into_bytes())),
        Err(_) => Ruling::NoMemory,
    }
}

// What is told of a review.
fn show_review(alloc: Global, desk: &Desk, id: u64) -> Ruling
    ensures { IsRuling (shown desk.now.state (Query.Review id)) desk.now.state result }
{
    let Some(review) = desk.review(id) else {
        return broken_query(alloc, desk, Rule::NoSuchReview);
    };
    match review_body(alloc, desk, review) {
        Ok(body) => Ruling::Done(Media::Json, List::from_vec(body.into_bytes())),
        Err(_) => Ruling::NoMemory,
    }
}

// The report of a review's certificate.
fn show_report(alloc: Global, desk: &Desk, id: u64) -> Ruling
    ensures { IsRuling (shown desk.now.state (Query.Report id)) desk.now.state result }
{
    let Some(_review) = desk.review(id) else {
        return broken_query(alloc, desk, Rule::NoSuchReview);
    };
    let Some(certificate) = desk.certificate(id) else {
        return broken_query(alloc, desk, Rule::NotCertified(Lack::NotRun));
    };
    match copy(alloc, certificate.report.as_slice()) {
        Ok(report) => Ruling::Done(Media::Plain, report),
        Err(_) => Ruling::NoMemory,
    }
}

// What is told to who has the token.
fn show(alloc: Global, desk: &Desk, token: &[u8], query: Query) -> Ruling
    ensures { IsRuling (shown_to desk.now.state (user_of desk.now.state.users token.now) query) desk.now.state result }
{
    let Some(_user) = desk.user(token) else {
        return broken_query(alloc, desk, Rule::UnknownUser);
    };
    match query {
        Query::Head => show_head(alloc, desk),
        Query::Review(id) => show_review(alloc, desk, id),
        Query::Report(id) => show_report(alloc, desk, id),
    }
}

// What becomes of a command.
fn rule_on_command<K: Keeper, J: Judge, R: Threads + Sync>(
    rt: &R,
    alloc: Global,
    store: &mut DeskStore,
    keeper: &mut K,
    judge: &mut J,
    request: Request,
) -> Ruling
    requires request { IsRequest request }
    requires shown { K.opened keeper.old ≢ None }
    requires agrees { Agrees (K.tables keeper.old) store.old.state.tables }
    ensures agrees { Agrees (K.tables keeper.new) store.new.state.tables }
    ensures stays { K.opened keeper.new ≡ K.opened keeper.old }
    ensures judge { J.meaning judge.new ≡ J.meaning judge.old }
    ensures moved { Moves (J.meaning judge.old) store.old.state store.new.state }
    ensures counted { StandsOrRose (K.faults keeper.old) (K.faults keeper.new) }
    ensures ruled { RuledAs (J.meaning judge.old) store.old.state (Ok (Asked.Command request)) (K.faults keeper.old) (K.faults keeper.new) result store.new.state }
{
    match store.perform(rt, alloc, keeper, judge, &request) {
        Performed::Accepted(body) => Ruling::Done(Media::Json, body),
        Performed::Repeated(body) => Ruling::Done(Media::Json, body),
        Performed::Refused(rule) => broken(alloc, store.desk(), &request.command, rule),
        Performed::StoreFault => Ruling::StoreFault,
        Performed::NoMemory => Ruling::NoMemory,
    }
}

/// What is replied to what was asked. The keeper is open, and where it tells its tables, they are the desk's; both
/// stay so.
pub fn rule_on<K: Keeper, J: Judge, R: Threads + Sync>(
    rt: &R,
    alloc: Global,
    store: &mut DeskStore,
    keeper: &mut K,
    judge: &mut J,
    asked: Result<Asked, HttpRefusal>,
) -> Ruling
    requires sound { IfOk asked IsSoundAsked }
    requires shown { K.opened keeper.old ≢ None }
    requires agrees { Agrees (K.tables keeper.old) store.old.state.tables }
    ensures agrees { Agrees (K.tables keeper.new) store.new.state.tables }
    ensures stays { K.opened keeper.new ≡ K.opened keeper.old }
    ensures judge { J.meaning judge.new ≡ J.meaning judge.old }
    ensures moved { Moves (J.meaning judge.old) store.old.state store.new.state }
    ensures counted { StandsOrRose (K.faults keeper.old) (K.faults keeper.new) }
    ensures ruled { RuledAs (J.meaning judge.old) store.old.state asked (K.faults keeper.old) (K.faults keeper.new) result store.new.state }
{
    match asked {
        Err(refusal) => Ruling::Faulty(refusal),
        Ok(Asked::Query { token, query }) => show(alloc, store.desk(), token.as_bytes(), query),
        Ok(Asked::Command(request)) => rule_on_command(rt, alloc, store, keeper, judge, request),
    }
}
