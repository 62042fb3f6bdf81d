//! What is found of a change.

ghost use Rattle.std.specs.Prelude.{◌≡◌, ◌<◌, ◌≤◌, ◌+◌, All, IfOk, IfSome, None, length};
ghost use Rattle.property_book.specs.Book.{IsAsked};
ghost use Rattle.certify.specs.Counts.{total_of};
ghost use Rattle.certify.specs.Verdicts.{IsOutcome};
ghost use Rattle.report_text.specs.Report.{report_of};
ghost use Rattle.judging.specs.Inputs.{CanBeJudged, limit_of, too_many};
ghost use Rattle.judging.specs.Judgements.{Concludes, Counts, IsJudgement};

use crate::inputs::Inputs;
use crate::refusals::{JudgeRefusal, NotJudged};
use certify::{CertifyRefusal, cases, certify};
use net_types::{BundleSide, Net, NoMemory, Text};
use outside::{Gate, Steps};
use property_book::{Outcome, Property};
use report_text::{Side, report};
use std::alloc::Global;
use std::sync::ledger::Ledger;
use std::thread::Threads;

/// The most cases that are solved of a book in one network.
const MOST_CASES: u64 = 50_000;

/// What is found of a change.
#[derive(Debug, Drop)]
pub struct Judgement {
    /// What is found of the book before the change.
    pub base: Outcome,
    /// What is found of it after the change.
    pub new: Outcome,
    /// The place of the first property that is not certified after the change, counted from 0; none where each is.
    pub missing: Option<u8>,
    /// The report.
    pub report: Text,
}

// The report of what was found on both sides.
fn report_on(
    alloc: Global,
    inputs: &Inputs,
    on_base: &Outcome,
    on_new: &Outcome,
) -> Result<Text, NoMemory>
    requires base { length on_base.now.verdicts ≡ length inputs.now.book }
    requires new { length on_new.now.verdicts ≡ length inputs.now.book }
    ensures { IfOk result (λ text. text ≡ report_of inputs.now.book inputs.now.base on_base.now inputs.now.new on_new.now) }
{
    let base = Side {
        net: &inputs.base,
        outcome: on_base,
    };
    let new = Side {
        net: &inputs.new,
        outcome: on_new,
    };
    let text = report(alloc, inputs.book.as_slice(), &base, &new)?;
    Ok(Text::from_string(text))
}

// The refusal of a side whose network has too many cases of the book.
fn too_many(side: BundleSide, net: &Net, book: &[Property]) -> Option<JudgeRefusal>
    requires asked { All IsAsked book.now }
    requires few { length book.now ≤ 64 }
    ensures { result ≡ too_many side net.now book.now }
{
    let count = cases(net, book);
    if count > MOST_CASES {
        Some(JudgeRefusal::CasesLimit(side, count))
    } else {
        None
    }
}

// The refusal of the first side with too many cases.
#[tactic(auto, unfolding(crate::specs::Inputs::limit_of))]
fn limit_of(inputs: &Inputs) -> Option<JudgeRefusal>
    requires { CanBeJudged inputs.now }
    ensures { result ≡ limit_of inputs.now }
{
    let book = inputs.book.as_slice();
    match too_many(BundleSide::Base, &inputs.base, book) {
        Some(refusal) => Some(refusal),
        None => too_many(BundleSide::New, &inputs.new, book),
    }
}

// What is found of a book with few cases in one network.
fn found<R: Threads + Sync, G: Gate + Sync, L: Ledger>(
    rt: &R,
    alloc: Global,
    net: &Net,
    book: &[Property],
    workers: u8,
    gate: &G,
    steps: &mut Steps<L>,
) -> Result<Outcome, NoMemory>
    requires asked { All IsAsked book.now }
    requires short { length book.now ≤ 64 }
    requires within { total_of net.now book.now ≤ 50000 }
    requires some { 0 < workers }
    requires few { workers ≤ 8 }
    ensures outcome { IfOk result (λ outcome. IsOutcome net.now book.now outcome) }
    ensures long { IfOk result (λ outcome. length outcome.verdicts ≡ length book.now) }
    ensures ticks { IfOk result (λ outcome. steps.new ≡ steps.old + outcome.solved) }
{
    match certify(rt, alloc, net, book, workers, gate, steps) {
        Ok(outcome) => Ok(outcome),
        Err(CertifyRefusal::CasesLimit(_)) => unreachable!(),
        Err(CertifyRefusal::NoMemory) => Err(NoMemory),
    }
}

// What is found of a book with few cases in both networks, and the report.
fn judgement_of<R: Threads + Sync, G: Gate + Sync, L: Ledger>(
    rt: &R,
    alloc: Global,
    inputs: &Inputs,
    workers: u8,
    gate: &G,
    steps: &mut Steps<L>,
) -> Result<Judgement, NoMemory>
    requires can { CanBeJudged inputs.now }
    requires limit { limit_of inputs.now ≡ None }
    requires some { 0 < workers }
    requires few { workers ≤ 8 }
    ensures judgement { IfOk result (λ judgement. IsJudgement inputs.now judgement) }
    ensures small { IfOk result (λ judgement. IfSome judgement.missing (λ place. place < 64)) }
    ensures ticks { IfOk result (λ judgement. steps.new ≡ steps.old + judgement.base.solved + judgement.new.solved) }
{
    let book = inputs.book.as_slice();
    let base = found(rt, alloc, &inputs.base, book, workers, gate, steps)?;
    let new = found(rt, alloc, &inputs.new, book, workers, gate, steps)?;
    let report = report_on(alloc, inputs, &base, &new)?;
    let missing = new.first_missing();
    Ok(Judgement {
        base,
        new,
        missing,
        report,
    })
}

/// What is found of the book in both networks, and the report. The cases of both sides are counted before any is
/// solved.
///
/// # Errors
///
/// The refusal of the first side where the book has more than 50,000 cases, and no case was solved then. Want of
/// memory may come at any time.
pub fn judge<R: Threads + Sync, G: Gate + Sync, L: Ledger>(
    rt: &R,
    alloc: Global,
    inputs: &Inputs,
    workers: u8,
    gate: &G,
    steps: &mut Steps<L>,
) -> Result<Judgement, NotJudged>
    requires can { CanBeJudged inputs.now }
    requires some { 0 < workers }
    requires few { workers ≤ 8 }
    ensures judged { Concludes inputs.now result }
    ensures small { IfOk result (λ judgement. IfSome judgement.missing (λ place. place < 64)) }
    ensures ticks { Counts steps.old steps.new result }
{
    if let Some(refusal) = limit_of(inputs) {
        return Err(NotJudged::Refused(refusal));
    }
    Ok(judgement_of(rt, alloc, inputs, workers, gate, steps)?)
}
