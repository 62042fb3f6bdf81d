//! What `judging` and the readers say, as the desk is answered.

ghost use Rattle.std.specs.Prelude.{ℕ, ◌≡◌, ◌<◌, ◌≤◌, IfSome, length};
ghost use Rattle.judging.specs.Inputs.{CanBeJudged, limited};
ghost use Rattle.review_rules.specs.Judging.{IsBookAnswer, IsBundleAnswer, IsRunAnswer, Means};
ghost use Rattle.desk_judge.specs.Judged.{book_answer, bundle_answer, not_judged, refused, run_answer, settled, side_of};

use bundle_reader::read_bundle;
use judging::{Inputs, JudgeRefusal, Judgement, NotJudged, judge, read_inputs};
use net_types::{BundleRefusal, BundleSide as ChangeSide, FormRefusal, List, SourceFile};
use outside::{OpenGate, Steps};
use property_book::read_properties;
use review_rules::{BundleSide, JudgeAnswer};
use std::alloc::Global;
use std::sync::ledger::{Blank, Ledger};
use std::thread::Threads;

/// Whether the files are a bundle.
#[tactic(auto, unfolding(crate::specs::Judged::bundle_answer))]
pub(crate) fn bundle_answer(alloc: Global, files: &[SourceFile]) -> JudgeAnswer
    ensures value { Means (bundle_answer files.now) result }
    ensures kind { IsBundleAnswer (length files.now) result }
{
    match read_bundle(alloc, files) {
        Ok(_net) => JudgeAnswer::Fine,
        Err(BundleRefusal::NoMemory) => JudgeAnswer::NoMemory,
        Err(refusal) => JudgeAnswer::Refused(BundleSide::New, refusal),
    }
}

/// Whether the text is a property file.
#[tactic(auto, unfolding(crate::specs::Judged::book_answer))]
pub(crate) fn book_answer(alloc: Global, text: &[u8]) -> JudgeAnswer
    ensures value { Means (book_answer text.now) result }
    ensures kind { IsBookAnswer result }
{
    match read_properties(alloc, text) {
        Ok(_book) => JudgeAnswer::Fine,
        Err(FormRefusal::NoMemory) => JudgeAnswer::NoMemory,
        Err(refusal) => JudgeAnswer::BookRefused(refusal),
    }
}

// The side of a change, as an answer names it.
fn side_of(side: ChangeSide) -> BundleSide
    ensures { result ≡ side_of side }
{
    match side {
        ChangeSide::Base => BundleSide::Base,
        ChangeSide::New => BundleSide::New,
    }
}

// How a refused change is answered.
fn refused(refusal: JudgeRefusal) -> JudgeAnswer
    ensures { result ≡ refused refusal }
{
    match refusal {
        JudgeRefusal::Bundle(side, refusal) => JudgeAnswer::Refused(side_of(side), refusal),
        JudgeRefusal::Book(refusal) => JudgeAnswer::BookRefused(refusal),
        JudgeRefusal::CasesLimit(_side, cases) => JudgeAnswer::Limit(cases),
    }
}

// How a change is answered that is not judged.
fn not_judged(why: NotJudged) -> JudgeAnswer
    ensures { result ≡ not_judged why }
{
    match why {
        NotJudged::Refused(refusal) => refused(refusal),
        NotJudged::NoMemory => JudgeAnswer::NoMemory,
    }
}

// How a judged change is answered.
fn found(alloc: Global, judgement: &Judgement) -> JudgeAnswer
    requires { IfSome judgement.now.missing (λ place. place < 64) }
    ensures value { Means (JudgeAnswer.Judged judgement.now.missing judgement.now.report) result }
    ensures kind { (m n : ℕ) → IsRunAnswer m n result }
{
    match List::from_slice(alloc, judgement.report.as_bytes()) {
        Ok(report) => JudgeAnswer::Judged {
            missing: judgement.missing,
            report,
        },
        Err(_) => JudgeAnswer::NoMemory,
    }
}

// How a change with these inputs is answered, with a counter of the ledger that the blank names.
fn settled<R: Threads + Sync, L: Ledger>(
    rt: &R,
    alloc: Global,
    inputs: &Inputs,
    workers: u8,
    blank: Blank,
) -> JudgeAnswer
    requires can { CanBeJudged inputs.now }
    requires least { 0 < workers }
    requires few { workers ≤ 8 }
    requires name { blank.name ≡ L.name }
    requires parts { blank.parts ≡ L.parts }
    requires some { 0 < blank.parts }
    ensures value { Means (settled (limited inputs.now)) result }
    ensures kind { (m n : ℕ) → IsRunAnswer m n result }
{
    inputs.base.valid();
    inputs.new.valid();
    let mut steps: Steps<L> = Steps::open(blank);
    match judge(rt, alloc, inputs, workers, &OpenGate, &mut steps) {
        Ok(judgement) => found(alloc, &judgement),
        Err(why) => not_judged(why),
    }
}

/// How a run is answered, with a counter of the ledger that the blank names.
pub(crate) fn run_answer<R: Threads + Sync, L: Ledger>(
    rt: &R,
    alloc: Global,
    base: &[SourceFile],
    new: &[SourceFile],
    book: &[u8],
    workers: u8,
    blank: Blank,
) -> JudgeAnswer
    requires least { 0 < workers }
    requires few { workers ≤ 8 }
    requires name { blank.name ≡ L.name }
    requires parts { blank.parts ≡ L.parts }
    requires some { 0 < blank.parts }
    ensures value { Means (run_answer base.now new.now book.now) result }
    ensures kind { IsRunAnswer (length base.now) (length new.now) result }
{
    match read_inputs(alloc, base, new, book) {
        Ok(inputs) => settled::<R, L>(rt, alloc, &inputs, workers, blank),
        Err(why) => not_judged(why),
    }
}
