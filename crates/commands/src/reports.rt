//! The report of a change, and why there is none.

ghost use Rattle.std.specs.Prelude.{◌≡◌};
ghost use Rattle.judging.specs.Inputs.{CanBeJudged};
ghost use Rattle.command_words.specs.Commands.{AreWorkers};
ghost use Rattle.commands.specs.CheckEnding.{IsReport, limited_inputs, of_judging, solved_in};
ghost use Rattle.commands.specs.Stops.{Comes, Counts, IsCalm, Unticked};

use crate::answer::Answer;
use crate::refusals::{Bundle, Form, Refusal};
use crate::stop::Stop;
use judging::{Inputs, JudgeRefusal, NotJudged, judge};
use net_types::{BundleSide, List, SourceFile};
use outside::{Gate, Steps};
use std::alloc::Global;
use std::sync::ledger::Ledger;
use std::thread::Threads;

/// The bundle before a change.
pub const BASE: Bundle = Bundle::Of(BundleSide::Base);

/// The bundle after it.
pub const NEW: Bundle = Bundle::Of(BundleSide::New);

/// The refusal of a change, with the files that it is of.
pub fn of_judging(base: List<SourceFile>, new: List<SourceFile>, refusal: JudgeRefusal) -> Refusal
    ensures { result ≡ of_judging base new refusal }
{
    match refusal {
        JudgeRefusal::Bundle(BundleSide::Base, refusal) => Refusal::Bundle(BASE, base, refusal),
        JudgeRefusal::Bundle(BundleSide::New, refusal) => Refusal::Bundle(NEW, new, refusal),
        JudgeRefusal::Book(refusal) => Refusal::Form(Form::Properties, refusal),
        JudgeRefusal::CasesLimit(side, cases) => Refusal::CasesLimit(side, cases),
    }
}

/// The report of the inputs, unless the book has too many cases on a side.
#[tactic(auto, using(crate::proofs::ReportLemmas::limited_none, crate::proofs::ReportLemmas::limited_some))]
pub fn report_on<R: Threads + Sync, G: Gate + Sync, L: Ledger>(
    rt: &R,
    alloc: Global,
    inputs: &Inputs,
    workers: u8,
    gate: &G,
    steps: &mut Steps<L>,
) -> Result<Answer, Stop>
    requires can { CanBeJudged inputs.now }
    requires workers { AreWorkers workers }
    ensures comes { Comes IsReport (limited_inputs inputs.now) result }
    ensures counts { Counts solved_in (limited_inputs inputs.now) steps.old steps.new result }
    ensures still { Unticked steps.old steps.new result }
    ensures calm { IsCalm result }
{
    match judge(rt, alloc, inputs, workers, gate, steps) {
        Ok(judgement) => Ok(Answer {
            good: judgement.missing.is_none(),
            text: judgement.report,
        }),
        Err(NotJudged::Refused(refusal)) => {
            let (base, new) = (List::new(alloc), List::new(alloc));
            Err(Stop::Refused(of_judging(base, new, refusal)))
        }
        Err(NotJudged::NoMemory) => Err(Stop::NoMemory),
    }
}
