//! The command `gen`: the report of nothing before a change and a ladder after it.

ghost use Rattle.std.specs.Prelude.{◌≡◌, IfOk};
ghost use Rattle.judging.specs.Inputs.{CanBeJudged};
ghost use Rattle.command_words.specs.Commands.{AreColumns, AreWorkers};
ghost use Rattle.commands.specs.CheckEnding.{IsReport, gen_inputs, gen_steps, solved_in};
ghost use Rattle.commands.specs.Stops.{Comes, Counts, Gives, IsCalm, Unticked};

use crate::answer::Answer;
use crate::reports::{of_judging, report_on};
use crate::stop::Stop;
use judging::{Inputs, NotJudged, inputs_of};
use ladder::{generate, ladder_book};
use net_types::List;
use outside::{Gate, Steps};
use std::alloc::Global;
use std::sync::ledger::Ledger;
use std::thread::Threads;

// The networks of no files and of a ladder, with its book.
#[tactic(auto, unfolding(crate::specs::CheckEnding::gen_inputs))]
fn gen_inputs(alloc: Global, columns: u8) -> Result<Inputs, Stop>
    requires { AreColumns columns }
    ensures gives { Gives (gen_inputs columns) result }
    ensures can { IfOk result (λ inputs. CanBeJudged inputs) }
    ensures calm { IsCalm result }
{
    let files = generate(alloc, columns)?;
    let book = ladder_book(alloc, columns)?;
    match inputs_of(alloc, &[], files.as_slice(), book) {
        Ok(inputs) => Ok(inputs),
        Err(NotJudged::Refused(refusal)) => {
            Err(Stop::Refused(of_judging(List::new(alloc), files, refusal)))
        }
        Err(NotJudged::NoMemory) => Err(Stop::NoMemory),
    }
}

/// The report of nothing before a change and a ladder of so many columns after it.
pub fn generated<R: Threads + Sync, G: Gate + Sync, L: Ledger>(
    rt: &R,
    alloc: Global,
    columns: u8,
    workers: u8,
    gate: &G,
    steps: &mut Steps<L>,
) -> Result<Answer, Stop>
    requires columns { AreColumns columns }
    requires workers { AreWorkers workers }
    ensures comes { Comes IsReport (gen_steps columns) result }
    ensures counts { Counts solved_in (gen_steps columns) steps.old steps.new result }
    ensures still { Unticked steps.old steps.new result }
    ensures calm { IsCalm result }
{
    let inputs = gen_inputs(alloc, columns)?;
    report_on(rt, alloc, &inputs, workers, gate, steps)
}
