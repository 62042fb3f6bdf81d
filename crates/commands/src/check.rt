//! The command `check`: the report of a change of configurations.

ghost use Rattle.std.specs.Prelude.{◌≡◌, ◌≤◌, IfOk, Ok, Err, Some};
ghost use Rattle.outside.specs.Content.{Content};
ghost use Rattle.judging.specs.Inputs.{CanBeJudged};
ghost use Rattle.command_words.specs.Commands.{AreWorkers};
ghost use Rattle.commands.specs.CheckEnding.{IsReport, check_inputs, check_steps, judged, solved_in};
ghost use Rattle.commands.specs.Stops.{Comes, Counts, Gives, HasCause, IsCalm, Unticked};

use crate::answer::Answer;
use crate::folder::{read_file, read_folder};
use crate::reports::{BASE, NEW, of_judging, report_on};
use crate::stop::Stop;
use judging::{Inputs, NotJudged, read_inputs};
use net_types::{List, SourceFile};
use outside::{Gate, Shelf, Steps};
use std::alloc::Global;
use std::sync::ledger::Ledger;
use std::thread::Threads;

// The inputs of files that were read.
fn judged(
    alloc: Global,
    base: List<SourceFile>,
    new: List<SourceFile>,
    properties: &[u8],
) -> Result<Inputs, Stop>
    ensures gives { Gives (judged base new properties.now) result }
    ensures can { IfOk result (λ inputs. CanBeJudged inputs) }
    ensures calm { IsCalm result }
{
    match read_inputs(alloc, base.as_slice(), new.as_slice(), properties) {
        Ok(inputs) => Ok(inputs),
        Err(NotJudged::Refused(refusal)) => Err(Stop::Refused(of_judging(base, new, refusal))),
        Err(NotJudged::NoMemory) => Err(Stop::NoMemory),
    }
}

// The inputs of a check, step by step: the first step that refuses decides.
#[tactic(auto, unfolding(crate::specs::CheckEnding::check_inputs))]
fn check_inputs<F: Shelf>(
    alloc: Global,
    shelf: &mut F,
    base: &str,
    new: &str,
    properties: &str,
) -> Result<Inputs, Stop>
    ensures cause { HasCause (F.faults shelf.old) (F.faults shelf.new) result }
    ensures same { F.content shelf.new ≡ F.content shelf.old }
    ensures told { (c : Content) → F.content shelf.old ≡ Some c → Gives (check_inputs c base.now new.now properties.now) result }
    ensures can { IfOk result (λ inputs. CanBeJudged inputs) }
{
    let base = read_folder(alloc, shelf, BASE, base)?;
    let new = read_folder(alloc, shelf, NEW, new)?;
    let text = read_file(alloc, shelf, properties)?;
    judged(alloc, base, new, text.as_slice())
}

/// The report of two folders and a property file, or the first step that refuses.
pub fn check<R: Threads + Sync, F: Shelf, G: Gate + Sync, L: Ledger>(
    rt: &R,
    alloc: Global,
    shelf: &mut F,
    base: &str,
    new: &str,
    properties: &str,
    workers: u8,
    gate: &G,
    steps: &mut Steps<L>,
) -> Result<Answer, Stop>
    requires { AreWorkers workers }
    ensures cause { HasCause (F.faults shelf.old) (F.faults shelf.new) result }
    ensures same { F.content shelf.new ≡ F.content shelf.old }
    ensures told { (c : Content) → F.content shelf.old ≡ Some c → Comes IsReport (check_steps c base.now new.now properties.now) result }
    ensures counts { (c : Content) → F.content shelf.old ≡ Some c → Counts solved_in (check_steps c base.now new.now properties.now) steps.old steps.new result }
    ensures still { Unticked steps.old steps.new result }
{
    let inputs = check_inputs(alloc, shelf, base, new, properties)?;
    report_on(rt, alloc, &inputs, workers, gate, steps)
}
