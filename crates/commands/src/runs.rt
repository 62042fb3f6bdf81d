//! The top call: what the program does with its words.

ghost use Rattle.std.specs.Prelude.{◌≡◌, ◌≤◌, ◌⊎◌, ℕ, List as Seq, Some, None, option_map};
ghost use Rattle.outside.specs.Content.{Content};
ghost use Rattle.outside.specs.Faults.{Rose};
ghost use Rattle.command_words.specs.Asked.{asked};
ghost use Rattle.command_words.specs.Commands.{CanRun, command_of};
ghost use Rattle.commands.specs.Refusals.{line_of};
ghost use Rattle.commands.specs.Running.{Answers, Finishes, HasPart, IsBehind, IsRefusedCommand, IsSilent, IsStatus, IsWritten, Performs, PerformsCounted, read_fault_line, status_of, usage_line};
ghost use Rattle.commands.specs.Stops.{HasCause, Unticked};

use crate::answer::Answer;
use crate::check::check;
use crate::ladders::generated;
use crate::refusals::{Refusal, line_of};
use crate::stable::stable;
use crate::status::Status;
use crate::stop::Stop;
use command_words::{Command, command_of};
use net_types::{NoMemory, Text};
use outside::{Gate, Shelf, Sink, Steps, give_all};
use std::alloc::Global;
use std::sync::ledger::Ledger;
use std::thread::Threads;

/// What is printed where the words are no command.
const USAGE: &str =
    "usage: check BASE NEW PROPS [WORKERS] | stable BUNDLE LABELS | serve DB PORT COUNT USERS [WORKERS] | gen N [WORKERS]\n";

/// Writes a text, and ends with this status or with that of a sink that failed.
pub fn write<O: Sink>(out: &mut O, text: &[u8], status: Status) -> Status
    ensures { IsWritten status text.now (O.faults out.old) (O.faults out.new) (O.given out.old) (O.given out.new) result }
{
    match give_all(out, text) {
        Ok(()) => status,
        Err(_) => Status::new(5),
    }
}

fn status_of(good: bool) -> Status
    ensures { result ≡ status_of good }
{
    if good { Status::new(0) } else { Status::new(1) }
}

/// Writes why a command is refused.
pub fn refuse<O: Sink>(alloc: Global, out: &mut O, refusal: &Refusal) -> Status
    ensures { IsWritten 2 (line_of refusal.now) (O.faults out.old) (O.faults out.new) (O.given out.old) (O.given out.new) result ⊎ IsSilent (O.faults out.old) (O.faults out.new) (O.given out.old) (O.given out.new) result }
{
    match line_of(alloc, refusal) {
        Ok(line) => write(out, line.as_bytes(), Status::new(2)),
        Err(NoMemory) => Status::new(8),
    }
}

// Writes what a command came to.
#[tactic(auto, unfolding(crate::specs::Running::read_fault_line))]
fn finish<O: Sink>(alloc: Global, out: &mut O, performed: Result<Answer, Stop>) -> Status
    ensures { Finishes performed (O.faults out.old) (O.faults out.new) (O.given out.old) (O.given out.new) result }
{
    match performed {
        Ok(answer) => write(out, answer.text.as_bytes(), status_of(answer.good)),
        Err(Stop::Refused(refusal)) => refuse(alloc, out, &refusal),
        Err(Stop::ReadFault) => write(out, b"read fault\n", Status::new(4)),
        Err(Stop::NoMemory) => Status::new(8),
    }
}

// Does what a command asks.
fn perform<R: Threads + Sync, F: Shelf, G: Gate + Sync, L: Ledger>(
    rt: &R,
    alloc: Global,
    shelf: &mut F,
    command: Command<'_>,
    gate: &G,
    steps: &mut Steps<L>,
) -> Result<Answer, Stop>
    requires { CanRun (asked command) }
    ensures cause { HasCause (F.faults shelf.old) (F.faults shelf.new) result }
    ensures same { F.content shelf.new ≡ F.content shelf.old }
    ensures told { (c : Content) → F.content shelf.old ≡ Some c → Performs c (asked command.entry) result }
    ensures counted { (c : Content) → F.content shelf.old ≡ Some c → PerformsCounted c (asked command.entry) steps.old steps.new result }
    ensures still { Unticked steps.old steps.new result }
{
    match command {
        Command::Check {
            base,
            new,
            properties,
            workers,
        } => check(
            rt, alloc, shelf, base, new, properties, workers, gate, steps,
        ),
        Command::Stable { bundle, labels } => stable(alloc, shelf, bundle, labels),
        Command::Gen { columns, workers } => generated(rt, alloc, columns, workers, gate, steps),
    }
}

/// Does what the words ask, and answers with the exit status. What they ask is said by the table of `command_words`:
/// `check` and three words, `stable` and two, `gen` and an odd number from 3 to 21; behind those of `check` and `gen` may
/// stand how many workers solve each case, 1 to 8.
///
/// What is written, and the status, is that of `specs/Running.antt`. A property that is printed as certified holds, in
/// every stable solution. The ticks of `steps` are the two printed numbers of solved cases together, and none where
/// nothing was solved. The status is 4 only where a call of the shelf failed, and 5 only where one of the sink did; no
/// call failed where the status is neither. At 5 a beginning of the text was written, at 8 nothing.
#[tactic(auto, unfolding(crate::specs::Running::usage_line))]
pub fn run<F: Shelf, O: Sink, R: Threads + Sync, G: Gate + Sync, L: Ledger>(
    rt: &R,
    alloc: Global,
    words: &[Text],
    shelf: &mut F,
    out: &mut O,
    gate: &G,
    steps: &mut Steps<L>,
) -> Status
    ensures answer { (c : Content) (before : Seq ℕ) → F.content shelf.old ≡ Some c → O.given out.old ≡ Some before →
        (result ≡ 4 → ⊥) → (result ≡ 5 → ⊥) → Answers c (command_of words.now) before (O.given out.new) steps.old steps.new result }
    ensures unsolved { 2 ≤ result → result ≤ 4 → steps.new ≡ steps.old }
    ensures refused { (c : Content) → F.content shelf.old ≡ Some c → result ≡ 2 → IsRefusedCommand c (command_of words.now) }
    ensures usage { result ≡ 3 → command_of words.now ≡ None }
    ensures no_command { command_of words.now ≡ None → (result ≡ 3) ⊎ (result ≡ 5) ⊎ (result ≡ 8) }
    ensures usage_text { result ≡ 3 → IsBehind usage_line (O.given out.old) (O.given out.new) }
    ensures read_fault_text { result ≡ 4 → IsBehind read_fault_line (O.given out.old) (O.given out.new) }
    ensures written_part { result ≡ 5 → HasPart (F.content shelf.old) (command_of words.now) (F.faults shelf.old) (F.faults shelf.new) (O.given out.old) (O.given out.new) }
    ensures read_fault { result ≡ 4 → Rose (F.faults shelf.old) (F.faults shelf.new) }
    ensures write_fault { result ≡ 5 → Rose (O.faults out.old) (O.faults out.new) }
    ensures silent { result ≡ 8 → O.given out.new ≡ O.given out.old }
    ensures read_still { (result ≡ 4 → ⊥) → (result ≡ 5 → ⊥) → F.faults shelf.new ≡ F.faults shelf.old }
    ensures write_still { (result ≡ 5 → ⊥) → O.faults out.new ≡ O.faults out.old }
    ensures kept { (F.faults shelf.old ≤ F.faults shelf.new) × (O.faults out.old ≤ O.faults out.new) }
    ensures same { F.content shelf.new ≡ F.content shelf.old }
    ensures known { IsStatus result }
{
    let line = match command_words::line_of(alloc, words) {
        Ok(line) => line,
        Err(NoMemory) => return Status::new(8),
    };
    match command_of(alloc, words, line.as_slice()) {
        Ok(Some(command)) => {
            let performed = perform(rt, alloc, shelf, command, gate, steps);
            finish(alloc, out, performed)
        }
        Ok(None) => write(out, USAGE.as_bytes(), Status::new(3)),
        Err(NoMemory) => Status::new(8),
    }
}
