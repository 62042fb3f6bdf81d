//! The top call.

ghost use Rattle.std.specs.Prelude.{◌≡◌, ◌≤◌, ◌⊎◌, ℕ, List as Seq, Some, None, IfOk, string_bytes};
ghost use Rattle.outside.specs.Content.{Content};
ghost use Rattle.outside.specs.Faults.{Rose};
ghost use Rattle.desk_tables.specs.declared.rows.Rows.{Rows};
ghost use Rattle.command_words.specs.Asked.{serving};
ghost use Rattle.command_words.specs.Commands.{Asked, command_of};
ghost use Rattle.command_words.specs.Serving.{CanServe, Serving, serving_of};
ghost use Rattle.commands.specs.Running.{Answers, HasPart, IsBehind, IsRefusedCommand, IsStatus, read_fault_line, usage_line};
ghost use Rattle.program.specs.Complete.{CompletesDesk, IsCalm, IsComplete, IsSound, IsSoundDesk};
ghost use Rattle.program.specs.DeskEnding.{DeskFinishes, IsIdle, RunsDesk, served_line};

use crate::desk::{DeskStop, serve_desk};
use command_words::{ServeWords, serving_of};
use commands::{Status, refuse, write};
use desk_keeper::Keeper;
use doors::Door;
use net_types::{NoMemory, Text};
use outside::{Gate, Shelf, Sink, Steps};
use std::alloc::Global;
use std::sync::ledger::Ledger;
use std::thread::Threads;

#[tactic(auto, unfolding(crate::specs::DeskEnding::served_line))]
fn served_line(alloc: Global, count: u32) -> Result<String, NoMemory>
    ensures { IfOk result (λ line. string_bytes line ≡ served_line count) }
{
    Ok(format!(in alloc; "served {count}\n")?)
}

// Writes that all conversations were served.
fn say_served<O: Sink>(alloc: Global, out: &mut O, count: u32) -> Status
    ensures { DeskFinishes count (Ok tt) (O.faults out.old) (O.faults out.new) (O.given out.old) (O.given out.new) result }
{
    match served_line(alloc, count) {
        Ok(line) => write(out, line.as_bytes(), Status::new(0)),
        Err(NoMemory) => Status::new(8),
    }
}

// Writes what the desk came to.
#[tactic(auto, unfolding(crate::specs::DeskEnding::store_fault_line, crate::specs::DeskEnding::door_fault_line, commands::specs::Running::read_fault_line))]
fn finish_desk<O: Sink>(
    alloc: Global,
    out: &mut O,
    count: u32,
    ended: Result<(), DeskStop>,
) -> Status
    ensures { DeskFinishes count ended (O.faults out.old) (O.faults out.new) (O.given out.old) (O.given out.new) result }
{
    match ended {
        Ok(()) => say_served(alloc, out, count),
        Err(DeskStop::Refused(refusal)) => refuse(alloc, out, &refusal),
        Err(DeskStop::ReadFault) => write(out, b"read fault\n", Status::new(4)),
        Err(DeskStop::StoreFault) => write(out, b"store fault\n", Status::new(6)),
        Err(DeskStop::DoorFault) => write(out, b"door fault\n", Status::new(7)),
        Err(DeskStop::NoMemory) => Status::new(8),
    }
}

// Serves the desk, and writes what it came to.
fn run_desk<F: Shelf, O: Sink, D: Door, K: Keeper, R: Threads + Sync>(
    rt: &R,
    alloc: Global,
    shelf: &mut F,
    out: &mut O,
    door: &mut D,
    keeper: &mut K,
    words: &ServeWords<'_>,
) -> Status
    requires can { CanServe (serving words.now) }
    ensures same { F.content shelf.new ≡ F.content shelf.old }
    ensures desk { RunsDesk (F.content shelf.old) (serving words.now)
        (record { tables = K.tables keeper.old; shown = K.opened keeper.old; door = D.told door.old; file_faults = F.faults shelf.old; keeper_faults = K.faults keeper.old; door_faults = D.faults door.old })
        (record { tables = K.tables keeper.new; shown = K.opened keeper.new; door = D.told door.new; file_faults = F.faults shelf.new; keeper_faults = K.faults keeper.new; door_faults = D.faults door.new })
        (O.faults out.old) (O.faults out.new) (O.given out.old) (O.given out.new) result }
{
    let ended = serve_desk(rt, alloc, shelf, keeper, door, words);
    finish_desk(alloc, out, words.count, ended)
}

/// Does what the words ask, and answers with the exit status. `serve` and what stands behind it start the review desk, by
/// the table of `command_words`; all other words are those of `commands`.
///
/// Of those words, what is written and the status is what `commands` promises; keeper and door are not asked. Of the desk,
/// `specs/DeskEnding.antt` says what becomes of each conversation, of the tables, of what is written, and each status by
/// its cause: 0 where all conversations were served, 2 where the users or a stored row are refused, 4 only where a call of
/// the shelf failed, 6 only where the keeper failed when it was opened or loaded, 7 only where the door failed when it was
/// opened or before the last conversation began, 5 only where the sink failed, 8 where there was no memory.
pub fn run<F: Shelf, O: Sink, D: Door, K: Keeper, R: Threads + Sync, G: Gate + Sync, L: Ledger>(
    rt: &R,
    alloc: Global,
    words: &[Text],
    shelf: &mut F,
    out: &mut O,
    door: &mut D,
    keeper: &mut K,
    gate: &G,
    steps: &mut Steps<L>,
) -> Status
    ensures answer { serving_of words.now ≡ None → (c : Content) (before : Seq ℕ) → F.content shelf.old ≡ Some c → O.given out.old ≡ Some before →
        (result ≡ 4 → ⊥) → (result ≡ 5 → ⊥) → Answers c (command_of words.now) before (O.given out.new) steps.old steps.new result }
    ensures unsolved { serving_of words.now ≡ None → 2 ≤ result → result ≤ 4 → steps.new ≡ steps.old }
    ensures refused { serving_of words.now ≡ None → (c : Content) → F.content shelf.old ≡ Some c → result ≡ 2 → IsRefusedCommand c (command_of words.now) }
    ensures usage { serving_of words.now ≡ None → result ≡ 3 → command_of words.now ≡ None }
    ensures no_command { serving_of words.now ≡ None → command_of words.now ≡ None → (result ≡ 3) ⊎ (result ≡ 5) ⊎ (result ≡ 8) }
    ensures usage_text { serving_of words.now ≡ None → result ≡ 3 → IsBehind usage_line (O.given out.old) (O.given out.new) }
    ensures read_fault_text { serving_of words.now ≡ None → result ≡ 4 → IsBehind read_fault_line (O.given out.old) (O.given out.new) }
    ensures written_part { serving_of words.now ≡ None → result ≡ 5 → HasPart (F.content shelf.old) (command_of words.now) (F.faults shelf.old) (F.faults shelf.new) (O.given out.old) (O.given out.new) }
    ensures read_fault { serving_of words.now ≡ None → result ≡ 4 → Rose (F.faults shelf.old) (F.faults shelf.new) }
    ensures write_fault { serving_of words.now ≡ None → result ≡ 5 → Rose (O.faults out.old) (O.faults out.new) }
    ensures silent { serving_of words.now ≡ None → result ≡ 8 → O.given out.new ≡ O.given out.old }
    ensures read_still { serving_of words.now ≡ None → (result ≡ 4 → ⊥) → (result ≡ 5 → ⊥) → F.faults shelf.new ≡ F.faults shelf.old }
    ensures write_still { serving_of words.now ≡ None → (result ≡ 5 → ⊥) → O.faults out.new ≡ O.faults out.old }
    ensures kept { serving_of words.now ≡ None → (F.faults shelf.old ≤ F.faults shelf.new) × (O.faults out.old ≤ O.faults out.new) }
    ensures known { serving_of words.now ≡ None → IsStatus result }
    ensures idle { serving_of words.now ≡ None →
        IsIdle
        (record { tables = K.tables keeper.old; shown = K.opened keeper.old; door = D.told door.old; file_faults = F.faults shelf.old; keeper_faults = K.faults keeper.old; door_faults = D.faults door.old })
        (record { tables = K.tables keeper.new; shown = K.opened keeper.new; door = D.told door.new; file_faults = F.faults shelf.new; keeper_faults = K.faults keeper.new; door_faults = D.faults door.new }) }
    ensures desk { (serving : Serving) → serving_of words.now ≡ Some serving →
        RunsDesk (F.content shelf.old) serving
        (record { tables = K.tables keeper.old; shown = K.opened keeper.old; door = D.told door.old; file_faults = F.faults shelf.old; keeper_faults = K.faults keeper.old; door_faults = D.faults door.old })
        (record { tables = K.tables keeper.new; shown = K.opened keeper.new; door = D.told door.new; file_faults = F.faults shelf.new; keeper_faults = K.faults keeper.new; door_faults = D.faults door.new })
        (O.faults out.old) (O.faults out.new) (O.given out.old) (O.given out.new) result }
    ensures complete { (asked : Asked) (c : Content) (before : Seq ℕ) → serving_of words.now ≡ None → command_of words.now ≡ Some asked → F.content shelf.old ≡ Some c → O.given out.old ≡ Some before →
        IsSound c asked → (Rose (F.faults shelf.old) (F.faults shelf.new) → ⊥) → (Rose (O.faults out.old) (O.faults out.new) → ⊥) → IsComplete c asked before (O.given out.new) result }
    ensures complete_desk { (serving : Serving) (c : Content) (rows : Rows) (before : Seq ℕ) → serving_of words.now ≡ Some serving → F.content shelf.old ≡ Some c → O.given out.old ≡ Some before →
        K.tables keeper.old ≡ Some rows → IsSoundDesk c serving rows →
        IsCalm
        (record { tables = K.tables keeper.old; shown = K.opened keeper.old; door = D.told door.old; file_faults = F.faults shelf.old; keeper_faults = K.faults keeper.old; door_faults = D.faults door.old })
        (record { tables = K.tables keeper.new; shown = K.opened keeper.new; door = D.told door.new; file_faults = F.faults shelf.new; keeper_faults = K.faults keeper.new; door_faults = D.faults door.new })
        (O.faults out.old) (O.faults out.new) →
        CompletesDesk c serving rows
        (record { tables = K.tables keeper.old; shown = K.opened keeper.old; door = D.told door.old; file_faults = F.faults shelf.old; keeper_faults = K.faults keeper.old; door_faults = D.faults door.old })
        (record { tables = K.tables keeper.new; shown = K.opened keeper.new; door = D.told door.new; file_faults = F.faults shelf.new; keeper_faults = K.faults keeper.new; door_faults = D.faults door.new })
        before (O.given out.new) result }
    ensures still { (serving : Serving) → serving_of words.now ≡ Some serving → steps.new ≡ steps.old }
    ensures same { F.content shelf.new ≡ F.content shelf.old }
{
    let line = match command_words::line_of(alloc, words) {
        Ok(line) => line,
        Err(NoMemory) => return Status::new(8),
    };
    match serving_of(alloc, words, line.as_slice()) {
        Ok(Some(asked)) => run_desk(rt, alloc, shelf, out, door, keeper, &asked),
        Ok(None) => commands::run(rt, alloc, words, shelf, out, gate, steps),
        Err(NoMemory) => Status::new(8),
    }
}
