//! A worker's turns over its routers.

ghost use Rattle.std.specs.Prelude.{◌≡◌, ◌<◌, ◌≤◌, ◌+◌, ◌*◌, ◌%◌, false};
ghost use Rattle.possible_fixpoint.specs.Arrivals.{AreArrivals};
ghost use Rattle.possible_fixpoint.specs.Notebook.{IsKept};
ghost use Rattle.possible_fixpoint.specs.Standing.{Solvable};
ghost use Rattle.possible_fixpoint.specs.Working.{AllFed, AreRaised, Fed, Grown, HasNone, Stood, Works};

use crate::analysis::Analysis;
use crate::arrivals::arrivals;
use crate::gathering::{gather, offer};
use crate::lengths::lengthen_if_due;
use crate::notes::Notes;
use flow_board::{Board, Seat};
use net_types::Bits64;
use outside::Gate;

// Gathers for a router, and raises its row where there was anything new.
fn serve<A: Analysis>(
    analysis: &A,
    board: &Board,
    seat: Seat,
    notes: &mut Notes,
    sets: &[Bits64; 64],
    router: u8,
) -> (Seat, bool)
    requires solvable { Solvable (A.flow analysis.now) }
    requires mine { seat.board ≡ board.now.name }
    requires count { board.now.count ≡ (A.flow analysis.now).routers }
    requires works { Works (A.flow analysis.now) seat }
    requires sets { AreArrivals (A.flow analysis.now) (2 * (A.flow analysis.now).links) sets.now }
    requires within { router < (A.flow analysis.now).routers }
    requires kept { IsKept (A.flow analysis.now) notes.old }
    requires raised { AreRaised (A.flow analysis.now) notes.old.rows seat }
    ensures stood { Stood (A.flow analysis.now) seat result.0 notes.new result.1 }
    ensures fed { Fed (A.flow analysis.now) result.0 router }
{
    let (seat, grew) = gather(analysis, board, seat, notes, sets, router);
    if grew {
        offer(analysis, board, seat, notes, router)
    } else {
        (seat, false)
    }
}

// A router, where it is the worker's.
fn serve_own<A: Analysis>(
    analysis: &A,
    board: &Board,
    seat: Seat,
    notes: &mut Notes,
    sets: &[Bits64; 64],
    worker: u8,
    workers: u8,
    router: u8,
) -> (Seat, bool)
    requires solvable { Solvable (A.flow analysis.now) }
    requires mine { seat.board ≡ board.now.name }
    requires count { board.now.count ≡ (A.flow analysis.now).routers }
    requires works { Works (A.flow analysis.now) seat }
    requires sets { AreArrivals (A.flow analysis.now) (2 * (A.flow analysis.now).links) sets.now }
    requires some { 0 < workers }
    requires within { router < (A.flow analysis.now).routers }
    requires kept { IsKept (A.flow analysis.now) notes.old }
    requires raised { AreRaised (A.flow analysis.now) notes.old.rows seat }
    ensures stood { Stood (A.flow analysis.now) seat result.0 notes.new result.1 }
    ensures fed { router % workers ≡ worker → Fed (A.flow analysis.now) result.0 router }
{
    if router % workers == worker {
        serve(analysis, board, seat, notes, sets, router)
    } else {
        (seat, false)
    }
}

// One pass over the worker's routers, in ascending order: whether it changed a word.
fn pass<A: Analysis>(
    analysis: &A,
    board: &Board,
    mut seat: Seat,
    notes: &mut Notes,
    sets: &[Bits64; 64],
    worker: u8,
    workers: u8,
) -> (Seat, bool)
    requires solvable { Solvable (A.flow analysis.now) }
    requires mine { seat.board ≡ board.now.name }
    requires count { board.now.count ≡ (A.flow analysis.now).routers }
    requires works { Works (A.flow analysis.now) seat }
    requires sets { AreArrivals (A.flow analysis.now) (2 * (A.flow analysis.now).links) sets.now }
    requires some { 0 < workers }
    requires kept { IsKept (A.flow analysis.now) notes.old }
    requires raised { AreRaised (A.flow analysis.now) notes.old.rows seat }
    ensures stood { Stood (A.flow analysis.now) seat result.0 notes.new result.1 }
    ensures fed { AllFed (A.flow analysis.now) result.0 worker workers (A.flow analysis.now).routers }
{
    let mut changed = false;
    for router in 0..analysis.routers() {
        let (next, more) = serve_own(analysis, board, seat, notes, sets, worker, workers, router);
        seat = next;
        changed = changed | more;
    }
    (seat, changed)
}

// Turns until one changes no word, from the number `passed` on. Before each the worker passes the gate. It gives the number
// of the last.
fn turns<A: Analysis, G: Gate>(
    analysis: &A,
    gate: &G,
    board: &Board,
    sets: &[Bits64; 64],
    mut seat: Seat,
    worker: u8,
    workers: u8,
    passed: u64,
) -> (Seat, u64)
    requires solvable { Solvable (A.flow analysis.now) }
    requires mine { seat.board ≡ board.now.name }
    requires count { board.now.count ≡ (A.flow analysis.now).routers }
    requires works { Works (A.flow analysis.now) seat }
    requires none { HasNone (A.flow analysis.now) seat }
    requires sets { AreArrivals (A.flow analysis.now) (2 * (A.flow analysis.now).links) sets.now }
    requires some { 0 < workers }
    requires few { worker < 8 }
    ensures grown { Grown (A.flow analysis.now) seat result.0 false }
    ensures fed { AllFed (A.flow analysis.now) result.0 worker workers (A.flow analysis.now).routers }
{
    let mut notes = Notes::new();
    let mut turn = passed;
    loop {
        turn = turn.saturating_add(1);
        gate.pass(worker + 1, turn);
        let (next, changed) = pass(analysis, board, seat, &mut notes, sets, worker, workers);
        if !changed {
            return (next, turn);
        }
        seat = lengthen_if_due(analysis, board, next, &mut notes, worker, workers, turn);
    }
}

/// A worker's phase: turns until one changes no word. Before each it passes the gate, with the number of its turn over
/// all phases. It gives the number of the last.
pub(crate) fn work<A: Analysis, G: Gate>(
    analysis: &A,
    gate: &G,
    board: &Board,
    seat: Seat,
    worker: u8,
    workers: u8,
    passed: u64,
) -> (Seat, u64)
    requires solvable { Solvable (A.flow analysis.now) }
    requires mine { seat.board ≡ board.now.name }
    requires count { board.now.count ≡ (A.flow analysis.now).routers }
    requires works { Works (A.flow analysis.now) seat }
    requires none { HasNone (A.flow analysis.now) seat }
    requires some { 0 < workers }
    requires few { worker < 8 }
    ensures grown { Grown (A.flow analysis.now) seat result.0 false }
    ensures fed { AllFed (A.flow analysis.now) result.0 worker workers (A.flow analysis.now).routers }
{
    let sets = arrivals(analysis);
    turns(analysis, gate, board, &sets, seat, worker, workers, passed)
}
