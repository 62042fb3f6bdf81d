//! Workers side by side, each in a thread of its own.

ghost use Rattle.std.specs.Prelude.{◌≡◌, ◌<◌, ◌≤◌, ◌+◌, false};
ghost use Rattle.std.specs.Thread.{IsSync};
ghost use Rattle.flow_board.specs.Pass.{both_raises};
ghost use Rattle.possible_fixpoint.specs.Standing.{Solvable};
ghost use Rattle.possible_fixpoint.specs.Working.{AllFedIn, Grown, HasNone, Works};

use crate::analysis::Analysis;
use crate::turns::work;
use flow_board::{Board, Seat};
use outside::Gate;
use std::thread::{Threads, join};

/// The seat of some workers, and the number of the last turn of each of the eight.
#[derive(Drop)]
pub(crate) struct Shift {
    pub seat: Seat,
    pub turns: [u64; 8],
}

// The turns of the workers before `middle` as in the one, and of the others as in the other.
fn both_turns(one: &[u64; 8], other: &[u64; 8], middle: u8) -> [u64; 8] {
    let mut turns = *one;
    for worker in usize::from(middle)..8 {
        turns[worker] = other[worker];
    }
    turns
}

// Two shifts that know the same.
fn parted(board: &Board, shift: Shift) -> (Shift, Shift)
    requires mine { shift.seat.board ≡ board.now.name }
    ensures { (result.0.seat ≡ shift.seat) × (result.1.seat ≡ shift.seat) }
{
    let Shift { seat, turns } = shift;
    let (one, other) = board.split(seat);
    (Shift { seat: one, turns }, Shift { seat: other, turns })
}

// One shift with what both have raised.
fn together(board: &Board, one: Shift, other: Shift, middle: u8) -> Shift
    requires mine { one.seat.board ≡ board.now.name }
    requires theirs { other.seat.board ≡ board.now.name }
    ensures { result.seat ≡ record one.seat { own = both_raises one.seat.own other.seat.own } }
{
    let Shift { seat, turns } = one;
    let Shift {
        seat: second,
        turns: after,
    } = other;
    let seat = board.join(seat, second);
    Shift {
        seat,
        turns: both_turns(&turns, &after, middle),
    }
}

// One worker, in this thread.
fn alone<A: Analysis, G: Gate>(
    analysis: &A,
    gate: &G,
    board: &Board,
    shift: Shift,
    worker: u8,
    workers: u8,
) -> Shift
    requires solvable { Solvable (A.flow analysis.now) }
    requires mine { shift.seat.board ≡ board.now.name }
    requires count { board.now.count ≡ (A.flow analysis.now).routers }
    requires works { Works (A.flow analysis.now) shift.seat }
    requires none { HasNone (A.flow analysis.now) shift.seat }
    requires some { 0 < workers }
    requires few { worker < 8 }
    ensures grown { Grown (A.flow analysis.now) shift.seat result.seat false }
    ensures fed { AllFedIn (A.flow analysis.now) result.seat worker 1 workers }
{
    let Shift { seat, mut turns } = shift;
    let passed = turns[usize::from(worker)];
    let (seat, last) = work(analysis, gate, board, seat, worker, workers, passed);
    turns[usize::from(worker)] = last;
    Shift { seat, turns }
}

/// The phase of `many` workers from `first` on, each with a seat of its own. All but one run in other threads.
pub(crate) fn crew<R: Threads + Sync, A: Analysis + Sync, G: Gate + Sync>(
    rt: &R,
    analysis: &A,
    gate: &G,
    board: &Board,
    shift: Shift,
    first: u8,
    many: u8,
    workers: u8,
) -> Shift
    requires solvable { Solvable (A.flow analysis.now) }
    requires mine { shift.seat.board ≡ board.now.name }
    requires count { board.now.count ≡ (A.flow analysis.now).routers }
    requires works { Works (A.flow analysis.now) shift.seat }
    requires none { HasNone (A.flow analysis.now) shift.seat }
    requires some { 0 < many }
    requires within { first + many ≤ workers }
    requires few { workers ≤ 8 }
    ensures grown { Grown (A.flow analysis.now) shift.seat result.seat false }
    ensures fed { AllFedIn (A.flow analysis.now) result.seat first many workers }
{
    if many == 1 {
        return alone(analysis, gate, board, shift, first, workers);
    }
    let left = many / 2;
    let right = many - left;
    let middle = first + left;
    let (one, other) = parted(board, shift);
    let (a, b) = join(
        rt,
        move || -> Shift
            requires { IsSync R.row × IsSync A.row × IsSync G.row × Solvable (A.flow analysis.now) × (one.seat.board ≡ board.now.name) × (board.now.count ≡ (A.flow analysis.now).routers) × Works (A.flow analysis.now) one.seat × HasNone (A.flow analysis.now) one.seat × (0 < left) × (first + left ≤ workers) × (workers ≤ 8) }
            ensures { Grown (A.flow analysis.entry.now) one.seat result.seat false × AllFedIn (A.flow analysis.entry.now) result.seat first left workers }
        { crew(rt, analysis, gate, board, one, first, left, workers) },
        move || -> Shift
            requires { IsSync R.row × IsSync A.row × IsSync G.row × Solvable (A.flow analysis.now) × (other.seat.board ≡ board.now.name) × (board.now.count ≡ (A.flow analysis.now).routers) × Works (A.flow analysis.now) other.seat × HasNone (A.flow analysis.now) other.seat × (0 < right) × (middle + right ≤ workers) × (workers ≤ 8) }
            ensures { Grown (A.flow analysis.entry.now) other.seat result.seat false × AllFedIn (A.flow analysis.entry.now) result.seat middle right workers }
        { crew(rt, analysis, gate, board, other, middle, right, workers) },
    );
    together(board, a, b, middle)
}
