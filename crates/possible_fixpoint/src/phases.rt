//! Phases of all workers, until the rows solve the flow.

ghost use Rattle.std.specs.Prelude.{◌≡◌, ◌<◌, ◌≤◌, IfOk, replicate};
ghost use Rattle.abstract_route.specs.Rows.{bottom};
ghost use Rattle.possible_fixpoint.specs.Phases.{IsOnTheWay, Phased};
ghost use Rattle.possible_fixpoint.specs.Possible.{possible};
ghost use Rattle.possible_fixpoint.specs.Standing.{Solvable};

use crate::analysis::Analysis;
use crate::crew::{Shift, crew};
use crate::ending::is_solved;
use abstract_route::{Row, bottom_value};
use flow_board::{Board, Roof};
use net_types::{List, NoMemory};
use outside::Gate;
use std::alloc::Global;
use std::marker::Brand;
use std::thread::Threads;

// So many rows of no route.
fn bottoms(alloc: Global, count: u8) -> Result<List<Row>, NoMemory>
    ensures { IfOk result (λ rows. rows ≡ replicate count bottom) }
{
    let mut rows = Vec::new(alloc);
    for _ in 0..count {
        rows.push(bottom_value())?;
    }
    Ok(List::from_vec(rows))
}

// One phase under the roof of `K`: the workers' turns over a board that is opened at the rows.
fn phase<R: Threads + Sync, A: Analysis + Sync, G: Gate + Sync, K: Roof>(
    rt: &R,
    alloc: Global,
    analysis: &A,
    gate: &G,
    rows: &[Row],
    workers: u8,
    turns: &mut [u64; 8],
) -> Result<List<Row>, NoMemory>
    requires solvable { Solvable (A.flow analysis.now) }
    requires roof { K.rows ≡ possible (A.flow analysis.now) }
    requires some { 0 < (A.flow analysis.now).routers }
    requires way { IsOnTheWay (A.flow analysis.now) rows.now }
    requires one { 0 < workers }
    requires eight { workers ≤ 8 }
    ensures { IfOk result (λ ys. Phased (A.flow analysis.now) rows.now ys) }
{
    let (board, seat) = Board::open::<K>(alloc, rows)?;
    let shift = Shift {
        seat,
        turns: *turns,
    };
    let shift = crew(rt, analysis, gate, &board, shift, 0, workers, workers);
    let Shift { seat, turns: last } = shift;
    *turns = last;
    board.close(alloc, seat)
}

// Phases until the rows solve the flow.
fn settle<R: Threads + Sync, A: Analysis + Sync, G: Gate + Sync>(
    rt: &R,
    alloc: Global,
    analysis: &A,
    gate: &G,
    start: List<Row>,
    workers: u8,
) -> Result<List<Row>, NoMemory>
    requires solvable { Solvable (A.flow analysis.now) }
    requires some { 0 < (A.flow analysis.now).routers }
    requires way { IsOnTheWay (A.flow analysis.now) start }
    requires one { 0 < workers }
    requires eight { workers ≤ 8 }
    ensures { IfOk result (λ rows. rows ≡ possible (A.flow analysis.now)) }
{
    let mut rows = start;
    let mut turns = [0u64; 8];
    loop {
        rows = phase::<R, A, G, Brand>(
            rt,
            alloc,
            analysis,
            gate,
            rows.as_slice(),
            workers,
            &mut turns,
        )?;
        if is_solved(analysis, rows.as_slice()) {
            return Ok(rows);
        }
    }
}

/// The least solution, by so many workers, each but one in a thread of its own.
pub(crate) fn solve<R: Threads + Sync, A: Analysis + Sync, G: Gate + Sync>(
    rt: &R,
    alloc: Global,
    analysis: &A,
    workers: u8,
    gate: &G,
) -> Result<List<Row>, NoMemory>
    requires solvable { Solvable (A.flow analysis.now) }
    requires one { 0 < workers }
    requires eight { workers ≤ 8 }
    ensures { IfOk result (λ rows. rows ≡ possible (A.flow analysis.now)) }
{
    let rows = bottoms(alloc, analysis.routers())?;
    if analysis.routers() == 0 {
        return Ok(rows);
    }
    settle(rt, alloc, analysis, gate, rows, workers)
}
