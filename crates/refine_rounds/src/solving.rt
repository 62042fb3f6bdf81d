//! The result of a case.

ghost use Rattle.std.specs.Prelude.{◌≡◌, ◌<◌, ◌≤◌, ◌+◌, IfOk};
ghost use Rattle.refine_rounds.specs.Results.{CaseValue, CertainHold, Contains, DropsNothingHeld, result_of};

use crate::rounds::{Asked, settle};
use abstract_route::Row;
use net_types::{Bits64, FailSet, List, Net, NoMemory, Prefix};
use ospf_paths::distances;
use outside::{Gate, Steps};
use possible_fixpoint::Alive;
use std::alloc::Global;
use std::marker::Model;
use std::sync::ledger::Ledger;
use std::thread::Threads;

/// What is known of a prefix with these links failed, in every stable labelling. Only [`solve_case`] makes one.
#[derive(Debug, Drop)]
pub struct CaseResult {
    rows: List<Row>,
    certain: Bits64,
    alive: Alive,
    distances: List<Option<u64>>,
    idle: Bits64,
}

impl Model for CaseResult {
    ghost use Rattle.refine_rounds.specs.Results.{CaseValue};

    ghost Value = { CaseValue };

    ghost view = { λ r. record { rows = r.rows; certain = r.certain; alive = r.alive; distances = r.distances; idle = r.idle } };
}

impl CaseResult {
    /// The rows of all that each router may hold.
    pub fn rows(&self) -> &[Row]
        ensures { result.now ≡ self.now.rows }
    {
        self.rows.as_slice()
    }

    /// The routers that surely hold a route.
    pub fn certain(&self) -> Bits64
        ensures { result ≡ self.now.certain }
    {
        self.certain
    }

    /// The arcs and local routes that may be held.
    pub fn alive(&self) -> Alive
        ensures { result ≡ self.now.alive }
    {
        self.alive
    }

    /// The OSPF distances.
    pub fn distances(&self) -> &[Option<u64>]
        ensures { result.now ≡ self.now.distances }
    {
        self.distances.as_slice()
    }

    /// The links that are idle: in the first round no route may come over them, and they are on no least walk. So
    /// nothing changes where one of them fails too.
    pub fn idle(&self) -> Bits64
        ensures { result ≡ self.now.idle }
    {
        self.idle
    }
}

// The result of a case, whose one tick has been made.
fn solved<R: Threads + Sync, G: Gate + Sync>(
    rt: &R,
    alloc: Global,
    net: &Net,
    prefix: Prefix,
    failed: FailSet,
    workers: u8,
    gate: &G,
) -> Result<CaseResult, NoMemory>
    requires some { 0 < workers }
    requires few { workers ≤ 8 }
    ensures { IfOk result (λ found. found ≡ result_of net.now prefix failed) }
{
    net.valid();
    let distances = distances(alloc, net, prefix, failed)?;
    let asked = Asked {
        net,
        prefix,
        failed: &failed,
        distances: distances.as_slice(),
        workers,
    };
    let last = settle(rt, alloc, &asked, gate)?;
    Ok(CaseResult {
        rows: last.turn.rows,
        certain: last.turn.certain,
        alive: last.alive,
        distances,
        idle: last.idle,
    })
}

/// What is known of the prefix with these links failed: rounds of possible routes and certain routers, each
/// without what the one before it found beaten, to the first that drops nothing. Each call makes one tick. The answer is
/// the same for every number of workers, 1 to 8, and every gate. This project's own.
///
/// # Errors
///
/// [`NoMemory`] where there was none; the tick is made then too.
#[tactic(auto, using(crate::proofs::ResultLemmas::contains_if, crate::proofs::ResultLemmas::certain_if, crate::proofs::ResultLemmas::drops_if))]
pub fn solve_case<R: Threads + Sync, G: Gate + Sync, L: Ledger>(
    rt: &R,
    alloc: Global,
    net: &Net,
    prefix: Prefix,
    failed: FailSet,
    workers: u8,
    gate: &G,
    steps: &mut Steps<L>,
) -> Result<CaseResult, NoMemory>
    requires some { 0 < workers }
    requires few { workers ≤ 8 }
    ensures case { IfOk result (λ found. found ≡ result_of net.now prefix failed) }
    ensures containment { IfOk result (λ found. Contains net.now prefix failed found) }
    ensures certainty { IfOk result (λ found. CertainHold net.now prefix failed found) }
    ensures drops { IfOk result (λ found. DropsNothingHeld net.now prefix failed found) }
    ensures ticks { steps.new ≡ steps.old + 1 }
{
    net.valid();
    steps.tick();
    let found = solved(rt, alloc, net, prefix, failed, workers, gate)?;
    Ok(found)
}
