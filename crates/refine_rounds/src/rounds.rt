//! Rounds, to the first that drops nothing.

ghost use Rattle.std.specs.Prelude.{◌≡◌, ◌<◌, ◌≤◌, ◌↔◌, All, IfOk, IsTrue};
ghost use Rattle.std.specs.Thread.{IsSync};
ghost use Rattle.net_types.specs.Distance.{AreDistances};
ghost use Rattle.abstract_maps.specs.AbstractMap.{IsShort};
ghost use Rattle.certain_fixpoint.specs.Certain.{round_read};
ghost use Rattle.certain_fixpoint.specs.CertainSet.{certain_set};
ghost use Rattle.possible_fixpoint.specs.Flow.{flow_of};
ghost use Rattle.possible_fixpoint.specs.Held.{all_alive};
ghost use Rattle.possible_fixpoint.specs.Possible.{possible};
ghost use Rattle.refine_rounds.specs.Idle.{idle_set};
ghost use Rattle.refine_rounds.specs.Rounds.{round_of};
ghost use Rattle.refine_rounds.specs.Steps.{last_alive, step};
ghost use Rattle.refine_rounds.specs.Turning.{ReachedAsked, TurnAsked};

use crate::arrivals::arrivals_of;
use crate::beating::Found;
use crate::dropping::step;
use crate::idle::idle_links;
use abstract_route::Row;
use certain_fixpoint::{Reading, solve_certain};
use net_types::{Bits64, FailSet, List, Net, NoMemory, Prefix};
use outside::Gate;
use possible_fixpoint::{Alive, solve_possible};
use std::alloc::Global;
use std::thread::Threads;

/// A prefix of a network, with these links failed and these OSPF distances, for so many workers.
#[derive(Clone, Copy)]
pub(crate) struct Asked<'a> {
    pub net: &'a Net,
    pub prefix: Prefix,
    pub failed: &'a FailSet,
    pub distances: &'a [Option<u64>],
    pub workers: u8,
}

/// What a round finds, and what is alive after it.
#[derive(Debug, Drop)]
pub(crate) struct Turn {
    pub rows: List<Row>,
    pub certain: Bits64,
    pub next: Alive,
}

/// The last round, what was alive in it, and the links that the first round found idle.
#[derive(Debug, Drop)]
pub(crate) struct Last {
    pub alive: Alive,
    pub turn: Turn,
    pub idle: Bits64,
}

// Nothing has been dropped.
fn all_alive() -> Alive
    ensures { result ≡ all_alive }
{
    Alive {
        up: Bits64::FULL,
        down: Bits64::FULL,
        locals: Bits64::FULL,
    }
}

// Whether two are the same.
fn are_same(a: &Alive, b: &Alive) -> bool
    ensures { IsTrue result ↔ (a.now ≡ b.now) }
{
    a.up == b.up && a.down == b.down && a.locals == b.locals
}

// The rows of what is possible, with this alive.
#[tactic(auto, using(crate::proofs::ResultLemmas::short_if))]
fn possible_rows<R: Threads + Sync, G: Gate + Sync>(
    rt: &R,
    alloc: Global,
    asked: &Asked<'_>,
    gate: &G,
    alive: &Alive,
) -> Result<List<Row>, NoMemory>
    requires distances { AreDistances asked.now.net.now asked.now.prefix asked.now.failed.now asked.now.distances.now }
    requires some { 0 < asked.now.workers }
    requires few { asked.now.workers ≤ 8 }
    ensures rows { IfOk result (λ rows. rows ≡ possible (flow_of asked.now.net.now asked.now.prefix asked.now.failed.now asked.now.distances.now alive.now)) }
    ensures short { IfOk result (λ rows. All IsShort rows) }
{
    asked.net.valid();
    let rows = solve_possible(
        rt,
        alloc,
        asked.net,
        asked.prefix,
        *asked.failed,
        asked.distances,
        alive,
        asked.workers,
        gate,
    )?;
    Ok(rows)
}

// What is alive after the round that is read.
fn after(
    alloc: Global,
    reading: &Reading<'_>,
    certain: Bits64,
    alive: &Alive,
) -> Result<Alive, NoMemory>
    requires short { All IsShort reading.now.rows.now }
    requires certain { certain ≡ certain_set (round_read reading.now) }
    ensures { IfOk result (λ next. next ≡ step (round_read reading.now) alive.now) }
{
    let arrivals = arrivals_of(alloc, reading, certain)?;
    let found = Found {
        reading,
        certain,
        arrivals: arrivals.as_slice(),
    };
    Ok(step(&found, alive))
}

// One round.
fn one_round<R: Threads + Sync, G: Gate + Sync>(
    rt: &R,
    alloc: Global,
    asked: &Asked<'_>,
    gate: &G,
    alive: &Alive,
) -> Result<Turn, NoMemory>
    requires distances { AreDistances asked.now.net.now asked.now.prefix asked.now.failed.now asked.now.distances.now }
    requires some { 0 < asked.now.workers }
    requires few { asked.now.workers ≤ 8 }
    ensures { IfOk result (λ turn. TurnAsked asked.now alive.now turn) }
{
    asked.net.valid();
    let rows = possible_rows(rt, alloc, asked, gate, alive)?;
    let reading = Reading {
        net: asked.net,
        prefix: asked.prefix,
        failed: asked.failed,
        distances: asked.distances,
        rows: rows.as_slice(),
    };
    let certain = solve_certain(
        asked.net,
        asked.prefix,
        *asked.failed,
        rows.as_slice(),
        asked.distances,
    );
    let next = after(alloc, &reading, certain, alive)?;
    Ok(Turn {
        rows,
        certain,
        next,
    })
}

// The idle links, by the rows of the first round.
#[tactic(auto, using(crate::proofs::ResultLemmas::short_if))]
fn idle_at_first(asked: &Asked<'_>, rows: &[Row]) -> Bits64
    requires distances { AreDistances asked.now.net.now asked.now.prefix asked.now.failed.now asked.now.distances.now }
    requires rows { rows.now ≡ possible (flow_of asked.now.net.now asked.now.prefix asked.now.failed.now asked.now.distances.now all_alive) }
    ensures { result ≡ idle_set (round_of asked.now.net.now asked.now.prefix asked.now.failed.now asked.now.distances.now all_alive) }
{
    asked.net.valid();
    let reading = Reading {
        net: asked.net,
        prefix: asked.prefix,
        failed: asked.failed,
        distances: asked.distances,
        rows,
    };
    idle_links(&reading)
}

/// Rounds to the first that drops nothing.
///
/// # Errors
///
/// [`NoMemory`] where there was none for a round.
pub(crate) fn settle<R: Threads + Sync, G: Gate + Sync>(
    rt: &R,
    alloc: Global,
    asked: &Asked<'_>,
    gate: &G,
) -> Result<Last, NoMemory>
    requires distances { AreDistances asked.now.net.now asked.now.prefix asked.now.failed.now asked.now.distances.now }
    requires some { 0 < asked.now.workers }
    requires few { asked.now.workers ≤ 8 }
    ensures alive { IfOk result (λ last. last.alive ≡ last_alive asked.now.net.now asked.now.prefix asked.now.failed.now asked.now.distances.now) }
    ensures turn { IfOk result (λ last. TurnAsked asked.now last.alive last.turn) }
    ensures idle { IfOk result (λ last. last.idle ≡ idle_set (round_of asked.now.net.now asked.now.prefix asked.now.failed.now asked.now.distances.now all_alive)) }
{
    let mut alive = all_alive();
    let mut found = one_round(rt, alloc, asked, gate, &alive)?;
    let idle = idle_at_first(asked, found.rows.as_slice());
    while !are_same(&found.next, &alive) {
        alive = found.next;
        found = one_round(rt, alloc, asked, gate, &alive)?;
    }
    Ok(Last {
        alive,
        turn: found,
        idle,
    })
}
