//! Passes over the routers whose row has changed, until there are none.

ghost use Rattle.std.specs.Prelude.{◌≡◌, ◌<◌, ◌≤◌, IfOk};
ghost use Rattle.possible_fixpoint.specs.Possible.{possible};
ghost use Rattle.possible_fixpoint.specs.Standing.{AreFirst, AreSources, Solvable, Stands, Turned, place};

use crate::analysis::Analysis;
use crate::feeding::lengthen;
use crate::marks::{ArcSet, Marks};
use crate::visits::ask;
use abstract_route::Row;
use net_types::Bits64;
use std::alloc::{AllocError, Global};

// The router at a place of a pass, which goes up or down.
fn router_at(up: bool, count: u8, k: u8) -> u8
    requires { k < count }
    ensures { result ≡ place up count k }
{
    if up { k } else { count - 1 - k }
}

// Asks the arcs from each router that is marked.
fn pass<A: Analysis>(analysis: &A, rows: &mut [Row], marks: &Marks, up: bool) -> Marks
    requires solvable { Solvable (A.flow analysis.now) }
    requires standing { Stands (A.flow analysis.now) rows.old marks.now.gave marks.now.changed }
    ensures standing { Stands (A.flow analysis.now) rows.new result.gave result.changed }
    ensures turned { Turned rows.old rows.new result.changed }
{
    let mut now = *marks;
    let count = analysis.routers();
    for k in 0..count {
        let router = router_at(up, count, k);
        if now.changed.has(router) {
            now = ask(analysis, rows, &now, router);
        }
    }
    now
}

// A pass, and then the lengths after the passes 1, 2, 4, 8 and so on. Passes go up and down in turn.
fn turn<A: Analysis>(analysis: &A, rows: &mut [Row], marks: &Marks, number: u64) -> Marks
    requires solvable { Solvable (A.flow analysis.now) }
    requires standing { Stands (A.flow analysis.now) rows.old marks.now.gave marks.now.changed }
    ensures standing { Stands (A.flow analysis.now) rows.new result.gave result.changed }
    ensures turned { Turned rows.old rows.new result.changed }
{
    let passed = pass(analysis, rows, marks, number % 2 == 1);
    if number.is_power_of_two() {
        lengthen(analysis, rows, &passed)
    } else {
        passed
    }
}

// Turns until no router is marked.
fn settle<A: Analysis>(analysis: &A, rows: &mut [Row], begun: &Marks)
    requires solvable { Solvable (A.flow analysis.now) }
    requires standing { Stands (A.flow analysis.now) rows.old begun.now.gave begun.now.changed }
    ensures { rows.new ≡ possible (A.flow analysis.now) }
{
    let mut marks = *begun;
    let mut number: u64 = 0;
    while !marks.changed.is_empty() {
        number = number.saturating_add(1);
        marks = turn(analysis, rows, &marks, number);
    }
}

// The row of each router's living local route.
fn sources<A: Analysis>(alloc: Global, analysis: &A) -> Result<Vec<Row>, AllocError>
    ensures { IfOk result (λ rows. AreSources (A.flow analysis.now) (A.flow analysis.now).routers rows.items) }
{
    let mut rows = Vec::new(alloc);
    for router in 0..analysis.routers() {
        rows.push(analysis.source(router))?;
    }
    Ok(rows)
}

// The set of the first routers.
fn first_routers(count: u8) -> Bits64
    requires { count ≤ 64 }
    ensures { AreFirst count result }
{
    let mut set = Bits64::EMPTY;
    for router in 0..count {
        set = set.with(router);
    }
    set
}

/// The least solution. Memory is taken for the rows alone.
pub(crate) fn solve<A: Analysis>(alloc: Global, analysis: &A) -> Result<Vec<Row>, AllocError>
    requires solvable { Solvable (A.flow analysis.now) }
    ensures { IfOk result (λ rows. rows.items ≡ possible (A.flow analysis.now)) }
{
    let mut rows = sources(alloc, analysis)?;
    let begun = Marks {
        gave: ArcSet::EMPTY,
        changed: first_routers(analysis.routers()),
    };
    settle(analysis, &mut rows, &begun);
    Ok(rows)
}
