//! The test at the end of a phase: whether rows solve the flow.

ghost use Rattle.std.specs.Prelude.{◌≡◌, ◌<◌, ◌≤◌, ◌+◌, ◌*◌, false, length, true};
ghost use Rattle.abstract_route.specs.Rows.{IsBelow, row_at};
ghost use Rattle.abstract_maps.specs.AbstractMap.{IsShort};
ghost use Rattle.possible_fixpoint.specs.Phases.{AddsNothing, AreLocalMet, AreMet, IsOnTheWay};
ghost use Rattle.possible_fixpoint.specs.Possible.{Solves};
ghost use Rattle.possible_fixpoint.specs.Standing.{Solvable};

use crate::analysis::Analysis;
use abstract_route::{Row, is_below};
use net_types::Arc;

// Whether what an arc gives is in the row of its receiver.
fn is_met<A: Analysis>(analysis: &A, rows: &[Row], arc: Arc) -> bool
    requires sender { (A.flow analysis.now).sender arc < length rows.now }
    requires receiver { (A.flow analysis.now).receiver arc < length rows.now }
    requires short { IsShort (row_at rows.now ((A.flow analysis.now).sender arc)) }
    ensures yes { result ≡ true → IsBelow ((A.flow analysis.now).gives arc (row_at rows.now ((A.flow analysis.now).sender arc))) (row_at rows.now ((A.flow analysis.now).receiver arc)) }
    ensures no { result ≡ false → IsBelow ((A.flow analysis.now).gives arc (row_at rows.now ((A.flow analysis.now).sender arc))) (row_at rows.now ((A.flow analysis.now).receiver arc)) → ⊥ }
{
    let given = analysis.gives(arc, &rows[usize::from(analysis.sender(arc))]);
    is_below(&given, &rows[usize::from(analysis.receiver(arc))])
}

// Whether an arc adds nothing.
fn adds_nothing<A: Analysis>(analysis: &A, rows: &[Row], arc: Arc) -> bool
    requires solvable { Solvable (A.flow analysis.now) }
    requires way { IsOnTheWay (A.flow analysis.now) rows.now }
    requires arc { arc.link < (A.flow analysis.now).links }
    ensures yes { result ≡ true → AddsNothing (A.flow analysis.now) rows.now arc }
    ensures no { result ≡ false → AddsNothing (A.flow analysis.now) rows.now arc → ⊥ }
{
    if !analysis.lives(arc) {
        return true;
    }
    is_met(analysis, rows, arc)
}

// Whether both arcs of a link add nothing, like those of the links before.
fn both_add_nothing<A: Analysis>(analysis: &A, rows: &[Row], link: u8) -> bool
    requires solvable { Solvable (A.flow analysis.now) }
    requires way { IsOnTheWay (A.flow analysis.now) rows.now }
    requires link { link < (A.flow analysis.now).links }
    ensures yes { result ≡ true → AreMet (A.flow analysis.now) rows.now (2 * link) → AreMet (A.flow analysis.now) rows.now (2 * (link + 1)) }
    ensures no { result ≡ false → AreMet (A.flow analysis.now) rows.now (2 * (A.flow analysis.now).links) → ⊥ }
{
    let (up, down) = Arc::both(link);
    if !adds_nothing(analysis, rows, up) {
        return false;
    }
    adds_nothing(analysis, rows, down)
}

// Whether no arc adds anything.
fn all_add_nothing<A: Analysis>(analysis: &A, rows: &[Row]) -> bool
    requires solvable { Solvable (A.flow analysis.now) }
    requires way { IsOnTheWay (A.flow analysis.now) rows.now }
    ensures yes { result ≡ true → AreMet (A.flow analysis.now) rows.now (2 * (A.flow analysis.now).links) }
    ensures no { result ≡ false → AreMet (A.flow analysis.now) rows.now (2 * (A.flow analysis.now).links) → ⊥ }
{
    for link in 0..analysis.links() {
        if !both_add_nothing(analysis, rows, link) {
            return false;
        }
    }
    true
}

// Whether each local row is in the row of its router.
fn have_local_rows<A: Analysis>(analysis: &A, rows: &[Row]) -> bool
    requires long { length rows.now ≡ (A.flow analysis.now).routers }
    ensures yes { result ≡ true → AreLocalMet (A.flow analysis.now) rows.now (A.flow analysis.now).routers }
    ensures no { result ≡ false → AreLocalMet (A.flow analysis.now) rows.now (A.flow analysis.now).routers → ⊥ }
{
    for router in 0..analysis.routers() {
        if !is_below(&analysis.source(router), &rows[usize::from(router)]) {
            return false;
        }
    }
    true
}

/// Whether rows below the least solution solve the flow.
pub(crate) fn is_solved<A: Analysis>(analysis: &A, rows: &[Row]) -> bool
    requires solvable { Solvable (A.flow analysis.now) }
    requires way { IsOnTheWay (A.flow analysis.now) rows.now }
    ensures yes { result ≡ true → Solves (A.flow analysis.now) rows.now }
    ensures no { result ≡ false → Solves (A.flow analysis.now) rows.now → ⊥ }
{
    if !have_local_rows(analysis, rows) {
        return false;
    }
    all_add_nothing(analysis, rows)
}
