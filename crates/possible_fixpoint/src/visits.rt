//! Arcs are asked what they give.

ghost use Rattle.std.specs.Prelude.{◌≡◌, ◌<◌, ◌≤◌, ◌+◌, ◌*◌, false, length, slice_set, true, if◌then◌else◌};
ghost use Rattle.abstract_route.specs.Rows.{IsBelow, joined, row_at};
ghost use Rattle.abstract_maps.specs.AbstractMap.{IsShort};
ghost use Rattle.possible_fixpoint.specs.Marks.{Improved, less, number};
ghost use Rattle.possible_fixpoint.specs.Standing.{Advanced, Solvable, Standing, Stands, Visited};

use crate::analysis::Analysis;
use crate::marks::Marks;
use abstract_route::{Row, is_below, join};
use net_types::{Arc, Bits64};

// Joins a row into that of a router, and says whether that changed it.
fn raised(rows: &mut [Row], router: u8, row: &Row) -> bool
    requires { router < length rows.old }
    ensures rows { rows.new ≡ (if result then slice_set rows.old router (joined (row_at rows.old router) row.now) else rows.old) }
    ensures below { result ≡ false → IsBelow row.now (row_at rows.old router) }
    ensures above { result ≡ true → IsBelow row.now (row_at rows.old router) → ⊥ }
{
    let old = rows[usize::from(router)];
    if is_below(row, &old) {
        false
    } else {
        rows[usize::from(router)] = join(&old, row);
        true
    }
}

/// Joins a row into that of a router, which is marked if that changed it.
pub(crate) fn improve(rows: &mut [Row], changed: Bits64, router: u8, row: &Row) -> Bits64
    requires inside { router < length rows.old }
    requires few { length rows.old ≤ 64 }
    ensures { Improved router row.now rows.old rows.new changed result }
{
    if raised(rows, router, row) {
        changed.with(router)
    } else {
        changed
    }
}

// Asks an arc: notes whether it gives something, and joins what it gives into its receiver's row.
fn visit<A: Analysis>(analysis: &A, rows: &mut [Row], marks: &Marks, arc: Arc) -> Marks
    requires few { (A.flow analysis.now).routers ≤ 64 }
    requires arc { arc.link < 64 }
    requires sender { (A.flow analysis.now).sender arc < length rows.old }
    requires receiver { (A.flow analysis.now).receiver arc < length rows.old }
    requires long { length rows.old ≡ (A.flow analysis.now).routers }
    requires short { IsShort (row_at rows.old ((A.flow analysis.now).sender arc)) }
    ensures { Visited (A.flow analysis.now) arc rows.old rows.new marks.now.gave result.gave marks.now.changed result.changed }
{
    let row = analysis.gives(arc, &rows[usize::from(analysis.sender(arc))]);
    Marks {
        gave: marks.gave.noting(arc, &row),
        changed: improve(rows, marks.changed, analysis.receiver(arc), &row),
    }
}

// Asks an arc, if it lives and begins at the router.
fn ask_arc<A: Analysis>(
    analysis: &A,
    rows: &mut [Row],
    marks: &Marks,
    router: u8,
    arc: Arc,
) -> Marks
    requires solvable { Solvable (A.flow analysis.now) }
    requires arc { arc.link < (A.flow analysis.now).links }
    requires standing { Standing (A.flow analysis.now) router (number arc) rows.old marks.now.gave marks.now.changed }
    ensures standing { Standing (A.flow analysis.now) router (number arc + 1) rows.new result.gave result.changed }
    ensures advanced { Advanced rows.old rows.new marks.now.changed result.changed }
{
    if analysis.sender(arc) == router && analysis.lives(arc) {
        visit(analysis, rows, marks, arc)
    } else {
        *marks
    }
}

// Asks both arcs of a link, as far as they live and begin at the router.
fn ask_link<A: Analysis>(
    analysis: &A,
    rows: &mut [Row],
    marks: &Marks,
    router: u8,
    link: u8,
) -> Marks
    requires solvable { Solvable (A.flow analysis.now) }
    requires link { link < (A.flow analysis.now).links }
    requires standing { Standing (A.flow analysis.now) router (2 * link) rows.old marks.now.gave marks.now.changed }
    ensures standing { Standing (A.flow analysis.now) router (2 * (link + 1)) rows.new result.gave result.changed }
    ensures advanced { Advanced rows.old rows.new marks.now.changed result.changed }
{
    let (up, down) = Arc::both(link);
    let asked = ask_arc(analysis, rows, marks, router, up);
    ask_arc(analysis, rows, &asked, router, down)
}

// Asks the living arcs from the router.
fn ask_links<A: Analysis>(analysis: &A, rows: &mut [Row], marks: &Marks, router: u8) -> Marks
    requires solvable { Solvable (A.flow analysis.now) }
    requires standing { Standing (A.flow analysis.now) router 0 rows.old marks.now.gave marks.now.changed }
    ensures standing { Stands (A.flow analysis.now) rows.new result.gave result.changed }
    ensures advanced { Advanced rows.old rows.new marks.now.changed result.changed }
{
    let mut asked = *marks;
    for link in 0..analysis.links() {
        asked = ask_link(analysis, rows, &asked, router, link);
    }
    asked
}

/// Takes the mark of a router, and asks the living arcs from it.
pub(crate) fn ask<A: Analysis>(analysis: &A, rows: &mut [Row], marks: &Marks, router: u8) -> Marks
    requires solvable { Solvable (A.flow analysis.now) }
    requires router { router < (A.flow analysis.now).routers }
    requires standing { Stands (A.flow analysis.now) rows.old marks.now.gave marks.now.changed }
    ensures standing { Stands (A.flow analysis.now) rows.new result.gave result.changed }
    ensures advanced { Advanced rows.old rows.new (less marks.now.changed router) result.changed }
{
    let left = Marks {
        changed: marks.changed.without(router),
        ..*marks
    };
    ask_links(analysis, rows, &left, router)
}
