//! The routers that feed each other, whose paths may be as long as the cut in every solution.

ghost use Rattle.std.specs.Prelude.{◌≡◌, ◌<◌, ◌≤◌, ◌+◌, ◌*◌, length};
ghost use Rattle.possible_fixpoint.specs.Climbing.{raised_row};
ghost use Rattle.possible_fixpoint.specs.Feeding.{AreLiving, AreReceivers, IsGreatestFed};
ghost use Rattle.possible_fixpoint.specs.Marks.{number};
ghost use Rattle.possible_fixpoint.specs.Standing.{Advanced, IsLengthened, Solvable, Stands};

use crate::analysis::Analysis;
use crate::marks::{ArcSet, Marks};
use crate::visits::improve;
use abstract_route::{Range, Row};
use net_types::{Arc, Bits64};

// The routers found so far, with the one that the arc brings something from the set.
fn with_receiver<A: Analysis>(
    analysis: &A,
    gave: &ArcSet,
    set: Bits64,
    found: Bits64,
    arc: Arc,
) -> Bits64
    requires solvable { Solvable (A.flow analysis.now) }
    requires living { AreLiving (A.flow analysis.now) gave.now }
    requires inside { arc.link < (A.flow analysis.now).links }
    requires before { AreReceivers (A.flow analysis.now) gave.now set (number arc) found }
    ensures found { AreReceivers (A.flow analysis.now) gave.now set (number arc + 1) result }
{
    if gave.has(arc) && set.has(analysis.sender(arc)) {
        found.with(analysis.receiver(arc))
    } else {
        found
    }
}

// The same for both arcs of a link.
fn with_receivers<A: Analysis>(
    analysis: &A,
    gave: &ArcSet,
    set: Bits64,
    found: Bits64,
    link: u8,
) -> Bits64
    requires solvable { Solvable (A.flow analysis.now) }
    requires living { AreLiving (A.flow analysis.now) gave.now }
    requires inside { link < (A.flow analysis.now).links }
    requires before { AreReceivers (A.flow analysis.now) gave.now set (2 * link) found }
    ensures found { AreReceivers (A.flow analysis.now) gave.now set (2 * (link + 1)) result }
{
    let (up, down) = Arc::both(link);
    let found = with_receiver(analysis, gave, set, found, up);
    with_receiver(analysis, gave, set, found, down)
}

// The routers that some arc brings something from the set.
fn receivers<A: Analysis>(analysis: &A, gave: &ArcSet, set: Bits64) -> Bits64
    requires solvable { Solvable (A.flow analysis.now) }
    requires living { AreLiving (A.flow analysis.now) gave.now }
    ensures found { AreReceivers (A.flow analysis.now) gave.now set (2 * (A.flow analysis.now).links) result }
{
    let mut found = Bits64::EMPTY;
    for link in 0..analysis.links() {
        found = with_receivers(analysis, gave, set, found, link);
    }
    found
}

/// The greatest set whose members each are given something by a member: the arcs are those that were seen to give.
pub(crate) fn fed<A: Analysis>(analysis: &A, gave: &ArcSet) -> Bits64
    requires solvable { Solvable (A.flow analysis.now) }
    requires living { AreLiving (A.flow analysis.now) gave.now }
    ensures greatest { IsGreatestFed (A.flow analysis.now) gave.now result }
{
    let mut set = Bits64::FULL;
    let mut next = set.common(receivers(analysis, gave, set));
    while next != set {
        set = next;
        next = set.common(receivers(analysis, gave, set));
    }
    set
}

/// The row with paths of at least so many entries left open.
pub(crate) fn longer(row: &Row, most: u64) -> Row
    ensures { result ≡ raised_row most row.now }
{
    let long = row.length;
    Row {
        length: Range {
            low: long.low,
            high: if long.high < most { most } else { long.high },
        },
        ..*row
    }
}

// Lengthens the row of a router, if it is a member.
fn lengthen_member(rows: &mut [Row], changed: Bits64, set: Bits64, most: u64, router: u8) -> Bits64
    requires inside { router < length rows.old }
    requires few { length rows.old ≤ 64 }
    ensures { IsLengthened most set router rows.old rows.new changed result }
{
    if set.has(router) {
        let row = longer(&rows[usize::from(router)], most);
        improve(rows, changed, router, &row)
    } else {
        changed
    }
}

/// Lengthens the rows of the routers that feed each other, where every solution has them so long.
pub(crate) fn lengthen<A: Analysis>(analysis: &A, rows: &mut [Row], marks: &Marks) -> Marks
    requires solvable { Solvable (A.flow analysis.now) }
    requires standing { Stands (A.flow analysis.now) rows.old marks.now.gave marks.now.changed }
    ensures standing { Stands (A.flow analysis.now) rows.new result.gave result.changed }
    ensures advanced { Advanced rows.old rows.new marks.now.changed result.changed }
{
    let set = fed(analysis, &marks.gave);
    let most = 21 * u64::from(analysis.routers());
    let mut changed = marks.changed;
    for router in 0..analysis.routers() {
        changed = lengthen_member(rows, changed, set, most, router);
    }
    Marks { changed, ..*marks }
}
