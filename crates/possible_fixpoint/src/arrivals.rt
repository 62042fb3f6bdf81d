//! The links that bring something to each router, so that no worker walks over those that do not.

ghost use Rattle.std.specs.Prelude.{ℕ, ◌≡◌, ◌<◌, ◌≤◌, ◌+◌, ◌*◌, false};
ghost use Rattle.net_types.specs.Sets.{has};
ghost use Rattle.possible_fixpoint.specs.Arrivals.{AreArrivals};
ghost use Rattle.possible_fixpoint.specs.Marks.{number};
ghost use Rattle.possible_fixpoint.specs.Standing.{Solvable};

use crate::analysis::Analysis;
use net_types::{Arc, Bits64};

// Notes the link of an arc at the arc's receiver, if the arc lives.
fn note_arc<A: Analysis>(analysis: &A, sets: &mut [Bits64; 64], arc: Arc)
    requires solvable { Solvable (A.flow analysis.now) }
    requires inside { arc.link < (A.flow analysis.now).links }
    requires before { AreArrivals (A.flow analysis.now) (number arc) sets.old }
    ensures { AreArrivals (A.flow analysis.now) (number arc + 1) sets.new }
{
    if analysis.lives(arc) {
        let router = usize::from(analysis.receiver(arc));
        sets[router] = sets[router].with(arc.link);
    }
}

// The same for both arcs of a link.
fn note_link<A: Analysis>(analysis: &A, sets: &mut [Bits64; 64], link: u8)
    requires solvable { Solvable (A.flow analysis.now) }
    requires inside { link < (A.flow analysis.now).links }
    requires before { AreArrivals (A.flow analysis.now) (2 * link) sets.old }
    ensures { AreArrivals (A.flow analysis.now) (2 * (link + 1)) sets.new }
{
    let (up, down) = Arc::both(link);
    note_arc(analysis, sets, up);
    note_arc(analysis, sets, down);
}

/// For each router the links with a living arc into it.
pub(crate) fn arrivals<A: Analysis>(analysis: &A) -> [Bits64; 64]
    requires solvable { Solvable (A.flow analysis.now) }
    ensures { AreArrivals (A.flow analysis.now) (2 * (A.flow analysis.now).links) result }
{
    let mut sets = [Bits64::EMPTY; 64];
    for link in 0..analysis.links() {
        note_link(analysis, &mut sets, link);
    }
    sets
}

/// The least member of the set from a number on, or 64.
pub(crate) fn first_from(set: Bits64, from: u8) -> u8
    requires { from ≤ 64 }
    ensures within { result ≤ 64 }
    ensures past { from ≤ result }
    ensures none { (x : ℕ) → from ≤ x → x < result → has set x ≡ false }
{
    if from >= 64 {
        return 64;
    }
    let rest = set.word() >> from;
    if rest == 0 {
        return 64;
    }
    from + rest.trailing_zeros() as u8
}
