//! What the solver keeps beside the rows.

ghost use Rattle.std.specs.Prelude.{◌≡◌, ◌<◌};
ghost use Rattle.possible_fixpoint.specs.Marks.{IsNoted, has_arc, with_arc};

use abstract_route::{Row, is_inhabited};
use net_types::{Arc, Bits64};

/// A set of arcs, by the numbers of their links in each direction.
#[derive(Clone, Copy, PartialEq, Eq, Debug)]
pub(crate) struct ArcSet {
    pub up: Bits64,
    pub down: Bits64,
}

impl ArcSet {
    /// No arc.
    pub(crate) const EMPTY: ArcSet = ArcSet {
        up: Bits64::EMPTY,
        down: Bits64::EMPTY,
    };

    /// Whether the arc is in the set.
    pub(crate) fn has(&self, arc: Arc) -> bool
        requires { arc.link < 64 }
        ensures { result ≡ has_arc self.now arc }
    {
        if arc.down {
            self.down.has(arc.link)
        } else {
            self.up.has(arc.link)
        }
    }

    /// The set with one more arc.
    pub(crate) fn with(&self, arc: Arc) -> ArcSet
        requires { arc.link < 64 }
        ensures { result ≡ with_arc self.now arc }
    {
        if arc.down {
            ArcSet {
                down: self.down.with(arc.link),
                ..*self
            }
        } else {
            ArcSet {
                up: self.up.with(arc.link),
                ..*self
            }
        }
    }

    /// The set with an arc that gives the row, if the row is of some route.
    pub(crate) fn noting(&self, arc: Arc, row: &Row) -> ArcSet
        requires { arc.link < 64 }
        ensures { IsNoted arc row.now self.now result }
    {
        if self.has(arc) {
            *self
        } else if is_inhabited(row) {
            self.with(arc)
        } else {
            *self
        }
    }
}

/// The arcs that were seen giving something, and the routers whose row has changed since their arcs were asked.
#[derive(Clone, Copy)]
pub(crate) struct Marks {
    pub gave: ArcSet,
    pub changed: Bits64,
}
