//! What is true of all rows and routes, stated over definitions: each law is the contract of a function that
//! does nothing, and `bottom_value` says what `BOTTOM` is.

ghost use Rattle.std.specs.Prelude.{◌≡◌};
ghost use Rattle.abstract_route.specs.Laws.{BelowIsReflexive, BelowIsTransitive, BelowIsAntisymmetric, JoinIsLeast, JoinIsRow, BottomIsRow, BottomIsBelow, BottomFitsNone, RankRises, RankIsStrict, RankIsBounded, InhabitedIs, InhabitedUp, HasRouteWhere, FitsUp, FitIsInhabited, ExactIsLeast, ExactIsRow, ExactFitsOne, LocalIsIn, LearnedIsIn, CarriedIsRow, CarriedIsExact, CarriedUp, CarriedFits, BeatsIsSound, BeatsIsExact, BeatsIsEach, BeatsOfRoutes, RouteIsOf};
ghost use Rattle.abstract_route.specs.Rows.{bottom};

use crate::{BOTTOM, Row};

/// Below is an order, and the join is the least row above both.
pub fn law_of_joins()
    ensures reflexive { BelowIsReflexive }
    ensures transitive { BelowIsTransitive }
    ensures antisymmetric { BelowIsAntisymmetric }
    ensures join { JoinIsLeast }
    ensures row { JoinIsRow }
{}

/// The row of no route is a row, below each other, and no route fits it.
pub fn law_of_bottom()
    ensures row { BottomIsRow }
    ensures below { BottomIsBelow }
    ensures none { BottomFitsNone }
{}

/// `BOTTOM`, which clauses cannot name, is the row of no route.
pub fn bottom_value() -> Row
    ensures { result ≡ bottom }
{
    BOTTOM
}

/// A rising chain of rows ends: the rank rises with each step, and is bounded.
pub fn law_of_ranks()
    ensures rises { RankRises }
    ensures strict { RankIsStrict }
    ensures bounded { RankIsBounded }
{}

/// The test for an inhabited row is exact, each row above an inhabited one is inhabited, and exactly those inhabited
/// rows have a route that begin at an origin and have room for a path.
pub fn law_of_inhabited_rows()
    ensures test { InhabitedIs }
    ensures up { InhabitedUp }
    ensures route { HasRouteWhere }
{}

/// A route that fits a row fits each row above, and only inhabited rows have routes that fit.
pub fn law_of_fitting()
    ensures up { FitsUp }
    ensures inhabited { FitIsInhabited }
{}

/// Each route has an exact row, the least that it fits, and only routes like it fit it.
pub fn law_of_exact_rows()
    ensures least { ExactIsLeast }
    ensures row { ExactIsRow }
    ensures one { ExactFitsOne }
{}

/// A route is in its exact row with the MED that an export carries: its own where it is local, else 0.
pub fn law_of_containing()
    ensures local { LocalIsIn }
    ensures learned { LearnedIsIn }
{}

/// The row that a learned route is kept in grows with its row, and speaks of the row's routes with MED 0.
pub fn law_of_carried_rows()
    ensures row { CarriedIsRow }
    ensures exact { CarriedIsExact }
    ensures up { CarriedUp }
    ensures fits { CarriedFits }
{}

/// Where a candidate beats another, each of its routes is better than each of the other's.
pub fn law_of_beating()
    ensures { BeatsIsSound }
{}

/// A candidate beats another exactly where its worst route is better than the best of the other; so where they have
/// such routes, exactly where each of its routes is better. Candidates of one route each beat as their routes do.
pub fn law_of_exact_beating()
    ensures worst { BeatsIsExact }
    ensures each { BeatsIsEach }
    ensures routes { BeatsOfRoutes }
    ensures own { RouteIsOf }
{}
