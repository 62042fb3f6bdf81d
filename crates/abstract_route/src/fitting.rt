//! Which routes a row speaks of.

ghost use Rattle.std.specs.Prelude.{◌≡◌, ◌↔◌, ◌<◌, IsTrue, All};
ghost use Rattle.abstract_route.specs.Fits.{Holds, IsIn, LacksRest, PassesAll, StaysIn, routers_of};

use crate::{Range, Row};
use net_types::{Bits64, Route};

/// Whether the route is in the row: it fits the row with the MED that an export carries, which is 0 for a
/// learned route.
pub fn contains(row: &Row, route: &Route) -> bool
    requires { All (λ x. x < 64) route.now.path }
    ensures { IsTrue result ↔ IsIn route.now row.now }
{
    holds(row.weight, u64::from(route.weight))
        && holds(row.preference, u64::from(route.preference))
        && holds(row.length, route.path.len() as u64)
        && holds(row.origin, u64::from(route.origin.rank()))
        && holds(row.med, u64::from(route.source.sent_med(route.med)))
        && route.communities.is_part(row.has)
        && lacks_rest(route.communities, row.lacks)
        && stays_in(route.path.as_slice(), row.may)
        && passes_all(route.path.as_slice(), row.must)
}

#[tactic(auto, using(crate::proofs::FitLemmas::lacks_rest))]
fn lacks_rest(communities: Bits64, lacks: Bits64) -> bool
    ensures { IsTrue result ↔ LacksRest communities lacks }
{
    Bits64::FULL.is_part(communities.union(lacks))
}

#[tactic(auto, using(crate::proofs::FitLemmas::stays_in))]
fn stays_in(path: &[u8], may: Bits64) -> bool
    requires { All (λ x. x < 64) path.now }
    ensures { IsTrue result ↔ StaysIn path.now may }
{
    path_routers(path).is_part(may)
}

#[tactic(auto, using(crate::proofs::FitLemmas::passes_all))]
fn passes_all(path: &[u8], must: Bits64) -> bool
    requires { All (λ x. x < 64) path.now }
    ensures { IsTrue result ↔ PassesAll path.now must }
{
    must.is_part(path_routers(path))
}

fn holds(range: Range, number: u64) -> bool
    ensures { IsTrue result ↔ Holds range number }
{
    range.low <= number && number <= range.high
}

fn path_routers(path: &[u8]) -> Bits64
    requires { All (λ x. x < 64) path.now }
    ensures { result ≡ routers_of path.now }
{
    let mut routers = Bits64::EMPTY;
    for &router in path {
        routers = routers.with(router);
    }
    routers
}
