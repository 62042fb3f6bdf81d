//! The routers from which OSPF alone leads to an owner, and those that have a sure route.

ghost use Rattle.std.specs.Prelude.{◌≡◌, ◌<◌, ◌&&◌, not};
ghost use Rattle.net_types.specs.Sets.{has};
ghost use Rattle.net_types.specs.Turns.{set_of};
ghost use Rattle.implication.specs.OnTheWay.{AreSolid, IsSeen, has_sure_route, hops_in, stays, view_seen};

use crate::seen::Seen;
use net_types::Bits64;

// Whether all hops of the router are in the set.
fn hops_in(seen: &Seen<'_>, set: Bits64, router: u8) -> bool
    requires seen { IsSeen seen.now }
    requires router { router < (view_seen seen.now).count }
    ensures { result ≡ hops_in (view_seen seen.now) set router }
{
    seen.hops(router).is_part(set)
}

// Whether the router is an owner, or cannot learn, has a distance and only hops in the set.
fn stays(seen: &Seen<'_>, set: Bits64, router: u8) -> bool
    requires seen { IsSeen seen.now }
    requires router { router < (view_seen seen.now).count }
    ensures { result ≡ stays (view_seen seen.now) set router }
{
    seen.owner(router)
        || (!seen.may_learn(router) && seen.has_distance(router) && hops_in(seen, set, router))
}

// The members that stay.
#[tactic(auto, using(certain_fixpoint::proofs::PassLemmas::set_none, certain_fixpoint::proofs::PassLemmas::set_with, certain_fixpoint::proofs::PassLemmas::set_same))]
fn kept(seen: &Seen<'_>, set: Bits64) -> Bits64
    requires { IsSeen seen.now }
    ensures { result ≡ set_of (λ u. has set u && stays (view_seen seen.now) set u) (view_seen seen.now).count }
{
    seen.net.valid();
    let count = seen.count();
    let mut left = Bits64::EMPTY;
    for router in 0..count {
        if set.has(router) && stays(seen, set, router) {
            left = left.with(router);
        }
    }
    left
}

/// The routers from which OSPF alone leads to an owner.
pub(crate) fn solid(seen: &Seen<'_>) -> Bits64
    requires { IsSeen seen.now }
    ensures { AreSolid (view_seen seen.now) result }
{
    let mut set = Bits64::FULL;
    let mut next = kept(seen, set);
    while next != set {
        set = next;
        next = kept(seen, set);
    }
    set
}

/// Whether the router is an owner, or has a distance and only hops in the set of solid routers, or surely holds a
/// learned route.
pub(crate) fn has_sure_route(seen: &Seen<'_>, solid: Bits64, router: u8) -> bool
    requires seen { IsSeen seen.now }
    requires router { router < (view_seen seen.now).count }
    ensures { result ≡ has_sure_route (view_seen seen.now) solid router }
{
    seen.owner(router)
        || (seen.has_distance(router) && hops_in(seen, solid, router))
        || seen.surely_learned(router)
}
