//! What is seen of a case, router by router.

ghost use Rattle.std.specs.Prelude.{◌≡◌, ◌<◌};
ghost use Rattle.implication.specs.View.{surely_learned};
ghost use Rattle.implication.specs.OnTheWay.{IsSeen, IsSetOf, view_seen};

use crate::nearby::Nearby;
use abstract_maps::local_row;
use abstract_route::is_inhabited;
use certain_fixpoint::row_at;
use net_types::{Bits64, FailSet, Net, Prefix, distance_at};
use refine_rounds::CaseResult;

/// A prefix of a network with these links failed, and what is known of it. What it tells of routers is `view_seen` of
/// `specs/OnTheWay.antt`.
#[derive(Clone, Copy)]
pub(crate) struct Seen<'a> {
    /// The network.
    pub net: &'a Net,
    /// The prefix.
    pub prefix: Prefix,
    /// The links that have failed.
    pub failed: &'a FailSet,
    /// The result of the case.
    pub known: &'a CaseResult,
    /// Where one step leads from each router.
    pub nearby: &'a Nearby,
}

impl Seen<'_> {
    /// How many routers there are.
    pub(crate) fn count(&self) -> u8
        ensures { result ≡ (view_seen self.now).count }
    {
        self.net.valid();
        self.net.routers().len() as u8
    }

    /// Whether the router owns the prefix.
    pub(crate) fn owner(&self, router: u8) -> bool
        requires { router < (view_seen self.now).count }
        ensures { result ≡ (view_seen self.now).owner router }
    {
        self.net.owns(router, &self.prefix)
    }

    /// Whether it has a local route, which is alive.
    #[tactic(auto, using(certain_fixpoint::proofs::PassLemmas::originates_is))]
    pub(crate) fn may_local(&self, router: u8) -> bool
        requires { router < (view_seen self.now).count }
        ensures { result ≡ (view_seen self.now).may_local router }
    {
        self.net.valid();
        let distance = distance_at(self.known.distances(), router);
        is_inhabited(&local_row(self.net, self.prefix, router, distance))
            && self.known.alive().locals.has(router)
    }

    /// Whether it surely holds a route.
    pub(crate) fn certain(&self, router: u8) -> bool
        requires { router < (view_seen self.now).count }
        ensures { result ≡ (view_seen self.now).certain router }
    {
        self.net.valid();
        self.known.certain().has(router)
    }

    /// Whether it has a distance in OSPF.
    pub(crate) fn has_distance(&self, router: u8) -> bool
        ensures { result ≡ (view_seen self.now).has_distance router }
    {
        distance_at(self.known.distances(), router).is_some()
    }

    /// Whether the other router is on the path of each route that the router may hold.
    pub(crate) fn must_have(&self, router: u8, other: u8) -> bool
        requires seen { IsSeen self.now }
        requires other { other < (view_seen self.now).count }
        ensures { result ≡ (view_seen self.now).must_have router other }
    {
        self.net.valid();
        row_at(self.known.rows(), router).must.has(other)
    }

    /// The next hops of the router.
    pub(crate) fn hops(&self, router: u8) -> Bits64
        requires seen { IsSeen self.now }
        requires router { router < (view_seen self.now).count }
        ensures { IsSetOf ((view_seen self.now).hop router) (view_seen self.now).count result }
    {
        self.nearby.hops(router)
    }

    /// The routers that steps back from the router go to: those that may bring it a route.
    pub(crate) fn backs(&self, router: u8) -> Bits64
        requires seen { IsSeen self.now }
        requires router { router < (view_seen self.now).count }
        ensures { IsSetOf ((view_seen self.now).back router) (view_seen self.now).count result }
    {
        self.nearby.backs(router)
    }

    /// Whether some router may bring it a route.
    #[tactic(auto, using(crate::proofs::SetLemmas::some_if_set))]
    pub(crate) fn may_learn(&self, router: u8) -> bool
        requires seen { IsSeen self.now }
        requires router { router < (view_seen self.now).count }
        ensures { result ≡ (view_seen self.now).may_learn router }
    {
        !self.backs(router).is_empty()
    }

    /// Whether it surely holds a route, and that can only be a learned one.
    pub(crate) fn surely_learned(&self, router: u8) -> bool
        requires { router < (view_seen self.now).count }
        ensures { result ≡ surely_learned (view_seen self.now) router }
    {
        self.certain(router) && !self.may_local(router) && !self.owner(router)
    }
}
