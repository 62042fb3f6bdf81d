//! A case as its result tells of it, link by link.

ghost use Rattle.std.specs.Prelude.{◌≡◌, ◌<◌, All};
ghost use Rattle.abstract_route.specs.Rows.{inhabited, row_at as row_in};
ghost use Rattle.abstract_maps.specs.AbstractMap.{IsShort};
ghost use Rattle.abstract_maps.specs.Transfer.{transfer};
ghost use Rattle.implication.specs.View.{back_over, hop_over, is_hop, may_bring};
ghost use Rattle.implication.specs.OnTheWay.{IsCase, IsSetOf, IsWith, view_case};

use abstract_maps::transfer;
use abstract_route::is_inhabited;
use certain_fixpoint::row_at;
use net_types::{Arc, Bits64, FailSet, Net, Prefix};
use ospf_paths::is_next_hop;
use refine_rounds::CaseResult;

/// A prefix of a network with these links failed, and what is known of it. What it tells of routers is `view_case` of
/// `specs/OnTheWay.antt`.
#[derive(Clone, Copy)]
pub(crate) struct Case<'a> {
    /// The network.
    pub net: &'a Net,
    /// The prefix.
    pub prefix: Prefix,
    /// The links that have failed.
    pub failed: &'a FailSet,
    /// The result of the case.
    pub known: &'a CaseResult,
}

impl Case<'_> {
    // Whether the arc goes from a router to its next hop.
    #[tactic(auto, using(crate::proofs::ArcLemmas::is_hop_by))]
    fn is_hop(&self, arc: Arc) -> bool
        ensures { result ≡ is_hop self.now.net.now self.now.prefix self.now.failed.now self.now.known.now.distances arc }
    {
        is_next_hop(
            self.net,
            self.prefix,
            *self.failed,
            self.known.distances(),
            arc,
        )
    }

    // The set with the router that the arc goes to, where that is a next hop of the router.
    #[tactic(auto, using(crate::proofs::ArcLemmas::with_receiver, crate::proofs::ArcLemmas::same_without_ends, crate::proofs::ArcLemmas::same_without_hop))]
    fn with_hop(&self, router: u8, set: Bits64, arc: Arc) -> Bits64
        ensures { IsWith (λ v. hop_over self.now.net.now self.now.prefix self.now.failed.now self.now.known.now.distances router v arc) set result }
    {
        let (Some(from), Some(to)) = (self.net.sender_of(arc), self.net.receiver_of(arc)) else {
            return set;
        };
        if from == router && self.is_hop(arc) {
            set.with(to)
        } else {
            set
        }
    }

    /// The next hops of the router, from a walk over all links.
    #[tactic(auto, using(crate::proofs::ArcLemmas::gathered_none))]
    pub(crate) fn hops(&self, router: u8) -> Bits64
        requires { IsCase self.now }
        ensures { IsSetOf ((view_case self.now).hop router) (view_case self.now).count result }
    {
        self.net.valid();
        let mut set = Bits64::EMPTY;
        for link in 0..self.net.links().len() {
            let (up, down) = Arc::both(link as u8);
            let more = self.with_hop(router, set, up);
            set = self.with_hop(router, more, down);
        }
        set
    }

    // Whether what the arc makes of the sender's row has a route.
    fn brings(&self, sender: u8, arc: Arc) -> bool
        requires { All IsShort self.now.known.now.rows }
        ensures { result ≡ inhabited (transfer self.now.net.now self.now.prefix arc (row_in self.now.known.now.rows sender)) }
    {
        let row = row_at(self.known.rows(), sender);
        is_inhabited(&transfer(self.net, self.prefix, arc, &row))
    }

    // Whether the arc, which the sender sends over, may bring a route.
    #[tactic(auto, unfolding(crate::specs::View::may_bring))]
    fn may_bring(&self, sender: u8, arc: Arc) -> bool
        requires short { All IsShort self.now.known.now.rows }
        requires link { arc.link < 64 }
        ensures { result ≡ may_bring self.now.net.now self.now.prefix self.now.failed.now self.now.known.now sender arc }
    {
        self.net.is_up(self.failed, arc)
            && self.known.alive().holds(arc)
            && self.brings(sender, arc)
    }

    // The set with the router that sends over the arc, where it may bring the router a route.
    #[tactic(auto, using(crate::proofs::ArcLemmas::with_sender, crate::proofs::ArcLemmas::none_without_ends, crate::proofs::ArcLemmas::same_without_route))]
    fn with_back(&self, router: u8, set: Bits64, arc: Arc) -> Bits64
        requires short { All IsShort self.now.known.now.rows }
        requires link { arc.link < 64 }
        ensures { IsWith (λ v. back_over self.now.net.now self.now.prefix self.now.failed.now self.now.known.now router v arc) set result }
    {
        let (Some(from), Some(to)) = (self.net.sender_of(arc), self.net.receiver_of(arc)) else {
            return set;
        };
        if to == router && self.may_bring(from, arc) {
            set.with(from)
        } else {
            set
        }
    }

    /// The routers that may bring the router a route, from a walk over all links.
    #[tactic(auto, using(crate::proofs::ArcLemmas::gathered_none))]
    pub(crate) fn backs(&self, router: u8) -> Bits64
        requires { IsCase self.now }
        ensures { IsSetOf ((view_case self.now).back router) (view_case self.now).count result }
    {
        self.net.valid();
        let mut set = Bits64::EMPTY;
        for link in 0..self.net.links().len() {
            let (up, down) = Arc::both(link as u8);
            let more = self.with_back(router, set, up);
            set = self.with_back(router, more, down);
        }
        set
    }
}
