//! One direction of a link, its ends, and whether it is up.

ghost use Rattle.std.specs.Prelude.{◌≡◌, ◌<◌, IfSome, length, option_map};
ghost use Rattle.std.specs.Iterator.{YieldsFirst, item_count};
ghost use Rattle.net_types.specs.Arcs.{arcs_left, arcs_of, down_of, from_end, is_session, is_up, link_of, receiver_of, sender_of, to_end, up_of};
ghost use Rattle.net_types.specs.Better.{same_router};
ghost use Rattle.net_types.specs.NetFacts.{IsLink};

use crate::fail_sets::FailSet;
use crate::network::{End, Link, Net};

/// One direction of a link: from the router with the lower number to the one with the higher where
/// `down` is false, the other way where it is true.
#[derive(Clone, Copy, PartialEq, Eq, Debug)]
pub struct Arc {
    /// The link's number.
    pub link: u8,
    /// Whether it goes to the router with the lower number.
    pub down: bool,
}

impl Arc {
    /// Both arcs of a link: up, to the router with the higher number, then down.
    pub fn both(link: u8) -> (Arc, Arc)
        ensures up { result.0 ≡ up_of link }
        ensures down { result.1 ≡ down_of link }
    {
        (Arc { link, down: false }, Arc { link, down: true })
    }
}

impl Link {
    /// The end that a direction of the link begins at.
    pub fn from_end(&self, down: bool) -> &End
        ensures { result.now ≡ from_end down self.now }
    {
        if down { &self.high } else { &self.low }
    }

    /// The end that a direction of the link goes to.
    pub fn to_end(&self, down: bool) -> &End
        ensures { result.now ≡ to_end down self.now }
    {
        if down { &self.low } else { &self.high }
    }
}

impl Net {
    /// The link of an arc, none where there is no such link.
    pub fn link_of(&self, arc: Arc) -> Option<&Link>
        ensures link { option_map (λ link. link.now) result ≡ link_of self.now arc }
        ensures valid { IfSome result (λ link. IsLink self.now.routers link.now) }
        ensures low { IfSome result (λ link. link.now.low.router < 64) }
        ensures high { IfSome result (λ link. link.now.high.router < 64) }
    {
        self.valid();
        self.links().get(usize::from(arc.link))
    }

    /// The router that an arc begins at, its sender in BGP, none where there is no such link.
    pub fn sender_of(&self, arc: Arc) -> Option<u8>
        ensures sender { result ≡ sender_of self.now arc }
        ensures within { IfSome result (λ u. u < length self.now.routers) }
        ensures small { IfSome result (λ u. u < 64) }
    {
        let link = self.link_of(arc)?;
        Some(link.from_end(arc.down).router)
    }

    /// The router that an arc goes to, its receiver in BGP, none where there is no such link.
    pub fn receiver_of(&self, arc: Arc) -> Option<u8>
        ensures receiver { result ≡ receiver_of self.now arc }
        ensures within { IfSome result (λ u. u < length self.now.routers) }
        ensures small { IfSome result (λ u. u < 64) }
    {
        let link = self.link_of(arc)?;
        Some(link.to_end(arc.down).router)
    }

    /// The arcs of the network, both of each link, in the order of the links.
    pub fn arcs(&self) -> Arcs
        ensures { arcs_left result.down result.next result.end ≡ arcs_of self.now }
    {
        self.valid();
        Arcs {
            next: 0,
            end: self.links().len() as u8,
            down: None,
        }
    }

    /// Whether the arc is of a session.
    pub fn is_session(&self, arc: Arc) -> bool
        ensures { result ≡ is_session self.now arc }
    {
        match self.link_of(arc) {
            Some(link) => link.session,
            None => false,
        }
    }

    /// Whether the arc is up in BGP: it is of a session, and its link has not failed.
    pub fn is_up(&self, failed: &FailSet, arc: Arc) -> bool
        ensures { result ≡ is_up self.now failed.now arc }
    {
        self.is_session(arc) && !failed.holds(arc.link)
    }
}

/// The arcs of links, both of each, in the order of the links.
#[derive(Drop)]
pub struct Arcs {
    next: u8,
    end: u8,
    down: Option<Arc>,
}

impl Iterator for Arcs {
    type Item = Arc;

    ghost next_gives = { YieldsFirst (λ arcs. arcs_left arcs.down arcs.next arcs.end) };

    ghost remaining = { item_count (λ arcs. arcs_left arcs.down arcs.next arcs.end) };

    #[tactic(auto, using(crate::proofs::ArcLemmas::first_left))]
    fn next(&mut self) -> Option<Arc> {
        if let Some(arc) = self.down.take() {
            return Some(arc);
        }
        if self.next >= self.end {
            return None;
        }
        let (up, down) = Arc::both(self.next);
        self.next += 1;
        self.down = Some(down);
        Some(up)
    }
}

/// Whether the two are one router.
pub fn same_router(a: Option<u8>, b: Option<u8>) -> bool
    ensures { result ≡ same_router a b }
{
    match (a, b) {
        (Some(u), Some(v)) => u == v,
        _ => false,
    }
}
