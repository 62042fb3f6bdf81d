//! The network of a bundle: its routers, its links, and what they run.

ghost use Rattle.std.specs.Prelude.{ℕ, ◌≡◌, ◌<◌, AllPairs, IfSome, length};
ghost use Rattle.std.specs.Option.{option_copied};
ghost use Rattle.net_types.specs.NetValue.{NetValue};
ghost use Rattle.net_types.specs.NetFacts.{IsNet};
ghost use Rattle.net_types.specs.Numbering.{community_among, community_number, host_of, router_among, router_number};
ghost use Rattle.net_types.specs.Owners.{entry_of, is_owned, owns};

use crate::{Bits64, List, Origin, Prefix, PrefixList, Text};
use std::marker::Model;

/// A network, which keeps its validity: `IsNet` of `specs/NetFacts.antt`. Routers are numbered from 0
/// in byte order of their hosts, links by their subnets, communities by their values.
#[derive(Debug, Drop)]
pub struct Net {
    routers: List<Router>,
    links: List<Link>,
    communities: List<u32>,
    notices: List<Notice>,
}

impl Model for Net {
    ghost use Rattle.net_types.specs.NetValue.{NetValue};
    ghost use Rattle.net_types.specs.NetFacts.{IsNet};

    ghost Value = { NetValue };

    ghost view = { λ n. record { routers = n.routers; links = n.links; communities = n.communities; notices = n.notices } };

    ghost invariant = { λ n. IsNet (record { routers = n.routers; links = n.links; communities = n.communities; notices = n.notices }) };
}

/// A router of the network.
#[derive(Debug, Drop)]
pub struct Router {
    /// Its host name.
    pub host: Text,
    /// Its AS number, where it runs BGP.
    pub asn: Option<u32>,
    /// The prefixes that it owns, ascending.
    pub owned: List<Owned>,
    /// What is done with connected prefixes in BGP.
    pub connected: Policy,
    /// What is done with OSPF's routes in BGP.
    pub ospf: Policy,
    /// Its prefix lists.
    pub prefix_lists: List<PrefixList>,
    /// Its community lists.
    pub community_lists: List<NetCommunityList>,
    /// Its route maps.
    pub maps: List<NetMap>,
}

/// A prefix that a router owns.
#[derive(Clone, Copy, PartialEq, Eq, Debug)]
pub struct Owned {
    /// The prefix.
    pub prefix: Prefix,
    /// Whether it stands in a `network` line of BGP.
    pub network: bool,
    /// Whether it is the prefix of a stub.
    pub stub: bool,
    /// The least cost of the router's OSPF stubs of this prefix, where there is one.
    pub ospf_cost: Option<u32>,
}

/// A link between two routers.
#[derive(Clone, Copy, PartialEq, Eq, Debug)]
pub struct Link {
    /// Its subnet.
    pub subnet: Prefix,
    /// The end at the router with the lower number.
    pub low: End,
    /// The end at the router with the higher number.
    pub high: End,
    /// Whether it is a session of BGP.
    pub session: bool,
    /// Whether it is an adjacency of OSPF.
    pub adjacency: bool,
}

/// One end of a link.
#[derive(Clone, Copy, PartialEq, Eq, Debug)]
pub struct End {
    /// The router.
    pub router: u8,
    /// The interface's address.
    pub address: u32,
    /// The interface's OSPF cost, 1 to 65,535.
    pub cost: u32,
    /// The policy for what comes in over the session.
    pub import: Policy,
    /// The policy for what goes out over the session.
    pub export: Policy,
}

/// What a side of a session, or a redistribution, does with routes.
#[derive(Clone, Copy, PartialEq, Eq, Debug)]
pub enum Policy {
    /// It passes nothing.
    Closed,
    /// It passes routes as they are.
    Open,
    /// It passes them through the router's route map at this position.
    Map(u32),
}

/// A neighbor line that makes no session.
#[derive(Clone, Copy, PartialEq, Eq, Debug)]
pub struct Notice {
    /// The router whose line it is.
    pub router: u8,
    /// The neighbor's address.
    pub address: u32,
}

/// A community list of a router; its entries are in ascending sequence.
#[derive(Debug, Drop)]
pub struct NetCommunityList {
    /// The name.
    pub name: Text,
    /// The entries.
    pub entries: List<NetCommunityEntry>,
}

/// An entry of a community list: the routes with all of these communities.
#[derive(Clone, Copy, PartialEq, Eq, Debug)]
pub struct NetCommunityEntry {
    /// The sequence number.
    pub seq: u32,
    /// Whether a match is a permit.
    pub permit: bool,
    /// The communities, by their numbers.
    pub values: Bits64,
}

/// A route map of a router; its entries are in ascending sequence.
#[derive(Debug, Drop)]
pub struct NetMap {
    /// The name.
    pub name: Text,
    /// The entries.
    pub entries: List<NetMapEntry>,
}

/// An entry of a route map.
#[derive(Clone, Copy, PartialEq, Eq, Debug)]
pub struct NetMapEntry {
    /// The sequence number.
    pub seq: u16,
    /// Whether a match is a permit.
    pub permit: bool,
    /// The position of the prefix list that a route has to match.
    pub prefixes: Option<u32>,
    /// The position of the community list that a route has to match.
    pub communities: Option<u32>,
    /// What a permit changes.
    pub sets: NetSets,
}

/// What a permit of a route map changes in a route.
#[derive(Clone, Copy, PartialEq, Eq, Debug)]
pub struct NetSets {
    /// The new weight.
    pub weight: Option<u32>,
    /// The new local preference.
    pub preference: Option<u32>,
    /// The new MED.
    pub med: Option<u32>,
    /// The new origin.
    pub origin: Option<Origin>,
    /// The position of the community list whose communities are taken away.
    pub delete: Option<u32>,
    /// What is then done with the communities.
    pub community: NetSetCommunity,
    /// How often the router is put in front of the path, at most 10.
    pub prepend: u8,
}

/// What `set community` does.
#[derive(Clone, Copy, PartialEq, Eq, Debug)]
pub enum NetSetCommunity {
    /// Nothing.
    Keep,
    /// These communities in place of the route's.
    Replace(Bits64),
    /// These communities beside the route's.
    Add(Bits64),
    /// No communities.
    Clear,
}

impl Net {
    /// The network of these parts, which have to be valid. It takes no memory.
    pub fn new(
        routers: List<Router>,
        links: List<Link>,
        communities: List<u32>,
        notices: List<Notice>,
    ) -> Net
        requires { IsNet (record { routers = routers; links = links; communities = communities; notices = notices }) }
        ensures { result ≡ record { routers = routers; links = links; communities = communities; notices = notices } }
    {
        Net {
            routers,
            links,
            communities,
            notices,
        }
    }

    /// The routers, in byte order of their hosts.
    pub fn routers(&self) -> &[Router]
        ensures { result.now ≡ self.now.routers }
    {
        self.routers.as_slice()
    }

    /// The links, in the order of their subnets.
    pub fn links(&self) -> &[Link]
        ensures { result.now ≡ self.now.links }
    {
        self.links.as_slice()
    }

    /// The communities, ascending; the two of RFC 1997 are among them.
    pub fn communities(&self) -> &[u32]
        ensures { result.now ≡ self.now.communities }
    {
        self.communities.as_slice()
    }

    /// The notices, by router and then by address.
    pub fn notices(&self) -> &[Notice]
        ensures { result.now ≡ self.now.notices }
    {
        self.notices.as_slice()
    }

    /// Learns what is true of every network.
    pub fn valid(&self)
        ensures { IsNet self.now }
    {
        let _links = &self.links;
    }

    /// Whether the router owns the prefix.
    pub fn owns(&self, router: u8, prefix: &Prefix) -> bool
        requires { router < length self.now.routers }
        ensures { result ≡ owns self.now router prefix.now }
    {
        match self.routers().get(usize::from(router)) {
            Some(found) => is_owned(found.owned.as_slice(), prefix),
            None => false,
        }
    }

    /// The number of the router with this host, none where there is no such router.
    pub fn router_number(&self, host: &[u8]) -> Option<u8>
        ensures number { result ≡ router_number self.now host.now }
        ensures within { IfSome result (λ number. number < length self.now.routers) }
        ensures small { IfSome result (λ number. number < 64) }
    {
        self.valid();
        match router_among(self.routers(), host) {
            Some(number) => Some(number as u8),
            None => None,
        }
    }

    /// The host of the router with this number, no text where there is no such router.
    pub fn host_of(&self, router: u8) -> &str
        ensures { result.now ≡ host_of self.now router }
    {
        match self.routers().get(usize::from(router)) {
            Some(found) => found.host.as_str(),
            None => "",
        }
    }

    /// The number of the community with this value, none where the network has no such community.
    pub fn community_number(&self, value: u32) -> Option<u8>
        ensures number { result ≡ community_number self.now value }
        ensures small { IfSome result (λ number. number < 64) }
    {
        self.valid();
        match ascending_place(self.communities(), value) {
            Some(number) => Some(number as u8),
            None => None,
        }
    }
}

// The place of the router with this host.
fn router_among(routers: &[Router], host: &[u8]) -> Option<usize>
    ensures number { result ≡ router_among routers.now host.now }
    ensures within { IfSome result (λ number. number < length routers.now) }
{
    routers
        .iter()
        .position(|router| router.host.as_bytes() == host)
}

/// The place of the community with this value among these, none where it is not there.
pub fn community_among(communities: &[u32], value: u32) -> Option<usize>
    ensures number { result ≡ community_among communities.now value }
    ensures within { IfSome result (λ number. number < length communities.now) }
{
    communities.iter().position(|community| *community == value)
}

// The place of the value among these, which ascend.
fn ascending_place(communities: &[u32], value: u32) -> Option<usize>
    requires { AllPairs (λ (a b : ℕ). a < b) communities.now }
    ensures number { result ≡ community_among communities.now value }
    ensures within { IfSome result (λ number. number < length communities.now) }
{
    match communities.binary_search(&value) {
        Ok(place) => Some(place),
        Err(_) => None,
    }
}

/// Whether the prefix is among those of these entries.
pub fn is_owned(owned: &[Owned], prefix: &Prefix) -> bool
    ensures { result ≡ is_owned prefix.now owned.now }
{
    owned.iter().any(|entry| entry.prefix.is_same(prefix))
}

/// The entry of the prefix among these, none where none is of it.
pub fn entry_of<'a>(prefix: &Prefix, owned: &'a [Owned]) -> Option<&'a Owned>
    ensures { option_copied result ≡ entry_of prefix.now owned.now }
{
    owned.iter().find(|entry| entry.prefix.is_same(prefix))
}
