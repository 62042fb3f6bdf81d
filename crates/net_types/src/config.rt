//! What one FRRouting configuration file says.

ghost use Rattle.std.specs.Prelude.{◌≡◌};
ghost use Rattle.net_types.specs.Better.{origin_rank};
ghost use Rattle.net_types.specs.Routes.{origin_of};

use crate::communities::is_word;
use crate::{List, Prefix, Text};

/// A configuration file: its name in its folder, and its bytes.
#[derive(Debug, Drop)]
pub struct SourceFile {
    /// The name in the folder.
    pub name: Text,
    /// The bytes.
    pub text: List<u8>,
}

/// What a file says of its router. Lists stand in the order in which their items first appear.
#[derive(Debug, Drop)]
pub struct RouterConfig {
    /// The host name.
    pub host: Text,
    /// The interfaces.
    pub interfaces: List<Interface>,
    /// The prefixes of the `network` lines of OSPF, where `router ospf` stands.
    pub ospf: Option<List<Prefix>>,
    /// The BGP part, where `router bgp` stands.
    pub bgp: Option<BgpConfig>,
    /// The prefix lists.
    pub prefix_lists: List<PrefixList>,
    /// The community lists.
    pub community_lists: List<CommunityList>,
    /// The route maps.
    pub maps: List<RouteMap>,
}

/// An interface.
#[derive(Debug, Drop)]
pub struct Interface {
    /// The name.
    pub name: Text,
    /// The address, and its subnet: the address with the bits past the length cleared.
    pub address: Option<(u32, Prefix)>,
    /// Whether it is shut down.
    pub shutdown: bool,
    /// Whether it has `ip ospf area 0`.
    pub ospf: bool,
    /// The OSPF cost, 1 to 65,535, where one is written.
    pub cost: Option<u32>,
}

/// The BGP part of a configuration.
#[derive(Debug, Drop)]
pub struct BgpConfig {
    /// The router's AS number, at least 1.
    pub asn: u32,
    /// Whether a session needs a policy in each direction (RFC 8212).
    pub needs_policy: bool,
    /// The prefixes of the `network` lines.
    pub networks: List<Prefix>,
    /// What is done with connected prefixes.
    pub connected: Redistribute,
    /// What is done with OSPF's routes.
    pub ospf: Redistribute,
    /// The neighbors.
    pub neighbors: List<Neighbor>,
}

/// Whether routes of another source are redistributed.
#[derive(Debug, Drop)]
pub enum Redistribute {
    /// They are not.
    No,
    /// They are, as they are.
    Plain,
    /// They are, through the route map of this name.
    By(Text),
}

/// A neighbor of BGP.
#[derive(Debug, Drop)]
pub struct Neighbor {
    /// Its address.
    pub address: u32,
    /// Its AS number.
    pub asn: u32,
    /// The name of the route map for what comes in.
    pub import: Option<Text>,
    /// The name of the route map for what goes out.
    pub export: Option<Text>,
}

/// A prefix list; its entries are in ascending sequence.
#[derive(Debug, Drop)]
pub struct PrefixList {
    /// The name.
    pub name: Text,
    /// The entries.
    pub entries: List<PrefixEntry>,
}

/// An entry of a prefix list: the prefixes in `prefix` whose lengths are `least` to `most`.
#[derive(Clone, Copy, PartialEq, Eq, Debug)]
pub struct PrefixEntry {
    /// The sequence number.
    pub seq: u32,
    /// Whether a match is a permit.
    pub permit: bool,
    /// The prefix.
    pub prefix: Prefix,
    /// The least length.
    pub least: u8,
    /// The greatest length.
    pub most: u8,
}

/// A community list; its entries are in ascending sequence.
#[derive(Debug, Drop)]
pub struct CommunityList {
    /// The name.
    pub name: Text,
    /// The entries.
    pub entries: List<CommunityEntry>,
}

/// An entry of a community list: the routes with all of these communities.
#[derive(Debug, Drop)]
pub struct CommunityEntry {
    /// The sequence number.
    pub seq: u32,
    /// Whether a match is a permit.
    pub permit: bool,
    /// The communities, as written.
    pub values: List<u32>,
}

/// A route map; its entries are in ascending sequence.
#[derive(Debug, Drop)]
pub struct RouteMap {
    /// The name.
    pub name: Text,
    /// The entries.
    pub entries: List<MapEntry>,
}

/// An entry of a route map.
#[derive(Debug, Drop)]
pub struct MapEntry {
    /// The sequence number.
    pub seq: u16,
    /// Whether a match is a permit.
    pub permit: bool,
    /// The prefix list that a route has to match.
    pub prefixes: Option<Text>,
    /// The community list that a route has to match.
    pub communities: Option<Text>,
    /// What a permit changes.
    pub sets: Sets,
}

/// What a permit of a route map changes in a route.
#[derive(Debug, Drop)]
pub struct Sets {
    /// The new weight.
    pub weight: Option<u32>,
    /// The new local preference.
    pub preference: Option<u32>,
    /// The new MED.
    pub med: Option<u32>,
    /// The new origin.
    pub origin: Option<Origin>,
    /// The community list whose communities are taken away.
    pub delete: Option<Text>,
    /// What is then done with the communities.
    pub community: SetCommunity,
    /// The AS numbers that are put in front of the path.
    pub prepend: List<u32>,
}

/// What `set community` does.
#[derive(Debug, Drop)]
pub enum SetCommunity {
    /// There is no such line.
    Keep,
    /// These communities in place of the route's.
    Replace(List<u32>),
    /// These communities beside the route's.
    Add(List<u32>),
    /// No communities.
    Clear,
}

/// The origin of a route (RFC 4271, section 5.1.1); the lower is preferred, IGP being the lowest.
#[derive(Clone, Copy, PartialEq, Eq, Debug)]
pub enum Origin {
    /// Interior to the originating AS.
    Igp,
    /// Learned by EGP.
    Egp,
    /// By other means.
    Incomplete,
}

impl Origin {
    /// Its place in the order of origins, the lowest being 0.
    pub fn rank(self) -> u8
        ensures { result ≡ origin_rank self }
    {
        match self {
            Origin::Igp => 0,
            Origin::Egp => 1,
            Origin::Incomplete => 2,
        }
    }
}

/// The origin of a text: `igp`, `egp` or `incomplete`. Else none.
pub fn read_origin(text: &[u8]) -> Option<Origin>
    ensures { result ≡ origin_of text.now }
{
    if is_word(b"igp", text) {
        Some(Origin::Igp)
    } else if is_word(b"egp", text) {
        Some(Origin::Egp)
    } else if is_word(b"incomplete", text) {
        Some(Origin::Incomplete)
    } else {
        None
    }
}
