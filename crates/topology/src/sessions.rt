//! Sessions of BGP: what each side does with routes, and what is redistributed.

ghost use Rattle.std.specs.Prelude.{◌≡◌, ◌<◌, ◌≤◌, ◌^◌, All, find, length, map, option_map, option_and_then, slice_get};
ghost use Rattle.net_types.specs.ConfigFacts.{IsConfig};
ghost use Rattle.topology.specs.Live.{asn_of};
ghost use Rattle.topology.specs.Sessions.{is_for, without_map, policy_of, side_by, side_for, asn_at, side_at, redistribution, connected_of, ospf_of};

use crate::interfaces::Port;
use crate::resolving::map_place;
use net_types::{BgpConfig, Neighbor, Policy, Redistribute, RouteMap, RouterConfig, Text};

/// One side of a session: what a router does with what comes in, and with what goes out.
#[derive(Clone, Copy, PartialEq, Eq, Debug)]
pub struct Side {
    /// The policy for what comes in.
    pub import: Policy,
    /// The policy for what goes out.
    pub export: Policy,
}

/// The AS number of a configuration, where it has `router bgp`.
pub fn asn_of(config: &RouterConfig) -> Option<u32>
    ensures { result ≡ asn_of config.now }
{
    match &config.bgp {
        Some(bgp) => Some(bgp.asn),
        None => None,
    }
}

// Whether the neighbor line is for a router of this AS number at this address.
fn is_for(neighbor: &Neighbor, address: u32, asn: u32) -> bool
    ensures { result ≡ is_for address asn neighbor.now }
{
    neighbor.address == address && neighbor.asn == asn
}

// The neighbor line for a router of this AS number at this address.
fn line_for(neighbors: &[Neighbor], address: u32, asn: u32) -> Option<&Neighbor>
    ensures { option_map (λ n. n.now) result ≡ find (λ n. is_for address asn n) neighbors.now }
{
    neighbors
        .iter()
        .find(|neighbor| is_for(neighbor, address, asn))
}

// The policy of a direction without a map (RFC 8212).
fn without_map(needs_policy: bool) -> Policy
    ensures { result ≡ without_map needs_policy }
{
    if needs_policy {
        Policy::Closed
    } else {
        Policy::Open
    }
}

// The policy of one direction.
fn policy_of(maps: &[RouteMap], needs_policy: bool, name: &Option<Text>) -> Policy
    requires { length maps.now < 2 ^ 32 }
    ensures { result ≡ policy_of maps.now needs_policy name.now }
{
    match name {
        Some(name) => Policy::Map(map_place(maps, name)),
        None => without_map(needs_policy),
    }
}

// The side of a session that a neighbor line makes.
fn side_by(maps: &[RouteMap], needs_policy: bool, neighbor: &Neighbor) -> Side
    requires { length maps.now < 2 ^ 32 }
    ensures { result ≡ side_by maps.now needs_policy neighbor.now }
{
    Side {
        import: policy_of(maps, needs_policy, &neighbor.import),
        export: policy_of(maps, needs_policy, &neighbor.export),
    }
}

// The side that these neighbor lines make of a session with a router of this AS number at this address.
fn side_among(maps: &[RouteMap], bgp: &BgpConfig, address: u32, asn: u32) -> Option<Side>
    requires { length maps.now < 2 ^ 32 }
    ensures { result ≡ option_map (λ neighbor. side_by maps.now bgp.now.needs_policy neighbor) (find (λ neighbor. is_for address asn neighbor) bgp.now.neighbors) }
{
    match line_for(bgp.neighbors.as_slice(), address, asn) {
        Some(neighbor) => Some(side_by(maps, bgp.needs_policy, neighbor)),
        None => None,
    }
}

// The side that a configuration has of a session with a router of this AS number at this address.
fn side_for(config: &RouterConfig, address: u32, asn: u32) -> Option<Side>
    requires { length config.now.maps < 2 ^ 32 }
    ensures { result ≡ side_for config.now address asn }
{
    match &config.bgp {
        Some(bgp) => side_among(config.maps.as_slice(), bgp, address, asn),
        None => None,
    }
}

// The AS number of the router of this number.
fn asn_at(configs: &[&RouterConfig], router: usize) -> Option<u32>
    ensures { result ≡ asn_at (map (λ c. c.now) configs.now) router }
{
    match configs.get(router) {
        Some(config) => asn_of(config),
        None => None,
    }
}

// The side that the router of this number has of a session with one of this AS number at this address.
fn side_with(configs: &[&RouterConfig], router: usize, address: u32, asn: u32) -> Option<Side>
    requires { All IsConfig (map (λ c. c.now) configs.now) }
    ensures { result ≡ option_and_then (λ config. side_for config address asn) (slice_get (map (λ c. c.now) configs.now) router) }
{
    match configs.get(router) {
        Some(config) => side_for(config, address, asn),
        None => None,
    }
}

/// The side that the router at the one interface has of a session with the router at the other, where it
/// has a neighbor line for it.
pub fn side_at(configs: &[&RouterConfig], here: &Port, there: &Port) -> Option<Side>
    requires { All IsConfig (map (λ c. c.now) configs.now) }
    ensures { result ≡ side_at (map (λ c. c.now) configs.now) here.now there.now }
{
    let asn = asn_at(configs, there.router)?;
    side_with(configs, here.router, there.address, asn)
}

// What is done with routes of another source.
fn redistribution(maps: &[RouteMap], redistribute: &Redistribute) -> Policy
    requires { length maps.now < 2 ^ 32 }
    ensures { result ≡ redistribution maps.now redistribute.now }
{
    match redistribute {
        Redistribute::No => Policy::Closed,
        Redistribute::Plain => Policy::Open,
        Redistribute::By(name) => Policy::Map(map_place(maps, name)),
    }
}

/// What a configuration does in BGP with connected prefixes.
pub fn connected_of(config: &RouterConfig) -> Policy
    requires { length config.now.maps < 2 ^ 32 }
    ensures { result ≡ connected_of config.now config.now.bgp }
{
    match &config.bgp {
        Some(bgp) => redistribution(config.maps.as_slice(), &bgp.connected),
        None => Policy::Closed,
    }
}

/// What a configuration does in BGP with OSPF's routes.
pub fn ospf_of(config: &RouterConfig) -> Policy
    requires { length config.now.maps < 2 ^ 32 }
    ensures { result ≡ ospf_of config.now config.now.bgp }
{
    match &config.bgp {
        Some(bgp) => redistribution(config.maps.as_slice(), &bgp.ospf),
        None => Policy::Closed,
    }
}
