//! The network of configurations, or their first refusal.

ghost use Rattle.std.specs.Prelude.{◌≡◌, ◌≤◌, IfOk, None, All, map, length};
ghost use Rattle.net_types.specs.ConfigFacts.{IsConfig};
ghost use Rattle.net_types.specs.NetFacts.{IsNet};
ghost use Rattle.topology.specs.Groups.{IsNumbered};
ghost use Rattle.topology.specs.Meaning.{IsNetworkOf, NamesLeastPair, NamesWhole, SessionsHaveAsns};
ghost use Rattle.topology.specs.Network.{Answers, unless, whole_refusals, asn_pair, net_from, net_of, network_of};

use crate::communities::communities;
use crate::grouped::GroupedPorts;
use crate::groups::{Wire, shared_subnet, subnets, wires};
use crate::interfaces::ports;
use crate::links::links;
use crate::notices::notices;
use crate::order::in_order;
use crate::routers::routers;
use crate::twins::{address_pair, asn_pair, host_pair};
use net_types::{List, Net, NetRefusal, RouterConfig};
use std::alloc::{AllocError, Global};

// The greatest number of routers, of links and of communities of a network.
const LIMIT: usize = 64;

/// The network of the configurations, or the first refusal that stands, in the order of `NetRefusal`. The
/// answer may also be want of memory.
///
/// Routers are numbered in byte order of their hosts, links by their subnets. A pair in a refusal is the
/// least pair of positions in the slice, by the first and then by the second.
pub fn build(alloc: Global, configs: &[RouterConfig]) -> Result<Net, NetRefusal>
    requires { All IsConfig configs.now }
    ensures exact { Answers (network_of configs.now) result }
    ensures network { IfOk result (λ net. IsNetworkOf configs.now net) }
    ensures whole { NamesWhole configs.now result }
    ensures least_pair { NamesLeastPair configs.now result }
    ensures sessions { IfOk result (λ net. SessionsHaveAsns net) }
{
    if let Some((i, j)) = host_pair(configs) {
        return Err(NetRefusal::SameHost(i as u64, j as u64));
    }
    if let Some((i, j)) = asn_pair(configs) {
        return Err(NetRefusal::SameAs(i as u64, j as u64));
    }
    if let Some((i, j)) = address_pair(alloc, configs)? {
        return Err(NetRefusal::SameAddress(i as u64, j as u64));
    }
    whole(alloc, configs)
}

// The network of configurations of which no two meet, or their first refusal.
fn whole(alloc: Global, configs: &[RouterConfig]) -> Result<Net, NetRefusal>
    requires valid { All IsConfig configs.now }
    requires asns { asn_pair configs.now ≡ None }
    ensures { Answers (unless (whole_refusals configs.now) (net_of configs.now)) result }
{
    let in_order = in_order(alloc, configs)?;
    let ports = GroupedPorts::of(alloc, ports(alloc, &in_order)?)?;
    let subnets = subnets(alloc, &ports)?;
    if let Some(subnet) = shared_subnet(&ports, &subnets) {
        return Err(NetRefusal::SharedSubnet(subnet));
    }
    let wires = wires(alloc, &ports, &subnets)?;
    if wires.len() > LIMIT {
        return Err(NetRefusal::TooManyLinks(wires.len() as u64));
    }
    let communities = communities(alloc, configs)?;
    if communities.len() > LIMIT {
        return Err(NetRefusal::TooManyCommunities(communities.len() as u64));
    }
    if configs.len() > LIMIT {
        return Err(NetRefusal::TooManyRouters(configs.len() as u64));
    }
    Ok(assemble(alloc, &in_order, &ports, &wires, communities)?)
}

// The network of configurations in order, their live interfaces and links, and the communities.
fn assemble(
    alloc: Global,
    configs: &[&RouterConfig],
    ports: &GroupedPorts,
    wires: &[Wire],
    communities: Vec<u32>,
) -> Result<Net, AllocError>
    requires few { length communities.items ≤ 64 }
    requires routers { length configs.now ≤ 64 }
    requires numbered { All IsNumbered wires.now }
    requires configs { All IsConfig (map (λ c. c.now) configs.now) }
    requires valid { IsNet (net_from (map (λ c. c.now) configs.now) ports.now wires.now communities.items) }
    ensures { IfOk result (λ net. net ≡ net_from (map (λ c. c.now) configs.now) ports.now wires.now communities.items) }
{
    let routers = routers(alloc, ports, &communities, configs)?;
    let links = links(alloc, configs, wires)?;
    let notices = notices(alloc, &links, configs)?;
    Ok(Net::new(
        List::from_vec(routers),
        List::from_vec(links),
        List::from_vec(communities),
        List::from_vec(notices),
    ))
}
