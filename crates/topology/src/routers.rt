//! The routers of a network.

ghost use Rattle.std.specs.Prelude.{◌≡◌, ◌≤◌, All, IfOk, length, map};
ghost use Rattle.net_types.specs.ConfigFacts.{IsConfig};
ghost use Rattle.topology.specs.Routers.{router_of, routers_from};

use crate::grouped::GroupedPorts;
use crate::owning::{networks_of, owned_by, stubs};
use crate::resolving::{net_community_lists, net_maps, prefix_lists};
use crate::sessions::{asn_of, connected_of, ospf_of};
use net_types::{List, Router, RouterConfig, Text};
use std::alloc::{AllocError, Global};

// The router of this number and configuration.
fn router_of(
    alloc: Global,
    ports: &GroupedPorts,
    communities: &[u32],
    number: usize,
    config: &RouterConfig,
) -> Result<Router, AllocError>
    requires communities { length communities.now ≤ 64 }
    requires valid { IsConfig config.now }
    ensures { IfOk result (λ router. router ≡ router_of ports.now communities.now number config.now) }
{
    let stubs = stubs(alloc, ports, number)?;
    let owned = owned_by(alloc, &stubs, networks_of(config))?;
    let prefix_lists = prefix_lists(alloc, config.prefix_lists.as_slice())?;
    let community_lists = net_community_lists(
        alloc,
        communities,
        config.community_lists.as_slice(),
    )?;
    let maps = net_maps(alloc, communities, config)?;
    Ok(Router {
        host: Text::from_str(alloc, config.host.as_str())?,
        asn: asn_of(config),
        owned: List::from_vec(owned),
        connected: connected_of(config),
        ospf: ospf_of(config),
        prefix_lists: List::from_vec(prefix_lists),
        community_lists: List::from_vec(community_lists),
        maps: List::from_vec(maps),
    })
}

/// The routers of these configurations.
pub fn routers(
    alloc: Global,
    ports: &GroupedPorts,
    communities: &[u32],
    configs: &[&RouterConfig],
) -> Result<Vec<Router>, AllocError>
    requires communities { length communities.now ≤ 64 }
    requires valid { All IsConfig (map (λ c. c.now) configs.now) }
    ensures { IfOk result (λ v. v.items ≡ routers_from ports.now communities.now 0 (map (λ c. c.now) configs.now)) }
{
    let mut all = Vec::new(alloc);
    for (number, config) in configs.iter().enumerate() {
        all.push(router_of(alloc, ports, communities, number, config)?)?;
    }
    Ok(all)
}
