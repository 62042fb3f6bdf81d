//! The links of a network: their ends, and whether they are sessions and adjacencies.

ghost use Rattle.std.specs.Prelude.{◌≡◌, ◌<◌, All, IfOk, map};
ghost use Rattle.net_types.specs.ConfigFacts.{IsConfig};
ghost use Rattle.topology.specs.Groups.{IsNumbered};
ghost use Rattle.topology.specs.Links.{end_of, joined_by, link_of, links_of};
ghost use Rattle.topology.specs.Sessions.{no_side};

use crate::groups::Wire;
use crate::interfaces::Port;
use crate::sessions::{Side, side_at};
use net_types::{End, Link, Policy, RouterConfig};
use std::alloc::{AllocError, Global};

// The side of an end of a link that is no session.
const NO_SIDE: Side = Side {
    import: Policy::Closed,
    export: Policy::Closed,
};

fn end_of(port: &Port, side: Side) -> End
    requires { port.now.router < 64 }
    ensures { result ≡ end_of port.now side }
{
    End {
        router: port.router as u8,
        address: port.address,
        cost: port.cost,
        import: side.import,
        export: side.export,
    }
}

// The link of two interfaces, at most one session, which has two sides.
fn joined_by(wire: &Wire, low: Option<Side>, high: Option<Side>) -> Link
    requires low { wire.now.low.router < 64 }
    requires high { wire.now.high.router < 64 }
    ensures { result ≡ joined_by wire.now low high }
{
    let adjacency = wire.low.ospf && wire.high.ospf;
    match (low, high) {
        (Some(low), Some(high)) => Link {
            subnet: wire.subnet,
            low: end_of(&wire.low, low),
            high: end_of(&wire.high, high),
            session: true,
            adjacency,
        },
        _ => Link {
            subnet: wire.subnet,
            low: end_of(&wire.low, NO_SIDE),
            high: end_of(&wire.high, NO_SIDE),
            session: false,
            adjacency,
        },
    }
}

fn link_of(configs: &[&RouterConfig], wire: &Wire) -> Link
    requires valid { All IsConfig (map (λ c. c.now) configs.now) }
    requires low { wire.now.low.router < 64 }
    requires high { wire.now.high.router < 64 }
    ensures { result ≡ link_of (map (λ c. c.now) configs.now) wire.now }
{
    let low = side_at(configs, &wire.low, &wire.high);
    let high = side_at(configs, &wire.high, &wire.low);
    joined_by(wire, low, high)
}

/// The links of these pairs of interfaces, at routers with these configurations.
pub fn links(
    alloc: Global,
    configs: &[&RouterConfig],
    wires: &[Wire],
) -> Result<Vec<Link>, AllocError>
    requires valid { All IsConfig (map (λ c. c.now) configs.now) }
    requires numbered { All IsNumbered wires.now }
    ensures { IfOk result (λ v. v.items ≡ links_of (map (λ c. c.now) configs.now) wires.now) }
{
    let mut all = Vec::new(alloc);
    for wire in wires {
        all.push(link_of(configs, wire))?;
    }
    Ok(all)
}
