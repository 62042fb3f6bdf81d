//! The groups of interfaces in one subnet, and the pairs of them that are links.

ghost use Rattle.std.specs.Prelude.{◌≡◌, IfOk};
ghost use Rattle.topology.specs.Groups.{joined, kind_at, subnets_of, shared_subnet, wires};
ghost use Rattle.topology.specs.Members.{with_member, kind_of_members};

use crate::ascending::ascending;
use crate::grouped::GroupedPorts;
use crate::interfaces::Port;
use net_types::Prefix;
use std::alloc::{AllocError, Global};

/// What the interfaces in one subnet make.
#[derive(Clone, Copy, Debug)]
pub enum Group {
    /// One interface, which is a stub.
    Alone,
    /// Two interfaces of two routers, which are a link: at the lower router number, and at the higher.
    Joined(Port, Port),
    /// Any other group, which is refused.
    Shared,
}

/// The members of a group, as far as what they make needs them.
#[derive(Clone, Copy, Debug)]
pub enum Members {
    /// One interface.
    One(Port),
    /// Two interfaces, in their order.
    Two(Port, Port),
    /// More than two.
    More,
}

/// The two interfaces of a link.
#[derive(Clone, Copy, Debug)]
pub struct Wire {
    /// The subnet.
    pub subnet: Prefix,
    /// The interface at the router with the lower number.
    pub low: Port,
    /// The interface at the router with the higher number.
    pub high: Port,
}

/// The subnets of the interfaces that can be ends of links, ascending.
pub fn subnets(alloc: Global, ports: &GroupedPorts) -> Result<Vec<Prefix>, AllocError>
    ensures { IfOk result (λ v. v.items ≡ subnets_of ports.now) }
{
    let mut all = Vec::new(alloc);
    for port in ports.as_slice() {
        if port.can_link() {
            all.push(port.subnet)?;
        }
    }
    ascending(alloc, all)
}

// Two interfaces of one subnet: a link where they are of two routers.
fn joined(a: Port, b: Port) -> Group
    ensures { result ≡ joined a b }
{
    if a.router < b.router {
        Group::Joined(a, b)
    } else if b.router < a.router {
        Group::Joined(b, a)
    } else {
        Group::Shared
    }
}

/// These members and one more.
pub fn with_member(members: Option<Members>, port: Port) -> Members
    ensures { result ≡ with_member members port }
{
    match members {
        None => Members::One(port),
        Some(Members::One(first)) => Members::Two(first, port),
        Some(_more) => Members::More,
    }
}

/// What the members make.
pub fn kind_of_members(members: Option<Members>) -> Group
    ensures { result ≡ kind_of_members members }
{
    match members {
        Some(Members::One(_only)) => Group::Alone,
        Some(Members::Two(a, b)) => joined(a, b),
        _ => Group::Shared,
    }
}

/// The least subnet whose group is refused.
pub fn shared_subnet(ports: &GroupedPorts, subnets: &[Prefix]) -> Option<Prefix>
    requires { subnets.now ≡ subnets_of ports.now }
    ensures { result ≡ shared_subnet ports.now }
{
    for subnet in subnets {
        if let Group::Shared = ports.group_at(subnet) {
            return Some(*subnet);
        }
    }
    None
}

/// The pairs of interfaces that are links, in the order of their subnets.
pub fn wires(
    alloc: Global,
    ports: &GroupedPorts,
    subnets: &[Prefix],
) -> Result<Vec<Wire>, AllocError>
    requires { subnets.now ≡ subnets_of ports.now }
    ensures { IfOk result (λ v. v.items ≡ wires ports.now) }
{
    let mut all = Vec::new(alloc);
    for subnet in subnets {
        if let Group::Joined(low, high) = ports.group_at(subnet) {
            all.push(Wire {
                subnet: *subnet,
                low,
                high,
            })?;
        }
    }
    Ok(all)
}
