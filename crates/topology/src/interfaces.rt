//! The live interfaces of a bundle.

ghost use Rattle.std.specs.Prelude.{◌≡◌, ◌++◌, IfOk, OnOk, map};
ghost use Rattle.std.specs.List.{list_any};
ghost use Rattle.net_types.specs.Prefixes.{covers};
ghost use Rattle.topology.specs.Live.{live, is_loopback, runs_ospf, port_of, ports_of, ports_from, can_link, link_address};

use net_types::{Interface, Prefix, RouterConfig};
use std::alloc::{AllocError, Global};

// The OSPF cost of an interface where none is written.
const DEFAULT_COST: u32 = 10;

/// A live interface of a router.
#[derive(Clone, Copy, Debug)]
pub struct Port {
    /// The router's number.
    pub router: usize,
    /// The address.
    pub address: u32,
    /// The subnet of the address.
    pub subnet: Prefix,
    /// Whether it is named `lo`.
    pub loopback: bool,
    /// Whether it runs OSPF.
    pub ospf: bool,
    /// The OSPF cost.
    pub cost: u32,
}

impl Port {
    /// Whether it can be an end of a link.
    pub fn can_link(&self) -> bool
        ensures { result ≡ can_link self.now.loopback self.now.subnet }
    {
        can_link(self.loopback, &self.subnet)
    }
}

// Whether an interface in this subnet can be an end of a link.
fn can_link(loopback: bool, subnet: &Prefix) -> bool
    ensures { result ≡ can_link loopback subnet.now }
{
    !loopback && subnet.len <= 31
}

// The address and the subnet of a live interface.
fn live(interface: &Interface) -> Option<(u32, Prefix)>
    ensures { result ≡ live interface.now }
{
    if interface.shutdown {
        None
    } else {
        interface.address
    }
}

fn is_loopback(interface: &Interface) -> bool
    ensures { result ≡ is_loopback interface.now }
{
    interface.name.as_bytes() == b"lo".as_slice()
}

/// The address of a live interface that can be an end of a link.
pub fn link_address(interface: &Interface) -> Option<u32>
    ensures { result ≡ link_address interface.now }
{
    let (address, subnet) = live(interface)?;
    if can_link(is_loopback(interface), &subnet) {
        Some(address)
    } else {
        None
    }
}

// Whether the subnet lies in one of the prefixes.
fn is_covered(prefixes: &[Prefix], subnet: &Prefix) -> bool
    ensures { result ≡ list_any (λ p. covers p subnet.now) prefixes.now }
{
    prefixes.iter().any(|prefix| prefix.covers(subnet))
}

// Whether the interface runs OSPF.
fn runs_ospf(config: &RouterConfig, interface: &Interface, subnet: &Prefix) -> bool
    ensures { result ≡ runs_ospf config.now interface.now subnet.now }
{
    match &config.ospf {
        None => false,
        Some(prefixes) => interface.ospf || is_covered(prefixes.as_slice(), subnet),
    }
}

// The interface as one of this router, where it is live.
fn port_of(router: usize, config: &RouterConfig, interface: &Interface) -> Option<Port>
    ensures { result ≡ port_of router config.now interface.now }
{
    let (address, subnet) = live(interface)?;
    Some(Port {
        router,
        address,
        subnet,
        loopback: is_loopback(interface),
        ospf: runs_ospf(config, interface, &subnet),
        cost: interface.cost.unwrap_or(DEFAULT_COST),
    })
}

// Puts the live interfaces of one router behind the others.
fn push_ports(all: &mut Vec<Port>, router: usize, config: &RouterConfig) -> Result<(), AllocError>
    ensures { OnOk result (all.new.items ≡ all.old.items ++ ports_of router config.now) }
{
    for interface in config.interfaces.as_slice() {
        if let Some(port) = port_of(router, config, interface) {
            all.push(port)?;
        }
    }
    Ok(())
}

/// The live interfaces of the routers, which have these configurations.
pub fn ports(alloc: Global, configs: &[&RouterConfig]) -> Result<Vec<Port>, AllocError>
    ensures { IfOk result (λ v. v.items ≡ ports_from 0 (map (λ c. c.now) configs.now)) }
{
    let mut all = Vec::new(alloc);
    for (router, config) in configs.iter().enumerate() {
        push_ports(&mut all, router, config)?;
    }
    Ok(all)
}
