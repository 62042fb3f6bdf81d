//! The stubs of a router, and the prefixes that it owns.

ghost use Rattle.std.specs.Prelude.{◌≡◌, [], IfOk, OnOk, Some, map, if◌then◌else◌};
ghost use Rattle.net_types.specs.PrefixValue.{PrefixValue};
ghost use Rattle.net_types.specs.Prefixes.{same_prefix};
ghost use Rattle.topology.specs.OwnedTable.{owned_at, with_cost, with_stub, with_network, IsOwnedTable};
ghost use Rattle.topology.specs.Owning.{is_stub, stubs, stub_cost, lesser, prefixes_of, owned_by, networks_of};

use crate::ascending::ascending;
use crate::by_prefix::{ByPrefix, put_at, value_at};
use crate::grouped::GroupedPorts;
use crate::groups::Group;
use crate::interfaces::Port;
use net_types::{Owned, Prefix, RouterConfig};
use std::alloc::{AllocError, Global};
use std::collections::BTreeMap;

// Whether the interface is a stub.
fn is_stub(ports: &GroupedPorts, port: &Port) -> bool
    ensures { result ≡ is_stub ports.now port.now }
{
    if !port.can_link() {
        return true;
    }
    match ports.group_at(&port.subnet) {
        Group::Alone => true,
        _other => false,
    }
}

/// The stubs of a router.
pub fn stubs(alloc: Global, ports: &GroupedPorts, router: usize) -> Result<Vec<Port>, AllocError>
    ensures { IfOk result (λ v. v.items ≡ stubs ports.now router) }
{
    let mut all = Vec::new(alloc);
    for port in ports.as_slice() {
        if port.router == router && is_stub(ports, port) {
            all.push(*port)?;
        }
    }
    Ok(all)
}

// The cost of a stub.
fn stub_cost(port: &Port) -> u32
    ensures { result ≡ stub_cost port.now }
{
    if port.loopback { 0 } else { port.cost }
}

fn lesser(least: Option<u32>, cost: u32) -> u32
    ensures { Some result ≡ lesser least cost }
{
    match least {
        Some(least) => least.min(cost),
        None => cost,
    }
}

// The least cost with that of one more stub, where it runs OSPF.
fn with_cost(least: Option<u32>, port: &Port) -> Option<u32>
    ensures { result ≡ with_cost least port.now }
{
    if port.ospf {
        Some(lesser(least, stub_cost(port)))
    } else {
        least
    }
}

// The entry of a prefix.
fn owned_at(table: &ByPrefix<Owned>, prefix: &Prefix) -> Owned
    ensures { result ≡ owned_at table.now prefix.now }
{
    match value_at(table, prefix) {
        Some(owned) => owned,
        None => Owned {
            prefix: *prefix,
            network: false,
            stub: false,
            ospf_cost: None,
        },
    }
}

// Adds a stub to the entry of its prefix.
fn add_stub(table: &mut ByPrefix<Owned>, port: &Port) -> Result<(), AllocError>
    ensures { OnOk result ((q : PrefixValue) → owned_at table.new q ≡ (if same_prefix port.now.subnet q then with_stub (owned_at table.old q) port.now else owned_at table.old q)) }
{
    let owned = owned_at(table, &port.subnet);
    let with_stub = Owned {
        prefix: owned.prefix,
        network: owned.network,
        stub: true,
        ospf_cost: with_cost(owned.ospf_cost, port),
    };
    put_at(table, &port.subnet, with_stub)
}

// Adds a `network` line to the entry of its prefix.
fn add_network(table: &mut ByPrefix<Owned>, network: &Prefix) -> Result<(), AllocError>
    ensures { OnOk result ((q : PrefixValue) → owned_at table.new q ≡ (if same_prefix network.now q then with_network (owned_at table.old q) else owned_at table.old q)) }
{
    let owned = owned_at(table, network);
    let with_network = Owned {
        prefix: owned.prefix,
        network: true,
        stub: owned.stub,
        ospf_cost: owned.ospf_cost,
    };
    put_at(table, network, with_network)
}

// What the stubs make owned.
fn stub_table(alloc: Global, stubs: &[Port]) -> Result<ByPrefix<Owned>, AllocError>
    ensures { IfOk result (λ table. IsOwnedTable stubs.now [] table) }
{
    let mut table = BTreeMap::new(alloc);
    for port in stubs {
        add_stub(&mut table, port)?;
    }
    Ok(table)
}

// What the stubs and the `network` lines make owned.
fn owned_table(
    alloc: Global,
    stubs: &[Port],
    networks: &[Prefix],
) -> Result<ByPrefix<Owned>, AllocError>
    ensures { IfOk result (λ table. IsOwnedTable stubs.now networks.now table) }
{
    let mut table = stub_table(alloc, stubs)?;
    for network in networks {
        add_network(&mut table, network)?;
    }
    Ok(table)
}

// The prefixes of the stubs, as they stand.
fn stub_prefixes(alloc: Global, stubs: &[Port]) -> Result<Vec<Prefix>, AllocError>
    ensures { IfOk result (λ v. v.items ≡ map (λ port. port.subnet) stubs.now) }
{
    let mut all = Vec::new(alloc);
    for port in stubs {
        all.push(port.subnet)?;
    }
    Ok(all)
}

// The prefixes of the stubs and of the `network` lines, ascending.
fn prefixes_of(
    alloc: Global,
    stubs: &[Port],
    networks: &[Prefix],
) -> Result<Vec<Prefix>, AllocError>
    ensures { IfOk result (λ v. v.items ≡ prefixes_of stubs.now networks.now) }
{
    let mut all = stub_prefixes(alloc, stubs)?;
    all.extend_from_slice(networks)?;
    ascending(alloc, all)
}

/// What a router with these stubs and `network` lines owns.
pub fn owned_by(
    alloc: Global,
    stubs: &[Port],
    networks: &[Prefix],
) -> Result<Vec<Owned>, AllocError>
    ensures { IfOk result (λ v. v.items ≡ owned_by stubs.now networks.now) }
{
    let table = owned_table(alloc, stubs, networks)?;
    let prefixes = prefixes_of(alloc, stubs, networks)?;
    let mut all = Vec::new(alloc);
    for prefix in &prefixes {
        all.push(owned_at(&table, prefix))?;
    }
    Ok(all)
}

/// The prefixes of the `network` lines of a configuration's BGP.
pub fn networks_of(config: &RouterConfig) -> &[Prefix]
    ensures { result.now ≡ networks_of config.now }
{
    match &config.bgp {
        Some(bgp) => bgp.networks.as_slice(),
        None => &[],
    }
}
