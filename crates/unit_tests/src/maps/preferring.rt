//! Routers a and b, which prefer the way through each other, and d, which originates 10.9.0.0/24.

ghost use Rattle.std.specs.Prelude.{◌≡◌, IfOk, length};

use crate::asserting::holds;
use crate::networks::network_of;
use abstract_maps::{is_open, local_row, passes, transfer};
use abstract_route::{BOTTOM, Range, Row, contains};
use concrete_algebra::{export, import, local_route};
use net_types::{Arc, Bits64, BundleRefusal, Net, Prefix, Route};
use std::alloc::Global;
use std::test::Fail;

// The prefix 10.9.0.0/24.
fn prefix() -> Prefix {
    Prefix::masked(0x0A09_0000, 24)
}

// Routers a and b: each prefers what it has from the other.
const A: &str = "hostname a
interface e0
 ip address 10.0.0.1/24
interface e1
 ip address 10.0.1.1/24
router bgp 65001
 no bgp ebgp-requires-policy
 neighbor 10.0.0.2 remote-as 65002
 neighbor 10.0.0.2 route-map HIGH in
 neighbor 10.0.1.3 remote-as 65003
route-map HIGH permit 10
 set local-preference 200
";

const B: &str = "hostname b
interface e0
 ip address 10.0.0.2/24
interface e2
 ip address 10.0.2.2/24
router bgp 65002
 no bgp ebgp-requires-policy
 neighbor 10.0.0.1 remote-as 65001
 neighbor 10.0.0.1 route-map HIGH in
 neighbor 10.0.2.3 remote-as 65003
route-map HIGH permit 10
 set local-preference 200
";

// The router that originates the prefix.
const D: &str = "hostname d
interface e1
 ip address 10.0.1.3/24
interface e2
 ip address 10.0.2.3/24
router bgp 65003
 no bgp ebgp-requires-policy
 neighbor 10.0.1.1 remote-as 65001
 neighbor 10.0.2.2 remote-as 65002
 network 10.9.0.0/24
";

// Routers a, b and d are 0, 1 and 2; links 0 to 2 are those between a and b, a and d, b and d.
fn network(alloc: Global) -> Result<Net, BundleRefusal>
    ensures { IfOk result (λ net. length net.routers ≡ 3) }
{
    network_of(alloc, &[A, B, D], 3)
}

const ZERO: Range = Range { low: 0, high: 0 };

// What d originates.
const ORIGINATED: Row = Row {
    weight: Range {
        low: 32768,
        high: 32768,
    },
    preference: Range {
        low: 100,
        high: 100,
    },
    length: ZERO,
    origin: ZERO,
    med: ZERO,
    has: Bits64::EMPTY,
    lacks: Bits64::FULL,
    may: Bits64::EMPTY,
    must: Bits64::EMPTY,
};

// A row at this local preference and length, and these routers on the path.
fn learned(preference: u64, length: u64, routers: Bits64) -> Row {
    Row {
        weight: ZERO,
        preference: Range {
            low: preference,
            high: preference,
        },
        length: Range {
            low: length,
            high: length,
        },
        may: routers,
        must: routers,
        ..ORIGINATED
    }
}

const A_TO_B: Arc = Arc {
    link: 0,
    down: false,
};

const A_TO_D: Arc = Arc {
    link: 1,
    down: false,
};

const D_TO_A: Arc = Arc {
    link: 1,
    down: true,
};

const NOWHERE: Arc = Arc {
    link: 3,
    down: false,
};

// What d originates comes to a, and by a to b.
fn comes_to_both(net: &Net) -> bool
    requires { length net.now.routers ≡ 3 }
{
    let at_d = local_row(net, prefix(), 2, None);
    let at_a = transfer(net, prefix(), D_TO_A, &at_d);
    let at_b = transfer(net, prefix(), A_TO_B, &at_a);
    let of_d = Bits64::EMPTY.with(2);
    at_d == ORIGINATED
        && at_a == learned(100, 1, of_d)
        && at_b == learned(200, 2, of_d.with(0))
        && passes(net, prefix(), D_TO_A, &at_d)
        && passes(net, prefix(), A_TO_B, &at_a)
}

#[test]
fn transfer_rows(rt: HostRuntime) -> Result<(), Fail> {
    let net = network(rt.alloc())?;
    holds(&rt, comes_to_both(&net));
    Ok(())
}

// The way back is open, and brings nothing; nothing comes over a link that is not there.
fn brings_nothing_back(net: &Net) -> bool
    requires { length net.now.routers ≡ 3 }
{
    let at_d = local_row(net, prefix(), 2, None);
    let at_a = transfer(net, prefix(), D_TO_A, &at_d);
    transfer(net, prefix(), A_TO_D, &at_a) == BOTTOM
        && is_open(net, prefix(), A_TO_D, &at_a)
        && passes(net, prefix(), A_TO_D, &at_a)
        && !is_open(net, prefix(), A_TO_D, &BOTTOM)
        && transfer(net, prefix(), NOWHERE, &at_d) == BOTTOM
}

#[test]
fn the_way_back_is_open_and_brings_nothing(rt: HostRuntime) -> Result<(), Fail> {
    let net = network(rt.alloc())?;
    holds(&rt, brings_nothing_back(&net));
    Ok(())
}

/// Whether the route is in the row.
pub(super) fn is_in(row: &Row, route: &Route) -> bool {
    route.path.as_slice().iter().all(|&router| router < 64) && contains(row, route)
}

// Whether what d originates, sends and a takes in is there, and is in the rows; none where it is not there.
fn is_carried_in_rows(alloc: Global, net: &Net) -> Option<bool>
    requires { length net.now.routers ≡ 3 }
{
    let row = local_row(net, prefix(), 2, None);
    let at_a = transfer(net, prefix(), D_TO_A, &row);
    let route = local_route(alloc, net, prefix(), 2, None).ok()??;
    let sent = export(alloc, net, prefix(), D_TO_A, &route).ok()??;
    let taken = import(alloc, net, prefix(), D_TO_A, &sent).ok()??;
    Some(is_in(&row, &route) && is_in(&at_a, &taken))
}

#[test]
fn what_is_carried_is_in_the_transfer(rt: HostRuntime) -> Result<(), Fail> {
    let net = network(rt.alloc())?;
    holds(&rt, is_carried_in_rows(rt.alloc(), &net) == Some(true));
    Ok(())
}
