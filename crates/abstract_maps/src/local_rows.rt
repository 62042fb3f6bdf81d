//! The row of a router's local route alone.

ghost use Rattle.std.specs.Prelude.{◌≡◌, ◌<◌, length};
ghost use Rattle.net_types.specs.Owners.{entry_of};
ghost use Rattle.concrete_algebra.specs.LocalRoutes.{originated, ospf_route, owner_route, route_by_entry};
ghost use Rattle.concrete_algebra.specs.Maps.{map_gives};
ghost use Rattle.abstract_route.specs.Fits.{exact_row};
ghost use Rattle.abstract_route.specs.Rows.{single};
ghost use Rattle.abstract_maps.specs.AbstractMap.{IsShort};
ghost use Rattle.abstract_maps.specs.LocalRow.{exact_or_bottom, local_row};

use crate::maps::run_map_abs;
use abstract_route::{Range, Row, bottom_value};
use net_types::{Bits64, Net, Origin, Owned, Policy, Prefix, Router, entry_of};

fn single(number: u64) -> Range
    ensures { result ≡ single number }
{
    Range {
        low: number,
        high: number,
    }
}

// The row of a local route as it begins.
fn originated(origin: Origin, med: u64) -> Row
    ensures { result ≡ exact_row (originated origin med) }
{
    Row {
        weight: single(32768),
        preference: single(100),
        length: single(0),
        origin: single(u64::from(origin.rank())),
        med: single(med),
        has: Bits64::EMPTY,
        lacks: Bits64::FULL,
        may: Bits64::EMPTY,
        must: Bits64::EMPTY,
    }
}

// The row of what a policy gives of a local route.
fn redistributed(net: &Net, u: u8, policy: Policy, prefix: Prefix, origin: Origin, med: u64) -> Row
    requires { u < length net.now.routers }
    ensures { result ≡ exact_or_bottom (map_gives net.now u policy prefix (originated origin med)) }
{
    net.valid();
    let begun = originated(origin, med);
    run_map_abs(net, u, policy, prefix, &begun)
}

fn owner_row(net: &Net, prefix: Prefix, u: u8, router: &Router, entry: &Owned) -> Row
    requires { u < length net.now.routers }
    ensures { result ≡ exact_or_bottom (owner_route net.now prefix u router.now entry.now) }
{
    if entry.network {
        originated(Origin::Igp, 0)
    } else if entry.stub {
        redistributed(net, u, router.connected, prefix, Origin::Incomplete, 0)
    } else {
        bottom_value()
    }
}

fn ospf_row(net: &Net, prefix: Prefix, u: u8, router: &Router, distance: Option<u64>) -> Row
    requires { u < length net.now.routers }
    ensures { result ≡ exact_or_bottom (ospf_route net.now prefix u router.now distance) }
{
    match distance {
        None => bottom_value(),
        Some(distance) => redistributed(net, u, router.ospf, prefix, Origin::Incomplete, distance),
    }
}

fn router_row(net: &Net, prefix: Prefix, u: u8, router: &Router, distance: Option<u64>) -> Row
    requires { u < length net.now.routers }
    ensures { result ≡ exact_or_bottom (route_by_entry net.now prefix u router.now distance (entry_of prefix router.now.owned)) }
{
    match entry_of(&prefix, router.owned.as_slice()) {
        Some(entry) => owner_row(net, prefix, u, router, entry),
        None => ospf_row(net, prefix, u, router, distance),
    }
}

#[tactic(auto, unfolding(concrete_algebra::specs::LocalRoutes::local_of))]
fn row_at(net: &Net, prefix: Prefix, u: u8, distance: Option<u64>) -> Row
    requires { u < length net.now.routers }
    ensures { result ≡ local_row net.now prefix u distance }
{
    match net.routers().get(usize::from(u)) {
        None => bottom_value(),
        Some(router) => router_row(net, prefix, u, router, distance),
    }
}

/// The row of exactly the route that the router originates for the prefix, or the row of no route where it
/// originates none. The distance is the router's OSPF distance. This project's own.
pub fn local_row(net: &Net, prefix: Prefix, router: u8, distance: Option<u64>) -> Row
    requires { router < length net.now.routers }
    ensures row { result ≡ local_row net.now prefix router distance }
    ensures short { IsShort result }
{
    net.valid();
    row_at(net, prefix, router, distance)
}
