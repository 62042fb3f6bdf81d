//! What routers originate.

ghost use Rattle.std.specs.Prelude.{◌≡◌, ◌<◌, ◌^◌, IfOk, IfSome};
ghost use Rattle.concrete_algebra.specs.LocalRoutes.{local_of, originated, ospf_route, owner_route};

use crate::maps::run_map;
use net_types::{
    Bits64, List, Net, NoMemory, Origin, Owned, Prefix, Route, Router, Source, entry_of,
};
use std::alloc::Global;

// A local route as it begins.
fn originated(alloc: Global, origin: Origin, med: u32) -> Route
    ensures { result ≡ originated origin med }
{
    Route {
        weight: 32768,
        preference: 100,
        path: List::new(alloc),
        origin,
        med,
        communities: Bits64::EMPTY,
        source: Source::Local,
    }
}

// The local route of an owner.
fn owner_route(
    alloc: Global,
    net: &Net,
    prefix: Prefix,
    router: u8,
    found: &Router,
    entry: &Owned,
) -> Result<Option<Route>, NoMemory>
    ensures { IfOk result (λ route. route ≡ owner_route net.now prefix router found.now entry.now) }
{
    if entry.network {
        return Ok(Some(originated(alloc, Origin::Igp, 0)));
    }
    if !entry.stub {
        return Ok(None);
    }
    let plain = originated(alloc, Origin::Incomplete, 0);
    run_map(alloc, net, router, found.connected, prefix, &plain)
}

// The local route of another router.
fn ospf_route(
    alloc: Global,
    net: &Net,
    prefix: Prefix,
    router: u8,
    found: &Router,
    distance: Option<u64>,
) -> Result<Option<Route>, NoMemory>
    requires { IfSome distance (λ d. d < 2 ^ 32) }
    ensures { IfOk result (λ route. route ≡ ospf_route net.now prefix router found.now distance) }
{
    match distance {
        None => Ok(None),
        Some(distance) => {
            let plain = originated(alloc, Origin::Incomplete, distance as u32);
            run_map(alloc, net, router, found.ospf, prefix, &plain)
        }
    }
}

/// The route that the router originates for the prefix. An owner originates what a `network` line names,
/// with origin IGP, else the prefix of a stub where connected prefixes are redistributed. Another router
/// originates OSPF's route, of this distance, where OSPF's routes are redistributed; its MED is the
/// distance. What is redistributed has origin INCOMPLETE and goes through its map. This project's own.
///
/// # Errors
///
/// [`NoMemory`] where there was none for the route.
#[tactic(auto, unfolding(crate::specs::LocalRoutes::local_of))]
pub fn local_route(
    alloc: Global,
    net: &Net,
    prefix: Prefix,
    router: u8,
    distance: Option<u64>,
) -> Result<Option<Route>, NoMemory>
    requires { IfSome distance (λ d. d < 2 ^ 32) }
    ensures { IfOk result (λ route. route ≡ local_of net.now prefix router distance) }
{
    let Some(found) = net.routers().get(usize::from(router)) else {
        return Ok(None);
    };
    match entry_of(&prefix, found.owned.as_slice()) {
        Some(entry) => owner_route(alloc, net, prefix, router, found, entry),
        None => ospf_route(alloc, net, prefix, router, found, distance),
    }
}
