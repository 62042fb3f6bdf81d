//! What policies make of routes.

ghost use Rattle.std.specs.Prelude.{◌≡◌, IfOk};
ghost use Rattle.concrete_algebra.specs.Maps.{entries_give, entry_gives, map_entries, map_gives};

use crate::matches::entry_matches;
use crate::sets::under_sets;
use net_types::{Net, NetMapEntry, NoMemory, Policy, Prefix, Route, Router};
use std::alloc::Global;

// What an entry that matches gives.
fn entry_gives(
    alloc: Global,
    found: &Router,
    router: u8,
    entry: &NetMapEntry,
    route: &Route,
) -> Result<Option<Route>, NoMemory>
    ensures { IfOk result (λ given. given ≡ entry_gives found.now router entry.now route.now) }
{
    if !entry.permit {
        return Ok(None);
    }
    Ok(Some(under_sets(alloc, found, router, &entry.sets, route)?))
}

// What the entries of a map give: the first that matches decides.
#[tactic(auto, unfolding(crate::specs::Maps::entries_give))]
fn entries_give(
    alloc: Global,
    found: &Router,
    router: u8,
    prefix: &Prefix,
    entries: &[NetMapEntry],
    route: &Route,
) -> Result<Option<Route>, NoMemory>
    ensures { IfOk result (λ given. given ≡ entries_give found.now router prefix.now entries.now route.now) }
{
    for entry in entries {
        if entry_matches(found, prefix, entry, route.communities) {
            return entry_gives(alloc, found, router, entry, route);
        }
    }
    Ok(None)
}

/// The entries of the router's map at a position, none where there is no such map.
pub fn map_entries(router: &Router, position: u32) -> &[NetMapEntry]
    ensures { result.now ≡ map_entries router.now position }
{
    match router.maps.as_slice().get(position as usize) {
        Some(found) => found.entries.as_slice(),
        None => &[],
    }
}

/// What a policy of the router with this number gives of a route for the prefix: a closed one nothing, an
/// open one the route, and a map what its first entry that matches gives, a deny and the end being nothing.
/// This project's profile of FRR's route maps.
///
/// # Errors
///
/// [`NoMemory`] where there was none for the route.
#[tactic(auto, unfolding(crate::specs::Maps::map_gives))]
pub fn run_map(
    alloc: Global,
    net: &Net,
    router: u8,
    policy: Policy,
    prefix: Prefix,
    route: &Route,
) -> Result<Option<Route>, NoMemory>
    ensures { IfOk result (λ given. given ≡ map_gives net.now router policy prefix route.now) }
{
    match policy {
        Policy::Closed => Ok(None),
        Policy::Open => Ok(Some(route.copy(alloc)?)),
        Policy::Map(position) => match net.routers().get(usize::from(router)) {
            None => Ok(None),
            Some(found) => {
                let entries = map_entries(found, position);
                entries_give(alloc, found, router, &prefix, entries, route)
            }
        },
    }
}
