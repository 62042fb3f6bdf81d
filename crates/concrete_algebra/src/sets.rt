//! What the sets of a route map's entry make of a route.

ghost use Rattle.std.specs.Prelude.{◌≡◌, IfOk};
ghost use Rattle.concrete_algebra.specs.Maps.{deleted_by, under_sets, with_set, without_deleted};

use crate::matches::community_entries;
use crate::paths::prepended;
use net_types::{Bits64, NetCommunityEntry, NetSetCommunity, NetSets, NoMemory, Route, Router};
use std::alloc::Global;

/// The communities that a list deletes: those for which the first entry that names them is a permit.
#[tactic(auto, unfolding(crate::specs::Maps::deleted_by))]
pub fn deleted_by(entries: &[NetCommunityEntry]) -> Bits64
    ensures { result ≡ deleted_by entries.now }
{
    match entries.split_first() {
        None => Bits64::EMPTY,
        Some((entry, later)) => {
            let rest = deleted_by(later);
            if entry.permit {
                entry.values.union(rest)
            } else {
                rest.minus(entry.values)
            }
        }
    }
}

/// The communities that are left where a list's are deleted, if one is named.
pub fn without_deleted(router: &Router, position: Option<u32>, held: Bits64) -> Bits64
    ensures { result ≡ without_deleted router.now position held }
{
    match position {
        None => held,
        Some(position) => held.minus(deleted_by(community_entries(router, position))),
    }
}

/// The communities after `set community`.
pub fn with_set(set: NetSetCommunity, held: Bits64) -> Bits64
    ensures { result ≡ with_set set held }
{
    match set {
        NetSetCommunity::Keep => held,
        NetSetCommunity::Replace(values) => values,
        NetSetCommunity::Add(values) => held.union(values),
        NetSetCommunity::Clear => Bits64::EMPTY,
    }
}

// The route of the router with this number under the sets of an entry.
#[tactic(auto, unfolding(crate::specs::Maps::under_sets))]
pub(crate) fn under_sets(
    alloc: Global,
    found: &Router,
    router: u8,
    sets: &NetSets,
    route: &Route,
) -> Result<Route, NoMemory>
    ensures { IfOk result (λ changed. changed ≡ under_sets found.now router sets.now route.now) }
{
    let left = without_deleted(found, sets.delete, route.communities);
    Ok(Route {
        weight: sets.weight.unwrap_or(route.weight),
        preference: sets.preference.unwrap_or(route.preference),
        path: prepended(alloc, router, sets.prepend, route.path.as_slice())?,
        origin: sets.origin.unwrap_or(route.origin),
        med: sets.med.unwrap_or(route.med),
        communities: with_set(sets.community, left),
        source: route.source,
    })
}
