//! The communities of a bundle, and sets of them by their numbers.

ghost use Rattle.std.specs.Prelude.{◌≡◌, ◌++◌, ◌≤◌, ◌<◌, IfOk, IfSome, OnOk, length, position, flat_map};
ghost use Rattle.topology.specs.Communities.{set_values, list_values, map_values, config_values, communities, with_number, with_community, set_of};

use crate::ascending::ascending;
use net_types::{
    Bits64, CommunityEntry, CommunityList, MapEntry, NO_ADVERTISE, NO_EXPORT, RouteMap,
    RouterConfig, SetCommunity, community_among,
};
use std::alloc::{AllocError, Global};

// The communities that a `set community` line names.
fn set_values(set: &SetCommunity) -> &[u32]
    ensures { result.now ≡ set_values set.now }
{
    match set {
        SetCommunity::Replace(values) => values.as_slice(),
        SetCommunity::Add(values) => values.as_slice(),
        SetCommunity::Keep => &[],
        SetCommunity::Clear => &[],
    }
}

// Puts what a list's entries name behind the others.
fn push_list(all: &mut Vec<u32>, list: &CommunityList) -> Result<(), AllocError>
    ensures { OnOk result (all.new.items ≡ all.old.items ++ list_values list.now) }
{
    for entry in list.entries.as_slice() {
        all.extend_from_slice(entry.values.as_slice())?;
    }
    Ok(())
}

// Puts what the `set community` lines of a map name behind the others.
fn push_map(all: &mut Vec<u32>, routes: &RouteMap) -> Result<(), AllocError>
    ensures { OnOk result (all.new.items ≡ all.old.items ++ map_values routes.now) }
{
    for entry in routes.entries.as_slice() {
        all.extend_from_slice(set_values(&entry.sets.community))?;
    }
    Ok(())
}

fn push_lists(all: &mut Vec<u32>, lists: &[CommunityList]) -> Result<(), AllocError>
    ensures { OnOk result (all.new.items ≡ all.old.items ++ flat_map (λ l. list_values l) lists.now) }
{
    for list in lists {
        push_list(all, list)?;
    }
    Ok(())
}

fn push_maps(all: &mut Vec<u32>, maps: &[RouteMap]) -> Result<(), AllocError>
    ensures { OnOk result (all.new.items ≡ all.old.items ++ flat_map (λ m. map_values m) maps.now) }
{
    for routes in maps {
        push_map(all, routes)?;
    }
    Ok(())
}

// Puts what a configuration names behind the others.
fn push_config(all: &mut Vec<u32>, config: &RouterConfig) -> Result<(), AllocError>
    ensures { OnOk result (all.new.items ≡ all.old.items ++ config_values config.now) }
{
    push_lists(all, config.community_lists.as_slice())?;
    push_maps(all, config.maps.as_slice())
}

/// The communities of the configurations, ascending: the two of RFC 1997, and all that they name.
pub fn communities(alloc: Global, configs: &[RouterConfig]) -> Result<Vec<u32>, AllocError>
    ensures { IfOk result (λ v. v.items ≡ communities configs.now) }
{
    let mut all = vec![in alloc; NO_EXPORT, NO_ADVERTISE]?;
    for config in configs {
        push_config(&mut all, config)?;
    }
    ascending(alloc, all)
}

// The set with one more number.
fn with_number(set: Bits64, number: Option<usize>) -> Bits64
    requires { IfSome number (λ n. n < 64) }
    ensures { result ≡ with_number set number }
{
    match number {
        Some(number) => set.with(number as u8),
        None => set,
    }
}

// The set with the number of one more community.
#[tactic(auto, unfolding(crate::specs::Communities::with_community))]
fn with_community(all: &[u32], set: Bits64, value: u32) -> Bits64
    requires { length all.now ≤ 64 }
    ensures { result ≡ with_community all.now set value }
{
    with_number(set, community_among(all, value))
}

/// The set of the numbers of these communities.
pub fn set_of(all: &[u32], values: &[u32]) -> Bits64
    requires { length all.now ≤ 64 }
    ensures { result ≡ set_of all.now values.now }
{
    let mut set = Bits64::EMPTY;
    for value in values {
        set = with_community(all, set, *value);
    }
    set
}
