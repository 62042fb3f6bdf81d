//! Lists and maps of a router, with positions in place of names and numbers in place of communities.

ghost use Rattle.std.specs.Prelude.{◌≡◌, ◌≤◌, ◌<◌, ◌^◌, ◌++◌, All, IfOk, OnOk, length, map, option_map};
ghost use Rattle.net_types.specs.ConfigFacts.{IsMap, IsMapEntry};
ghost use Rattle.topology.specs.Resolving.{prefix_list_place, community_list_place, map_place, net_community_entry, net_community_list, net_set_community, net_sets, net_map_entry, net_map_entries, net_map};

use crate::communities::set_of;
use net_types::{
    CommunityEntry, CommunityList, List, MapEntry, NetCommunityEntry, NetCommunityList, NetMap,
    NetMapEntry, NetSetCommunity, NetSets, PrefixList, RouteMap, RouterConfig, SetCommunity, Sets,
    Text,
};
use std::alloc::{AllocError, Global};

// The position of the prefix list of this name.
fn prefix_list_place(lists: &[PrefixList], name: &Text) -> u32
    requires { length lists.now < 2 ^ 32 }
    ensures { result ≡ prefix_list_place lists.now name.now }
{
    let name = name.as_bytes();
    lists
        .iter()
        .take_while(|list| list.name.as_bytes() != name)
        .count() as u32
}

// The position of the community list of this name.
fn community_list_place(lists: &[CommunityList], name: &Text) -> u32
    requires { length lists.now < 2 ^ 32 }
    ensures { result ≡ community_list_place lists.now name.now }
{
    let name = name.as_bytes();
    lists
        .iter()
        .take_while(|list| list.name.as_bytes() != name)
        .count() as u32
}

/// The position of the map of this name.
pub fn map_place(maps: &[RouteMap], name: &Text) -> u32
    requires { length maps.now < 2 ^ 32 }
    ensures { result ≡ map_place maps.now name.now }
{
    let name = name.as_bytes();
    maps.iter()
        .take_while(|routes| routes.name.as_bytes() != name)
        .count() as u32
}

// The position of the prefix list of a name, where there is one.
fn prefix_list_named(lists: &[PrefixList], name: &Option<Text>) -> Option<u32>
    requires { length lists.now < 2 ^ 32 }
    ensures { result ≡ option_map (λ n. prefix_list_place lists.now n) name.now }
{
    match name {
        Some(name) => Some(prefix_list_place(lists, name)),
        None => None,
    }
}

// The position of the community list of a name, where there is one.
fn community_list_named(lists: &[CommunityList], name: &Option<Text>) -> Option<u32>
    requires { length lists.now < 2 ^ 32 }
    ensures { result ≡ option_map (λ n. community_list_place lists.now n) name.now }
{
    match name {
        Some(name) => Some(community_list_place(lists, name)),
        None => None,
    }
}

fn net_community_entry(communities: &[u32], entry: &CommunityEntry) -> NetCommunityEntry
    requires { length communities.now ≤ 64 }
    ensures { result ≡ net_community_entry communities.now entry.now }
{
    NetCommunityEntry {
        seq: entry.seq,
        permit: entry.permit,
        values: set_of(communities, entry.values.as_slice()),
    }
}

fn net_community_list(
    alloc: Global,
    communities: &[u32],
    list: &CommunityList,
) -> Result<NetCommunityList, AllocError>
    requires { length communities.now ≤ 64 }
    ensures { IfOk result (λ l. l ≡ net_community_list communities.now list.now) }
{
    let mut entries = Vec::new(alloc);
    for entry in list.entries.as_slice() {
        entries.push(net_community_entry(communities, entry))?;
    }
    Ok(NetCommunityList {
        name: Text::from_str(alloc, list.name.as_str())?,
        entries: List::from_vec(entries),
    })
}

/// The community lists with numbers of communities.
pub fn net_community_lists(
    alloc: Global,
    communities: &[u32],
    lists: &[CommunityList],
) -> Result<Vec<NetCommunityList>, AllocError>
    requires { length communities.now ≤ 64 }
    ensures { IfOk result (λ v. v.items ≡ map (λ l. net_community_list communities.now l) lists.now) }
{
    let mut all = Vec::new(alloc);
    for list in lists {
        all.push(net_community_list(alloc, communities, list)?)?;
    }
    Ok(all)
}

fn prefix_list(alloc: Global, list: &PrefixList) -> Result<PrefixList, AllocError>
    ensures { IfOk result (λ l. l ≡ list.now) }
{
    Ok(PrefixList {
        name: Text::from_str(alloc, list.name.as_str())?,
        entries: List::from_slice(alloc, list.entries.as_slice())?,
    })
}

/// The same prefix lists.
pub fn prefix_lists(alloc: Global, lists: &[PrefixList]) -> Result<Vec<PrefixList>, AllocError>
    ensures { IfOk result (λ v. v.items ≡ lists.now) }
{
    let mut all = Vec::new(alloc);
    for list in lists {
        all.push(prefix_list(alloc, list)?)?;
    }
    Ok(all)
}

fn net_set_community(communities: &[u32], set: &SetCommunity) -> NetSetCommunity
    requires { length communities.now ≤ 64 }
    ensures { result ≡ net_set_community communities.now set.now }
{
    match set {
        SetCommunity::Keep => NetSetCommunity::Keep,
        SetCommunity::Replace(values) => {
            NetSetCommunity::Replace(set_of(communities, values.as_slice()))
        }
        SetCommunity::Add(values) => NetSetCommunity::Add(set_of(communities, values.as_slice())),
        SetCommunity::Clear => NetSetCommunity::Clear,
    }
}

// The sets of an entry, of which this is done with the communities.
fn net_sets(config: &RouterConfig, sets: &Sets, community: NetSetCommunity) -> NetSets
    requires lists { length config.now.community_lists < 2 ^ 32 }
    requires few { length sets.now.prepend ≤ 10 }
    ensures { result ≡ net_sets community config.now sets.now }
{
    NetSets {
        weight: sets.weight,
        preference: sets.preference,
        med: sets.med,
        origin: sets.origin,
        delete: community_list_named(config.community_lists.as_slice(), &sets.delete),
        community,
        prepend: sets.prepend.len() as u8,
    }
}

// The entry of a map, with these sets.
fn net_map_entry(config: &RouterConfig, entry: &MapEntry, sets: NetSets) -> NetMapEntry
    requires prefix_lists { length config.now.prefix_lists < 2 ^ 32 }
    requires community_lists { length config.now.community_lists < 2 ^ 32 }
    ensures { result ≡ net_map_entry sets config.now entry.now }
{
    NetMapEntry {
        seq: entry.seq,
        permit: entry.permit,
        prefixes: prefix_list_named(config.prefix_lists.as_slice(), &entry.prefixes),
        communities: community_list_named(config.community_lists.as_slice(), &entry.communities),
        sets,
    }
}

// Puts the entries of a map behind the others.
fn push_entries(
    all: &mut Vec<NetMapEntry>,
    communities: &[u32],
    config: &RouterConfig,
    entries: &[MapEntry],
) -> Result<(), AllocError>
    requires communities { length communities.now ≤ 64 }
    requires prefix_lists { length config.now.prefix_lists < 2 ^ 32 }
    requires community_lists { length config.now.community_lists < 2 ^ 32 }
    requires valid { All (IsMapEntry config.now) entries.now }
    ensures { OnOk result (all.new.items ≡ all.old.items ++ net_map_entries communities.now config.now entries.now) }
{
    for entry in entries {
        let community = net_set_community(communities, &entry.sets.community);
        let sets = net_sets(config, &entry.sets, community);
        all.push(net_map_entry(config, entry, sets))?;
    }
    Ok(())
}

fn net_map(
    alloc: Global,
    communities: &[u32],
    config: &RouterConfig,
    routes: &RouteMap,
) -> Result<NetMap, AllocError>
    requires communities { length communities.now ≤ 64 }
    requires prefix_lists { length config.now.prefix_lists < 2 ^ 32 }
    requires community_lists { length config.now.community_lists < 2 ^ 32 }
    requires valid { IsMap config.now routes.now }
    ensures { IfOk result (λ m. m ≡ net_map communities.now config.now routes.now) }
{
    let name = Text::from_str(alloc, routes.name.as_str())?;
    let mut entries = Vec::new(alloc);
    push_entries(&mut entries, communities, config, routes.entries.as_slice())?;
    Ok(NetMap {
        name,
        entries: List::from_vec(entries),
    })
}

/// The route maps of a configuration with positions of lists and numbers of communities.
pub fn net_maps(
    alloc: Global,
    communities: &[u32],
    config: &RouterConfig,
) -> Result<Vec<NetMap>, AllocError>
    requires communities { length communities.now ≤ 64 }
    requires prefix_lists { length config.now.prefix_lists < 2 ^ 32 }
    requires community_lists { length config.now.community_lists < 2 ^ 32 }
    requires valid { All (IsMap config.now) config.now.maps }
    ensures { IfOk result (λ v. v.items ≡ map (λ m. net_map communities.now config.now m) config.now.maps) }
{
    let mut all = Vec::new(alloc);
    for routes in config.maps.as_slice() {
        all.push(net_map(alloc, communities, config, routes)?)?;
    }
    Ok(all)
}
