//! Networks as texts.

use net_types::{
    End, Net, NetCommunityEntry, NetMapEntry, NetSetCommunity, NoMemory, Owned, PrefixEntry,
    Router, address_text, prefix_text,
};
use std::alloc::Global;

// The word of an action.
fn action(permit: bool) -> &'static str {
    if permit { "permit" } else { "deny" }
}

// What an entry does with communities, sets as words of bits.
fn community_text(alloc: Global, community: &NetSetCommunity) -> Result<String, NoMemory> {
    match community {
        NetSetCommunity::Keep => Ok(String::from_str(alloc, "Keep")?),
        NetSetCommunity::Replace(set) => Ok(format!(in alloc; "Replace {}", set.word())?),
        NetSetCommunity::Add(set) => Ok(format!(in alloc; "Add {}", set.word())?),
        NetSetCommunity::Clear => Ok(String::from_str(alloc, "Clear")?),
    }
}

fn entry_text(alloc: Global, entry: &NetMapEntry) -> Result<String, NoMemory> {
    let (seq, action, sets) = (entry.seq, action(entry.permit), &entry.sets);
    let community = community_text(alloc, &sets.community)?;
    let matches = format!(in alloc;
        "prefixes {:?} communities {:?}",
        entry.prefixes, entry.communities
    )?;
    let numbers = format!(in alloc;
        "weight {:?} preference {:?} med {:?}",
        sets.weight, sets.preference, sets.med
    )?;
    let rest = format!(in alloc;
        "origin {:?} delete {:?} prepend {}",
        sets.origin, sets.delete, sets.prepend
    )?;
    Ok(format!(in alloc; "{seq} {action} {matches} {numbers} {rest} {community}\n")?)
}

fn push_prefix_entries(
    out: &mut String,
    alloc: Global,
    entries: &[PrefixEntry],
) -> Result<(), NoMemory> {
    for entry in entries {
        let (seq, action, least, most) = (entry.seq, action(entry.permit), entry.least, entry.most);
        let prefix = prefix_text(alloc, &entry.prefix)?;
        out.push_str(&format!(in alloc; "{seq} {action} {prefix} {least} to {most}\n")?)?;
    }
    Ok(())
}

fn push_prefix_lists(out: &mut String, alloc: Global, router: &Router) -> Result<(), NoMemory> {
    for list in router.prefix_lists.as_slice() {
        out.push_str(&format!(in alloc; "prefix list {}\n", list.name)?)?;
        push_prefix_entries(out, alloc, list.entries.as_slice())?;
    }
    Ok(())
}

// Entries of a community list, sets as words of bits.
fn push_community_entries(
    out: &mut String,
    alloc: Global,
    entries: &[NetCommunityEntry],
) -> Result<(), NoMemory> {
    for entry in entries {
        let (seq, action, values) = (entry.seq, action(entry.permit), entry.values.word());
        out.push_str(&format!(in alloc; "{seq} {action} {values}\n")?)?;
    }
    Ok(())
}

fn push_community_lists(out: &mut String, alloc: Global, router: &Router) -> Result<(), NoMemory> {
    for list in router.community_lists.as_slice() {
        out.push_str(&format!(in alloc; "community list {}\n", list.name)?)?;
        push_community_entries(out, alloc, list.entries.as_slice())?;
    }
    Ok(())
}

fn push_map_entries(
    out: &mut String,
    alloc: Global,
    entries: &[NetMapEntry],
) -> Result<(), NoMemory> {
    for entry in entries {
        out.push_str(&entry_text(alloc, entry)?)?;
    }
    Ok(())
}

fn push_maps(out: &mut String, alloc: Global, router: &Router) -> Result<(), NoMemory> {
    for routes in router.maps.as_slice() {
        out.push_str(&format!(in alloc; "map {}\n", routes.name)?)?;
        push_map_entries(out, alloc, routes.entries.as_slice())?;
    }
    Ok(())
}

fn push_owned(out: &mut String, alloc: Global, owned: &[Owned]) -> Result<(), NoMemory> {
    for entry in owned {
        let prefix = prefix_text(alloc, &entry.prefix)?;
        let (network, stub, cost) = (entry.network, entry.stub, entry.ospf_cost);
        out.push_str(&format!(in alloc;
            "owns {prefix} network {network} stub {stub} cost {cost:?}\n"
        )?)?;
    }
    Ok(())
}

fn push_router(out: &mut String, alloc: Global, router: &Router) -> Result<(), NoMemory> {
    let (host, asn, connected, ospf) = (&router.host, router.asn, router.connected, router.ospf);
    out.push_str(&format!(in alloc;
        "router {host} as {asn:?} connected {connected:?} ospf {ospf:?}\n"
    )?)?;
    push_owned(out, alloc, router.owned.as_slice())?;
    push_prefix_lists(out, alloc, router)?;
    push_community_lists(out, alloc, router)?;
    push_maps(out, alloc, router)
}

fn end_text(alloc: Global, end: &End) -> Result<String, NoMemory> {
    let (router, cost, import, export) = (end.router, end.cost, end.import, end.export);
    let address = address_text(alloc, end.address)?;
    Ok(format!(in alloc; "{router} {address} cost {cost} import {import:?} export {export:?}\n")?)
}

fn push_links(out: &mut String, alloc: Global, net: &Net) -> Result<(), NoMemory> {
    for link in net.links() {
        let (session, adjacency) = (link.session, link.adjacency);
        let subnet = prefix_text(alloc, &link.subnet)?;
        out.push_str(&format!(in alloc;
            "link {subnet} session {session} adjacency {adjacency}\n"
        )?)?;
        out.push_str(&end_text(alloc, &link.low)?)?;
        out.push_str(&end_text(alloc, &link.high)?)?;
    }
    Ok(())
}

fn push_routers(out: &mut String, alloc: Global, net: &Net) -> Result<(), NoMemory> {
    for router in net.routers() {
        push_router(out, alloc, router)?;
    }
    Ok(())
}

// All communities of the network, in one line.
fn push_communities(out: &mut String, alloc: Global, net: &Net) -> Result<(), NoMemory> {
    out.push_str("communities")?;
    for community in net.communities() {
        let (high, low) = (community >> 16, community & 0xFFFF);
        out.push_str(&format!(in alloc; " {high}:{low}")?)?;
    }
    out.push_str("\n")?;
    Ok(())
}

fn push_notices(out: &mut String, alloc: Global, net: &Net) -> Result<(), NoMemory> {
    for notice in net.notices() {
        let address = address_text(alloc, notice.address)?;
        out.push_str(&format!(in alloc; "notice {} {address}\n", notice.router)?)?;
    }
    Ok(())
}

/// The network as a text: a line for each router with what it has, for each link and each of its ends, for all
/// communities, and for each notice.
pub fn describe(alloc: Global, net: &Net) -> Result<String, NoMemory> {
    let mut out = String::new(alloc);
    push_routers(&mut out, alloc, net)?;
    push_links(&mut out, alloc, net)?;
    push_communities(&mut out, alloc, net)?;
    push_notices(&mut out, alloc, net)?;
    Ok(out)
}
