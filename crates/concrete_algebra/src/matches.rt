//! Whether lists permit, and whether the entries of route maps match.

ghost use Rattle.std.specs.Prelude.{◌≡◌};
ghost use Rattle.concrete_algebra.specs.Maps.{communities_match, community_entries, community_list_permits, entry_matches, prefix_entries, prefix_entry_matches, prefix_list_permits, prefixes_match};

use net_types::{Bits64, NetCommunityEntry, NetMapEntry, Prefix, PrefixEntry, Router};

// Whether an entry of a prefix list matches.
fn prefix_entry_matches(prefix: &Prefix, entry: &PrefixEntry) -> bool
    ensures { result ≡ prefix_entry_matches prefix.now entry.now }
{
    entry.prefix.covers(prefix) && entry.least <= prefix.len && prefix.len <= entry.most
}

// Whether a prefix list permits the prefix.
#[tactic(auto, unfolding(crate::specs::Maps::prefix_list_permits))]
fn prefix_list_permits(prefix: &Prefix, entries: &[PrefixEntry]) -> bool
    ensures { result ≡ prefix_list_permits prefix.now entries.now }
{
    for entry in entries {
        if prefix_entry_matches(prefix, entry) {
            return entry.permit;
        }
    }
    false
}

// Whether a community list permits a route with these communities.
#[tactic(auto, unfolding(crate::specs::Maps::community_list_permits))]
fn community_list_permits(held: Bits64, entries: &[NetCommunityEntry]) -> bool
    ensures { result ≡ community_list_permits held entries.now }
{
    for entry in entries {
        if entry.values.is_part(held) {
            return entry.permit;
        }
    }
    false
}

// The entries of the router's prefix list at a position.
fn prefix_entries(router: &Router, position: u32) -> &[PrefixEntry]
    ensures { result.now ≡ prefix_entries router.now position }
{
    match router.prefix_lists.as_slice().get(position as usize) {
        Some(found) => found.entries.as_slice(),
        None => &[],
    }
}

/// The entries of the router's community list at a position.
pub fn community_entries(router: &Router, position: u32) -> &[NetCommunityEntry]
    ensures { result.now ≡ community_entries router.now position }
{
    match router.community_lists.as_slice().get(position as usize) {
        Some(found) => found.entries.as_slice(),
        None => &[],
    }
}

/// Whether the prefix passes the prefix list that an entry names, if it names one.
pub fn prefixes_match(router: &Router, position: Option<u32>, prefix: &Prefix) -> bool
    ensures { result ≡ prefixes_match router.now position prefix.now }
{
    match position {
        None => true,
        Some(position) => prefix_list_permits(prefix, prefix_entries(router, position)),
    }
}

// Whether the communities pass the community list that an entry names, if it names one.
fn communities_match(router: &Router, position: Option<u32>, held: Bits64) -> bool
    ensures { result ≡ communities_match router.now position held }
{
    match position {
        None => true,
        Some(position) => community_list_permits(held, community_entries(router, position)),
    }
}

// Whether an entry of a route map matches a route with these communities.
pub(crate) fn entry_matches(
    router: &Router,
    prefix: &Prefix,
    entry: &NetMapEntry,
    held: Bits64,
) -> bool
    ensures { result ≡ entry_matches router.now prefix.now entry.now held }
{
    prefixes_match(router, entry.prefixes, prefix)
        && communities_match(router, entry.communities, held)
}
