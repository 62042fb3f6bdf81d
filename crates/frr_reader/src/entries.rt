//! Entries of prefix lists, community lists and route maps, put at their places.

ghost use Rattle.std.specs.Prelude.{◌≡◌, ◌≤◌, ◌∷◌, [], List as Seq, ℕ, IfOk, OnOk, length, nat_lt, slice_get, slice_set};
ghost use Rattle.std.specs.Option.{option_copied, option_map_or};
ghost use Rattle.net_types.specs.declared.config.PrefixList.{PrefixList as PrefixListValue};
ghost use Rattle.net_types.specs.declared.config.CommunityList.{CommunityList as CommunityListValue};
ghost use Rattle.net_types.specs.declared.config.PrefixEntry.{PrefixEntry as PrefixEntryValue};
ghost use Rattle.net_types.specs.declared.config.CommunityEntry.{CommunityEntry as CommunityEntryValue};
ghost use Rattle.net_types.specs.declared.config.MapEntry.{MapEntry as MapEntryValue};
ghost use Rattle.frr_reader.specs.Entries.{place_for, put, with_prefix_entry, with_community_entry, with_map_entry, entries_at, entry_at, with_entry_at};

use crate::by_name::ByName;
use frr_policy::{CommunityLists, Numbered, PrefixLists, RouteMaps};
use net_types::{
    CommunityEntry, CommunityList, List, MapEntry, PrefixEntry, PrefixList, RouteMap, Text,
};
use std::alloc::{AllocError, Global};
use std::mem;

fn is_behind<E: Numbered>(entry: &E, number: u32) -> bool
    ensures { result ≡ nat_lt number (E.seq_of entry.now) }
{
    number < entry.seq()
}

/// The place of an entry with this number: before the first with a greater one.
pub fn place_for<E: Numbered>(entries: &[E], number: u32) -> usize
    ensures place { result ≡ place_for E.seq_of number entries.now }
    ensures within { result ≤ length entries.now }
{
    entries
        .iter()
        .take_while(|entry| !is_behind(*entry, number))
        .count()
}

// The entries with one more, at its place.
fn put<E: Numbered + Drop>(entries: List<E>, entry: E) -> Result<List<E>, AllocError>
    ensures { IfOk result (λ all. all ≡ put E.seq_of entry entries) }
{
    let mut items = entries.into_vec();
    let place = place_for(items.as_slice(), entry.seq());
    items.insert(place, entry)?;
    Ok(List::from_vec(items))
}

fn list_of<E: Drop>(alloc: Global, entry: E) -> Result<List<E>, AllocError>
    ensures { IfOk result (λ all. all ≡ entry ∷ []) }
{
    let mut items = List::new(alloc);
    items.push(entry)?;
    Ok(items)
}

// Puts an entry at its place in the prefix list.
fn put_in_prefix_list(
    alloc: Global,
    list: &mut PrefixList,
    entry: PrefixEntry,
) -> Result<(), AllocError>
    ensures value { OnOk result (list.new ≡ record list.old { entries = put (λ (e : PrefixEntryValue). e.seq) entry list.old.entries }) }
    ensures name { list.new.name ≡ list.old.name }
{
    let entries = mem::replace(&mut list.entries, List::new(alloc));
    list.entries = put(entries, entry)?;
    Ok(())
}

/// Adds an entry to the prefix list of this name.
pub fn add_prefix_entry(
    alloc: Global,
    lists: &mut ByName<PrefixList>,
    name: Text,
    entry: PrefixEntry,
) -> Result<(), AllocError>
    ensures { OnOk result (lists.new ≡ with_prefix_entry name entry lists.old) }
{
    let place = lists.place_of(name.as_str());
    if place >= lists.len() {
        let entries = list_of(alloc, entry)?;
        lists.push(alloc, PrefixList { name, entries })?;
        return Ok(());
    }
    put_in_prefix_list(alloc, &mut lists.items[place], entry)
}

// Puts an entry at its place in the community list.
fn put_in_community_list(
    alloc: Global,
    list: &mut CommunityList,
    entry: CommunityEntry,
) -> Result<(), AllocError>
    ensures value { OnOk result (list.new ≡ record list.old { entries = put (λ (e : CommunityEntryValue). e.seq) entry list.old.entries }) }
    ensures name { list.new.name ≡ list.old.name }
{
    let entries = mem::replace(&mut list.entries, List::new(alloc));
    list.entries = put(entries, entry)?;
    Ok(())
}

/// Adds an entry to the community list of this name.
pub fn add_community_entry(
    alloc: Global,
    lists: &mut ByName<CommunityList>,
    name: Text,
    entry: CommunityEntry,
) -> Result<(), AllocError>
    ensures { OnOk result (lists.new ≡ with_community_entry name entry lists.old) }
{
    let place = lists.place_of(name.as_str());
    if place >= lists.len() {
        let entries = list_of(alloc, entry)?;
        lists.push(alloc, CommunityList { name, entries })?;
        return Ok(());
    }
    put_in_community_list(alloc, &mut lists.items[place], entry)
}

// Puts an entry at its place in the map.
fn put_in_map(alloc: Global, map: &mut RouteMap, entry: MapEntry) -> Result<(), AllocError>
    ensures value { OnOk result (map.new ≡ record map.old { entries = put (λ (e : MapEntryValue). e.seq) entry map.old.entries }) }
    ensures name { map.new.name ≡ map.old.name }
{
    let entries = mem::replace(&mut map.entries, List::new(alloc));
    map.entries = put(entries, entry)?;
    Ok(())
}

/// Adds an entry to the route map of this name.
pub fn add_map_entry(
    alloc: Global,
    maps: &mut ByName<RouteMap>,
    name: Text,
    entry: MapEntry,
) -> Result<(), AllocError>
    ensures { OnOk result (maps.new ≡ with_map_entry name entry maps.old) }
{
    let place = maps.place_of(name.as_str());
    if place >= maps.len() {
        let entries = list_of(alloc, entry)?;
        maps.push(alloc, RouteMap { name, entries })?;
        return Ok(());
    }
    put_in_map(alloc, &mut maps.items[place], entry)
}

impl PrefixLists for ByName<PrefixList> {
    ghost lists = { λ all. all };

    #[tactic(auto, using(crate::proofs::PlaceLemmas::entries_found))]
    fn entries_of(&self, name: &Text) -> &[PrefixEntry] {
        prefix_entries_at(self.as_slice(), self.place_of(name.as_str()))
    }
}

impl CommunityLists for ByName<CommunityList> {
    ghost lists = { λ all. all };

    #[tactic(auto, using(crate::proofs::PlaceLemmas::entries_found))]
    fn entries_of(&self, name: &Text) -> &[CommunityEntry] {
        community_entries_at(self.as_slice(), self.place_of(name.as_str()))
    }
}

impl RouteMaps for ByName<RouteMap> {
    ghost maps = { λ all. all };

    #[tactic(auto, using(crate::proofs::PlaceLemmas::entries_found))]
    fn entries_of(&self, name: &Text) -> &[MapEntry] {
        entries_at(self.as_slice(), self.place_of(name.as_str()))
    }
}

// The entries of the prefix list at this place; none where there is no list.
fn prefix_entries_at(lists: &[PrefixList], place: usize) -> &[PrefixEntry]
    ensures { result.now ≡ option_map_or (λ (l : PrefixListValue). l.entries) (slice_get lists.now place) [] }
{
    match lists.get(place) {
        Some(list) => list.entries.as_slice(),
        None => &[],
    }
}

// The entries of the community list at this place; none where there is no list.
fn community_entries_at(lists: &[CommunityList], place: usize) -> &[CommunityEntry]
    ensures { result.now ≡ option_map_or (λ (l : CommunityListValue). l.entries) (slice_get lists.now place) [] }
{
    match lists.get(place) {
        Some(list) => list.entries.as_slice(),
        None => &[],
    }
}

/// The entries of the map at this place; none where there is no map.
pub fn entries_at(maps: &[RouteMap], place: usize) -> &[MapEntry]
    ensures { result.now ≡ entries_at place maps.now }
{
    match maps.get(place) {
        Some(map) => map.entries.as_slice(),
        None => &[],
    }
}

/// The entry at this place of the map at that place, if there is one.
pub fn entry_at(maps: &[RouteMap], map: usize, place: usize) -> Option<&MapEntry>
    ensures { option_copied result ≡ entry_at map place maps.now }
{
    entries_at(maps, map).get(place)
}

fn with_entry(entries: List<MapEntry>, place: usize, entry: MapEntry) -> List<MapEntry>
    ensures { result ≡ slice_set entries place entry }
{
    let mut items = entries.into_vec();
    if place < items.len() {
        items[place] = entry;
    }
    List::from_vec(items)
}

// Puts this entry in place of the one at this place of the map.
fn set_in_map(alloc: Global, map: &mut RouteMap, place: usize, entry: MapEntry)
    ensures { map.new ≡ record map.old { entries = slice_set map.old.entries place entry } }
{
    let entries = mem::replace(&mut map.entries, List::new(alloc));
    map.entries = with_entry(entries, place, entry);
}

/// Puts this entry in place of the one at this place of the map at that place.
pub fn set_entry(
    alloc: Global,
    maps: &mut ByName<RouteMap>,
    map: usize,
    place: usize,
    entry: MapEntry,
)
    ensures { maps.new ≡ with_entry_at map place entry maps.old }
{
    if map >= maps.len() {
        return;
    }
    set_in_map(alloc, &mut maps.items[map], place, entry);
}
