//! What lines need of the whole file, until it is read to its end.

ghost use Rattle.std.specs.Prelude.{◌≡◌, ◌++◌, ◌∷◌, [], not, IfOk, OnOk, MatchOption, Some, None, option_map};
ghost use Rattle.std.specs.List.{list_any};
ghost use Rattle.net_types.specs.ConfigFacts.{has_prefix_list, has_community_list, has_map};
ghost use Rattle.frr_reader.specs.declared.needs.Needed.TheVariants.{PrefixList as PrefixListNeed, CommunityList as CommunityListNeed, OwnAs as OwnAsNeed};
ghost use Rattle.frr_reader.specs.HasNames.{HasNames};
ghost use Rattle.frr_reader.specs.Needs.{new_name, new_asns, noted, noted_change, is_own, is_undefined, is_foreign, first_undefined, first_foreign};

use crate::by_name::Places;
use crate::values::is_same;
use net_types::{List, MapEntry, RouterConfig, Text};
use std::alloc::{AllocError, Global};

/// What a line needs of the whole file.
#[derive(Debug, Drop)]
pub enum Needed {
    /// A route map of this name.
    Map(Text),
    /// A prefix list of this name.
    PrefixList(Text),
    /// A community list of this name.
    CommunityList(Text),
    /// That these AS numbers are the file's own.
    OwnAs(List<u32>),
}

/// A need, and the line that has it.
#[derive(Debug, Drop)]
pub struct Need {
    /// The number of the line.
    pub line: u64,
    /// What it needs.
    pub what: Needed,
}

/// The names of the lists and maps of a configuration, and their places in it.
#[derive(Debug, Drop)]
pub struct Names {
    /// Those of the prefix lists.
    pub prefix_lists: Places,
    /// Those of the community lists.
    pub community_lists: Places,
    /// Those of the maps.
    pub maps: Places,
}

/// Puts a need of this line behind the others, if it has one.
pub fn note(needed: &mut Vec<Need>, line: u64, what: Option<Needed>) -> Result<(), AllocError>
    ensures { OnOk result (needed.new.items ≡ noted line what needed.old.items) }
{
    if let Some(what) = what {
        needed.push(Need { line, what })?;
    }
    Ok(())
}

// A name that an entry did not have before.
fn new_name<'a>(old: &Option<Text>, now: &'a Option<Text>) -> Option<&'a Text>
    ensures { MatchOption result (new_name old.now now.now ≡ None) (λ name. new_name old.now now.now ≡ Some name.now) }
{
    match (old, now) {
        (_, None) => None,
        (None, Some(name)) => Some(name),
        (Some(old), Some(name)) => {
            if is_same(old.as_bytes(), name.as_bytes()) {
                None
            } else {
                Some(name)
            }
        }
    }
}

fn prefix_list(alloc: Global, old: &MapEntry, new: &MapEntry) -> Result<Option<Needed>, AllocError>
    ensures { IfOk result (λ need. need ≡ option_map PrefixListNeed (new_name old.now.prefixes new.now.prefixes)) }
{
    match new_name(&old.prefixes, &new.prefixes) {
        Some(name) => Ok(Some(Needed::PrefixList(Text::from_str(alloc, name.as_str())?))),
        None => Ok(None),
    }
}

fn community_list(
    alloc: Global,
    old: &Option<Text>,
    new: &Option<Text>,
) -> Result<Option<Needed>, AllocError>
    ensures { IfOk result (λ need. need ≡ option_map CommunityListNeed (new_name old.now new.now)) }
{
    match new_name(old, new) {
        Some(name) => Ok(Some(Needed::CommunityList(Text::from_str(alloc, name.as_str())?))),
        None => Ok(None),
    }
}

// AS numbers that an entry did not prepend before.
fn own_as(alloc: Global, old: &[u32], new: &[u32]) -> Result<Option<Needed>, AllocError>
    ensures { IfOk result (λ need. need ≡ option_map OwnAsNeed (new_asns old.now new.now)) }
{
    if old == new {
        Ok(None)
    } else {
        Ok(Some(Needed::OwnAs(List::from_slice(alloc, new)?)))
    }
}

/// Notes what a line needs that makes the one entry of a route map of the other.
pub fn note_change(
    needed: &mut Vec<Need>,
    alloc: Global,
    line: u64,
    old: &MapEntry,
    new: &MapEntry,
) -> Result<(), AllocError>
    ensures { OnOk result (needed.new.items ≡ noted_change line old.now new.now needed.old.items) }
{
    note(needed, line, prefix_list(alloc, old, new)?)?;
    let communities = community_list(alloc, &old.communities, &new.communities)?;
    note(needed, line, communities)?;
    let delete = community_list(alloc, &old.sets.delete, &new.sets.delete)?;
    note(needed, line, delete)?;
    let prepend = own_as(
        alloc,
        old.sets.prepend.as_slice(),
        new.sets.prepend.as_slice(),
    )?;
    note(needed, line, prepend)
}

fn has_map(config: &RouterConfig, names: &Names, name: &Text) -> bool
    requires { HasNames config.now names.now }
    ensures { result ≡ has_map config.now name.now }
{
    names.maps.contains_key(name.as_str())
}

fn has_prefix_list(config: &RouterConfig, names: &Names, name: &Text) -> bool
    requires { HasNames config.now names.now }
    ensures { result ≡ has_prefix_list config.now name.now }
{
    names.prefix_lists.contains_key(name.as_str())
}

fn has_community_list(config: &RouterConfig, names: &Names, name: &Text) -> bool
    requires { HasNames config.now names.now }
    ensures { result ≡ has_community_list config.now name.now }
{
    names.community_lists.contains_key(name.as_str())
}

// Whether the file defines no such map or list.
fn is_undefined(config: &RouterConfig, names: &Names, what: &Needed) -> bool
    requires { HasNames config.now names.now }
    ensures { result ≡ is_undefined config.now what.now }
{
    match what {
        Needed::Map(name) => !has_map(config, names, name),
        Needed::PrefixList(name) => !has_prefix_list(config, names, name),
        Needed::CommunityList(name) => !has_community_list(config, names, name),
        Needed::OwnAs(_asns) => false,
    }
}

// Whether the AS number is the file's own.
fn is_own(config: &RouterConfig, asn: u32) -> bool
    ensures { result ≡ is_own config.now asn }
{
    match &config.bgp {
        Some(bgp) => bgp.asn == asn,
        None => false,
    }
}

fn some_foreign(config: &RouterConfig, asns: &[u32]) -> bool
    ensures { result ≡ list_any (λ asn. not (is_own config.now asn)) asns.now }
{
    asns.iter().any(|asn| !is_own(config, *asn))
}

// Whether an AS number is prepended that is not the file's own.
fn is_foreign(config: &RouterConfig, what: &Needed) -> bool
    ensures { result ≡ is_foreign config.now what.now }
{
    match what {
        Needed::Map(_name) | Needed::PrefixList(_name) | Needed::CommunityList(_name) => false,
        Needed::OwnAs(asns) => some_foreign(config, asns.as_slice()),
    }
}

/// The least line that names a map or a list that the file does not define.
#[tactic(auto, unfolding(crate::specs::Needs::first_undefined))]
pub fn first_undefined(config: &RouterConfig, names: &Names, needed: &[Need]) -> Option<u64>
    requires { HasNames config.now names.now }
    ensures { result ≡ first_undefined config.now needed.now }
{
    for need in needed {
        if is_undefined(config, names, &need.what) {
            return Some(need.line);
        }
    }
    None
}

/// The least line that prepends an AS number that is not the file's own.
#[tactic(auto, unfolding(crate::specs::Needs::first_foreign))]
pub fn first_foreign(config: &RouterConfig, needed: &[Need]) -> Option<u64>
    ensures { result ≡ first_foreign config.now needed.now }
{
    for need in needed {
        if is_foreign(config, &need.what) {
            return Some(need.line);
        }
    }
    None
}
