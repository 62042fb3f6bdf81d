//! The lines in the block of a route map: what each makes of the entry.

ghost use Rattle.std.specs.Prelude.{◌≡◌, ◌^◌, ◌<◌, ◌≤◌, All, IfOk, IfSome, codes, length};
ghost use Rattle.net_types.specs.ConfigFacts.{IsSetCommunity};
ghost use Rattle.net_types.specs.Routes.{origin_of};
ghost use Rattle.frr_policy.specs.Values.{name_of, u32_of, positive_of};
ghost use Rattle.frr_policy.specs.Grammar.{TookIfThere, first, and_then, one, leading};
ghost use Rattle.frr_policy.specs.Answers.{Answers};
ghost use Rattle.frr_policy.specs.MapRows.{FitsEntry, match_prefix_list, match_community, set_preference, set_metric, set_weight, set_origin, is_only, set_community_of, replaced_or_added, is_community_set, set_community, if_delete, set_comm_list, asns_of, set_prepend};

use crate::LineRefusal;
use crate::community_lines::take_communities;
use crate::copies::copy_of_entry;
use crate::fronts::take_name;
use crate::line_words::{Words, is_word};
use crate::values::{Name, positive_of, u32_of};
use net_types::{List, MapEntry, Origin, SetCommunity, read_origin};
use std::alloc::{AllocError, Global};

/// A line prepends at most so many AS numbers.
const MOST_PREPENDS: usize = 10;

// NAME, and no word behind it.
fn one_name<'a>(words: Words<'a>) -> Option<Name<'a>>
    ensures { result ≡ one name_of words.entry }
{
    let mut words = words;
    let name = take_name(&mut words)?;
    match words.next() {
        Some(_second) => None,
        None => Some(name),
    }
}

// U32, and no word behind it.
fn one_u32(words: Words<'_>) -> Option<u32>
    ensures { result ≡ one u32_of words.entry }
{
    let mut words = words;
    let number = u32_of(words.next()?)?;
    match words.next() {
        Some(_second) => None,
        None => Some(number),
    }
}

// An origin, and no word behind it.
fn one_origin(words: Words<'_>) -> Option<Origin>
    ensures { result ≡ one origin_of words.entry }
{
    let mut words = words;
    let origin = read_origin(words.next()?)?;
    match words.next() {
        Some(_second) => None,
        None => Some(origin),
    }
}

// Whether the words are this one alone.
fn is_only(keyword: &[u8], words: Words<'_>) -> bool
    ensures { result ≡ is_only keyword.now words.entry }
{
    let mut words = words;
    match words.next() {
        Some(word) => words.next().is_none() && is_word(keyword, word),
        None => false,
    }
}

// `none`, or one or more communities with an optional last word `additive`; else none of these.
fn read_set_community(alloc: Global, words: Words<'_>) -> Result<Option<SetCommunity>, AllocError>
    ensures value { IfOk result (λ set. set ≡ set_community_of words.entry) }
    ensures fit { IfOk result (λ set. IfSome set IsSetCommunity) }
{
    let mut words = words;
    if is_only(b"none", words.again()) {
        return Ok(Some(SetCommunity::Clear));
    }
    let values = take_communities(alloc, &mut words)?;
    Ok(replaced_or_added(values, words))
}

// What is done with communities, by the words behind them.
fn replaced_or_added(values: List<u32>, words: Words<'_>) -> Option<SetCommunity>
    ensures value { result ≡ replaced_or_added (values, words.entry) }
    ensures fit { All (λ c. c < 2 ^ 32) values → IfSome result IsSetCommunity }
{
    if values.is_empty() {
        None
    } else if words.again().next().is_none() {
        Some(SetCommunity::Replace(values))
    } else if is_only(b"additive", words) {
        Some(SetCommunity::Add(values))
    } else {
        None
    }
}

fn is_community_set(community: &SetCommunity) -> bool
    ensures { result ≡ is_community_set community.now }
{
    !matches!(community, SetCommunity::Keep)
}

// NAME, and `delete` behind it.
fn deleted_name<'a>(words: Words<'a>) -> Option<Name<'a>>
    ensures { result ≡ and_then (first name_of words.entry) if_delete }
{
    let mut words = words;
    let name = take_name(&mut words)?;
    if is_only(b"delete", words) {
        Some(name)
    } else {
        None
    }
}

// An AS number, from the front of the words, if it stands there.
fn take_asn(words: &mut Words<'_>) -> Option<u32>
    ensures { TookIfThere (first positive_of words.old) words.old words.new result }
{
    let mut ahead = words.again();
    let asn = positive_of(ahead.next()?)?;
    *words = ahead;
    Some(asn)
}

// The AS numbers from the front of the words.
fn take_asns(alloc: Global, words: &mut Words<'_>) -> Result<List<u32>, AllocError>
    ensures { IfOk result (λ asns. leading positive_of words.old ≡ (asns, words.new)) }
{
    let mut asns = Vec::new(alloc);
    while let Some(asn) = take_asn(words) {
        asns.push(asn)?;
    }
    Ok(List::from_vec(asns))
}

// 1 to 10 AS numbers, and no word behind them; else none.
fn read_asns(alloc: Global, words: Words<'_>) -> Result<Option<List<u32>>, AllocError>
    ensures value { IfOk result (λ asns. asns ≡ asns_of words.entry) }
    ensures few { IfOk result (λ asns. IfSome asns (λ some. length some ≤ 10)) }
{
    let mut words = words;
    let asns = take_asns(alloc, &mut words)?;
    if asns.is_empty() || MOST_PREPENDS < asns.len() || words.next().is_some() {
        Ok(None)
    } else {
        Ok(Some(asns))
    }
}

/// `match ip address prefix-list` NAME.
#[tactic(auto, unfolding(crate::specs::MapRows::match_prefix_list))]
pub(crate) fn match_prefix_list(
    alloc: Global,
    words: Words<'_>,
    entry: &MapEntry,
) -> Result<MapEntry, LineRefusal>
    ensures entry { Answers (match_prefix_list words.entry entry.now) result }
    ensures kept { FitsEntry entry.now → IfOk result FitsEntry }
    ensures place { IfOk result (λ e. e.seq ≡ entry.now.seq) }
{
    let Some(name) = one_name(words) else {
        return Err(LineRefusal::BadValue);
    };
    if entry.prefixes.is_some() {
        return Err(LineRefusal::Repeated);
    }
    let mut changed = copy_of_entry(alloc, entry)?;
    changed.prefixes = Some(name.to_text(alloc)?);
    Ok(changed)
}

/// `match community` NAME.
#[tactic(auto, unfolding(crate::specs::MapRows::match_community))]
pub(crate) fn match_community(
    alloc: Global,
    words: Words<'_>,
    entry: &MapEntry,
) -> Result<MapEntry, LineRefusal>
    ensures entry { Answers (match_community words.entry entry.now) result }
    ensures kept { FitsEntry entry.now → IfOk result FitsEntry }
    ensures place { IfOk result (λ e. e.seq ≡ entry.now.seq) }
{
    let Some(name) = one_name(words) else {
        return Err(LineRefusal::BadValue);
    };
    if entry.communities.is_some() {
        return Err(LineRefusal::Repeated);
    }
    let mut changed = copy_of_entry(alloc, entry)?;
    changed.communities = Some(name.to_text(alloc)?);
    Ok(changed)
}

/// `set local-preference` U32.
#[tactic(auto, unfolding(crate::specs::MapRows::set_preference))]
pub(crate) fn set_preference(
    alloc: Global,
    words: Words<'_>,
    entry: &MapEntry,
) -> Result<MapEntry, LineRefusal>
    ensures entry { Answers (set_preference words.entry entry.now) result }
    ensures kept { FitsEntry entry.now → IfOk result FitsEntry }
    ensures place { IfOk result (λ e. e.seq ≡ entry.now.seq) }
{
    let Some(preference) = one_u32(words) else {
        return Err(LineRefusal::BadValue);
    };
    if entry.sets.preference.is_some() {
        return Err(LineRefusal::Repeated);
    }
    let mut changed = copy_of_entry(alloc, entry)?;
    changed.sets.preference = Some(preference);
    Ok(changed)
}

/// `set metric` U32.
#[tactic(auto, unfolding(crate::specs::MapRows::set_metric))]
pub(crate) fn set_metric(
    alloc: Global,
    words: Words<'_>,
    entry: &MapEntry,
) -> Result<MapEntry, LineRefusal>
    ensures entry { Answers (set_metric words.entry entry.now) result }
    ensures kept { FitsEntry entry.now → IfOk result FitsEntry }
    ensures place { IfOk result (λ e. e.seq ≡ entry.now.seq) }
{
    let Some(med) = one_u32(words) else {
        return Err(LineRefusal::BadValue);
    };
    if entry.sets.med.is_some() {
        return Err(LineRefusal::Repeated);
    }
    let mut changed = copy_of_entry(alloc, entry)?;
    changed.sets.med = Some(med);
    Ok(changed)
}

/// `set weight` U32.
#[tactic(auto, unfolding(crate::specs::MapRows::set_weight))]
pub(crate) fn set_weight(
    alloc: Global,
    words: Words<'_>,
    entry: &MapEntry,
) -> Result<MapEntry, LineRefusal>
    ensures entry { Answers (set_weight words.entry entry.now) result }
    ensures kept { FitsEntry entry.now → IfOk result FitsEntry }
    ensures place { IfOk result (λ e. e.seq ≡ entry.now.seq) }
{
    let Some(weight) = one_u32(words) else {
        return Err(LineRefusal::BadValue);
    };
    if entry.sets.weight.is_some() {
        return Err(LineRefusal::Repeated);
    }
    let mut changed = copy_of_entry(alloc, entry)?;
    changed.sets.weight = Some(weight);
    Ok(changed)
}

/// `set origin`, and `igp`, `egp` or `incomplete`.
#[tactic(auto, unfolding(crate::specs::MapRows::set_origin))]
pub(crate) fn set_origin(
    alloc: Global,
    words: Words<'_>,
    entry: &MapEntry,
) -> Result<MapEntry, LineRefusal>
    ensures entry { Answers (set_origin words.entry entry.now) result }
    ensures kept { FitsEntry entry.now → IfOk result FitsEntry }
    ensures place { IfOk result (λ e. e.seq ≡ entry.now.seq) }
{
    let Some(origin) = one_origin(words) else {
        return Err(LineRefusal::BadValue);
    };
    if entry.sets.origin.is_some() {
        return Err(LineRefusal::Repeated);
    }
    let mut changed = copy_of_entry(alloc, entry)?;
    changed.sets.origin = Some(origin);
    Ok(changed)
}

/// `set community`, and what is done.
#[tactic(auto, unfolding(crate::specs::MapRows::set_community))]
pub(crate) fn set_community(
    alloc: Global,
    words: Words<'_>,
    entry: &MapEntry,
) -> Result<MapEntry, LineRefusal>
    ensures entry { Answers (set_community words.entry entry.now) result }
    ensures kept { FitsEntry entry.now → IfOk result FitsEntry }
    ensures place { IfOk result (λ e. e.seq ≡ entry.now.seq) }
{
    let Some(community) = read_set_community(alloc, words)? else {
        return Err(LineRefusal::BadValue);
    };
    if is_community_set(&entry.sets.community) {
        return Err(LineRefusal::Repeated);
    }
    let mut changed = copy_of_entry(alloc, entry)?;
    changed.sets.community = community;
    Ok(changed)
}

/// `set comm-list` NAME `delete`.
#[tactic(auto, unfolding(crate::specs::MapRows::set_comm_list))]
pub(crate) fn set_comm_list(
    alloc: Global,
    words: Words<'_>,
    entry: &MapEntry,
) -> Result<MapEntry, LineRefusal>
    ensures entry { Answers (set_comm_list words.entry entry.now) result }
    ensures kept { FitsEntry entry.now → IfOk result FitsEntry }
    ensures place { IfOk result (λ e. e.seq ≡ entry.now.seq) }
{
    let Some(name) = deleted_name(words) else {
        return Err(LineRefusal::BadValue);
    };
    if entry.sets.delete.is_some() {
        return Err(LineRefusal::Repeated);
    }
    let mut changed = copy_of_entry(alloc, entry)?;
    changed.sets.delete = Some(name.to_text(alloc)?);
    Ok(changed)
}

/// `set as-path prepend` and 1 to 10 AS numbers.
#[tactic(auto, unfolding(crate::specs::MapRows::set_prepend))]
pub(crate) fn set_prepend(
    alloc: Global,
    words: Words<'_>,
    entry: &MapEntry,
) -> Result<MapEntry, LineRefusal>
    ensures entry { Answers (set_prepend words.entry entry.now) result }
    ensures kept { FitsEntry entry.now → IfOk result FitsEntry }
    ensures place { IfOk result (λ e. e.seq ≡ entry.now.seq) }
{
    let Some(asns) = read_asns(alloc, words)? else {
        return Err(LineRefusal::BadValue);
    };
    if !entry.sets.prepend.is_empty() {
        return Err(LineRefusal::Repeated);
    }
    let mut changed = copy_of_entry(alloc, entry)?;
    changed.sets.prepend = asns;
    Ok(changed)
}
