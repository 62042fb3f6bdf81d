//! The lines of community lists.

ghost use Rattle.std.specs.Prelude.{◌≡◌, ◌^◌, ◌<◌, ◌≤◌, ◌∷◌, [], List as Seq, All, IfOk, IfSome, length, map};
ghost use Rattle.net_types.specs.ConfigFacts.{IsCommunityEntry};
ghost use Rattle.net_types.specs.declared.config.CommunityList.{CommunityList as CommunityListValue};
ghost use Rattle.net_types.specs.Communities.{community_of};
ghost use Rattle.frr_policy.specs.Grammar.{Took, TookIfThere, first, leading};
ghost use Rattle.frr_policy.specs.Answers.{Answers};
ghost use Rattle.frr_policy.specs.Lists.{HasRoom};
ghost use Rattle.frr_policy.specs.CommunityLines.{list_name_of, communities_of, community_front, community_line, community_entries, community_numbers, added_community_entry, community_list_row};

use crate::LineRefusal;
use crate::fronts::{Front, take_front, take_name};
use crate::line_words::{Words, is_word};
use crate::numbering::new_number;
use crate::values::Name;
use net_types::{CommunityEntry, List, Text, read_community};
use std::alloc::{AllocError, Global};

/// Community lists, found by name.
pub trait CommunityLists {
    ghost lists: { Self → Seq CommunityListValue };

    /// The entries of the list of this name; none where there is no such list.
    fn entries_of(&self, name: &Text) -> &[CommunityEntry]
        ensures { result.now ≡ community_entries name.now (lists self.now) };
}

// COMM, from the front of the words, if it stands there.
fn take_community(words: &mut Words<'_>) -> Option<u32>
    ensures value { TookIfThere (first community_of words.old) words.old words.new result }
    ensures fits { IfSome result (λ c. c < 2 ^ 32) }
{
    let mut ahead = words.again();
    let community = read_community(ahead.next()?)?;
    *words = ahead;
    Some(community)
}

/// The communities from the front of the words.
pub(crate) fn take_communities(
    alloc: Global,
    words: &mut Words<'_>,
) -> Result<List<u32>, AllocError>
    ensures values { IfOk result (λ values. leading community_of words.old ≡ (values, words.new)) }
    ensures fit { IfOk result (λ values. All (λ c. c < 2 ^ 32) values) }
{
    let mut values = Vec::new(alloc);
    while let Some(value) = take_community(words) {
        values.push(value)?;
    }
    Ok(List::from_vec(values))
}

// The name of a community list: `standard` NAME, or NUM 1 to 99 as the name.
fn take_list_name<'a>(words: &mut Words<'a>) -> Option<Name<'a>>
    ensures { Took (list_name_of words.old) words.new result }
{
    let word = words.next()?;
    if is_word(b"standard", word) {
        take_name(words)
    } else {
        Name::of_number(word)
    }
}

fn take_community_front<'a>(words: &mut Words<'a>) -> Option<Front<'a>>
    ensures { Took (community_front words.old) words.new result }
{
    let name = take_list_name(words)?;
    take_front(name, words)
}

// One or more communities, and no word behind them; else none.
fn read_communities(alloc: Global, words: Words<'_>) -> Result<Option<List<u32>>, AllocError>
    ensures values { IfOk result (λ values. values ≡ communities_of words.entry) }
    ensures fit { IfOk result (λ values. IfSome values (λ some. All (λ c. c < 2 ^ 32) some)) }
{
    let mut words = words;
    let values = take_communities(alloc, &mut words)?;
    if values.is_empty() || words.next().is_some() {
        Ok(None)
    } else {
        Ok(Some(values))
    }
}

// What stands behind `bgp community-list`; none where it does not fit.
#[tactic(auto, unfolding(crate::specs::CommunityLines::community_line))]
fn read_line<'a>(
    alloc: Global,
    words: Words<'a>,
) -> Result<Option<(Front<'a>, List<u32>)>, AllocError>
    ensures value { IfOk result (λ line. line ≡ community_line words.entry) }
    ensures fit { IfOk result (λ line. IfSome line (λ l. All (λ c. c < 2 ^ 32) l.1)) }
{
    let mut words = words;
    let Some(front) = take_community_front(&mut words) else {
        return Ok(None);
    };
    match read_communities(alloc, words)? {
        Some(values) => Ok(Some((front, values))),
        None => Ok(None),
    }
}

// The entry of a line, and the name of its list.
#[tactic(auto, unfolding(crate::specs::CommunityLines::added_community_entry))]
fn add_entry<L: CommunityLists>(
    alloc: Global,
    line: (Front<'_>, List<u32>),
    so_far: &L,
) -> Result<(Text, CommunityEntry), LineRefusal>
    requires { All (λ c. c < 2 ^ 32) line.1 }
    ensures entry { Answers (added_community_entry (L.lists so_far.now) line.entry) result }
    ensures kept { IfOk result (λ r. IsCommunityEntry r.1) }
    ensures room { IfOk result (λ r. HasRoom (community_numbers r.0 (L.lists so_far.now)) r.1.seq) }
{
    let (front, values) = line;
    let name = front.name.to_text(alloc)?;
    let seq = new_number(front.seq, so_far.entries_of(&name))?;
    let permit = front.permit;
    Ok((
        name,
        CommunityEntry {
            seq,
            permit,
            values,
        },
    ))
}

/// The entry that a line of a community list makes, and the name of its list. The words are those behind
/// `bgp community-list` or `ip community-list`; the lists so far are those of the lines before.
#[tactic(auto, unfolding(crate::specs::CommunityLines::community_list_row))]
pub fn read_community_list_line<L: CommunityLists>(
    alloc: Global,
    words: Words<'_>,
    so_far: &L,
) -> Result<(Text, CommunityEntry), LineRefusal>
    ensures entry { Answers (community_list_row words.entry (L.lists so_far.now)) result }
    ensures kept { IfOk result (λ r. IsCommunityEntry r.1) }
    ensures room { IfOk result (λ r. HasRoom (community_numbers r.0 (L.lists so_far.now)) r.1.seq) }
{
    match read_line(alloc, words)? {
        Some(line) => add_entry(alloc, line, so_far),
        None => Err(LineRefusal::BadValue),
    }
}
