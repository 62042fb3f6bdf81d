//! The lines of prefix lists.

ghost use Rattle.std.specs.Prelude.{◌≡◌, ◌≤◌, ◌∷◌, [], List as Seq, IfSome, IfOk, MatchOption, map};
ghost use Rattle.net_types.specs.NetFacts.{IsPrefixEntry};
ghost use Rattle.net_types.specs.declared.config.PrefixList.{PrefixList as PrefixListValue};
ghost use Rattle.frr_policy.specs.Answers.{Answers};
ghost use Rattle.frr_policy.specs.Grammar.{if_alone};
ghost use Rattle.frr_policy.specs.Lists.{HasRoom};
ghost use Rattle.frr_policy.specs.PrefixLines.{FitsPrefix, lengths, every_prefix, bound_of, bounded_once, bounded_twice, added_prefix_entry, bounds_of, if_fitting, matched_by, matched_of, prefix_line, prefix_entries, prefix_numbers, prefix_list_row};

use crate::LineRefusal;
use crate::fronts::{Front, take_front, take_name};
use crate::line_words::{Words, is_word};
use crate::numbering::new_number;
use crate::values::{length_of, masked_prefix_of};
use net_types::{Prefix, PrefixEntry, Text};
use std::alloc::Global;

/// Prefix lists, found by name.
pub trait PrefixLists {
    ghost lists: { Self → Seq PrefixListValue };

    /// The entries of the list of this name; none where there is no such list.
    fn entries_of(&self, name: &Text) -> &[PrefixEntry]
        ensures { result.now ≡ prefix_entries name.now (lists self.now) };
}

/// A bound on the lengths of the prefixes that an entry matches, counted in.
#[derive(Clone, Copy, Debug)]
pub(crate) enum Bound {
    /// `ge`: the least length.
    Least(u8),
    /// `le`: the greatest length.
    Most(u8),
}

/// The lengths of the prefixes that an entry matches, both ends counted.
#[derive(Clone, Copy, Debug)]
pub(crate) struct Lengths {
    /// The least length.
    pub least: u8,
    /// The greatest length.
    pub most: u8,
}

/// The prefixes that an entry matches: those in a prefix that have these lengths.
#[derive(Clone, Copy, Debug)]
pub(crate) struct Matched {
    /// The prefix.
    pub prefix: Prefix,
    /// The lengths.
    pub lengths: Lengths,
}

fn between(least: u8, most: u8) -> Lengths
    ensures { result ≡ lengths least most }
{
    Lengths { least, most }
}

fn bound_of(word: &[u8], number: &[u8]) -> Option<Bound>
    ensures { result ≡ bound_of word.now number.now }
{
    if is_word(b"ge", word) {
        Some(Bound::Least(length_of(number)?))
    } else if is_word(b"le", word) {
        Some(Bound::Most(length_of(number)?))
    } else {
        None
    }
}

fn bounded_once(len: u8, bound: Bound) -> Lengths
    ensures { result ≡ bounded_once len bound }
{
    match bound {
        Bound::Least(ge) => between(ge, 32),
        Bound::Most(le) => between(len, le),
    }
}

fn bounded_twice(one: Bound, other: Bound) -> Option<Lengths>
    ensures { result ≡ bounded_twice one other }
{
    match (one, other) {
        (Bound::Least(ge), Bound::Most(le)) | (Bound::Most(le), Bound::Least(ge)) => {
            Some(between(ge, le))
        }
        _ => None,
    }
}

// The bounds behind a prefix of this length: nothing, `ge` NUM, `le` NUM, or both in either order.
fn bounds_of(len: u8, words: Words<'_>) -> Option<Lengths>
    ensures { result ≡ bounds_of len words.entry }
{
    let mut words = words;
    let Some(word) = words.next() else {
        return Some(between(len, len));
    };
    let one = bound_of(word, words.next()?)?;
    let Some(word) = words.next() else {
        return Some(bounded_once(len, one));
    };
    let other = bound_of(word, words.next()?)?;
    match words.next() {
        Some(_fifth) => None,
        None => bounded_twice(one, other),
    }
}

fn if_fitting(len: u8, lengths: Lengths) -> Option<Lengths>
    ensures value { result ≡ if_fitting len lengths }
    ensures kept { IfSome result (λ l. (len ≤ l.least) × ((l.least ≤ l.most) × (l.most ≤ 32))) }
{
    if len <= lengths.least && lengths.least <= lengths.most && lengths.most <= 32 {
        Some(lengths)
    } else {
        None
    }
}

fn matched_by(prefix: Prefix, words: Words<'_>) -> Option<Matched>
    ensures value { result ≡ matched_by prefix words.entry }
    ensures kept { IfSome result FitsPrefix }
{
    let bounds = bounds_of(prefix.len, words)?;
    let lengths = if_fitting(prefix.len, bounds)?;
    Some(Matched { prefix, lengths })
}

// Every prefix, where there is no word more.
fn every_prefix(words: Words<'_>) -> Option<Matched>
    ensures value { result ≡ if_alone every_prefix words.entry }
    ensures kept { IfSome result FitsPrefix }
{
    let mut words = words;
    match words.next() {
        Some(_second) => None,
        None => Some(Matched {
            prefix: Prefix { bits: 0, len: 0 },
            lengths: between(0, 32),
        }),
    }
}

// `any`, or PFX with its bounds.
fn matched_of(words: Words<'_>) -> Option<Matched>
    ensures value { result ≡ matched_of words.entry }
    ensures kept { IfSome result FitsPrefix }
{
    let mut words = words;
    let word = words.next()?;
    if is_word(b"any", word) {
        return every_prefix(words);
    }
    let prefix = masked_prefix_of(word)?;
    matched_by(prefix, words)
}

// What stands behind `ip prefix-list`.
#[tactic(auto, unfolding(crate::specs::PrefixLines::prefix_line))]
fn read_line<'a>(words: Words<'a>) -> Option<(Front<'a>, Matched)>
    ensures value { result ≡ prefix_line words.entry }
    ensures kept { IfSome result (λ line. FitsPrefix line.1) }
{
    let mut words = words;
    let name = take_name(&mut words)?;
    let front = take_front(name, &mut words)?;
    let matched = matched_of(words)?;
    Some((front, matched))
}

// The entry of a line, and the name of its list.
#[tactic(auto, unfolding(crate::specs::PrefixLines::added_prefix_entry))]
fn add_entry<L: PrefixLists>(
    alloc: Global,
    line: (Front<'_>, Matched),
    so_far: &L,
) -> Result<(Text, PrefixEntry), LineRefusal>
    requires { FitsPrefix line.1 }
    ensures entry { Answers (added_prefix_entry (L.lists so_far.now) line.entry) result }
    ensures kept { IfOk result (λ r. IsPrefixEntry r.1) }
    ensures room { IfOk result (λ r. HasRoom (prefix_numbers r.0 (L.lists so_far.now)) r.1.seq) }
{
    let (front, matched) = line;
    let name = front.name.to_text(alloc)?;
    let seq = new_number(front.seq, so_far.entries_of(&name))?;
    let entry = PrefixEntry {
        seq,
        permit: front.permit,
        prefix: matched.prefix,
        least: matched.lengths.least,
        most: matched.lengths.most,
    };
    Ok((name, entry))
}

/// The entry that a line of a prefix list makes, and the name of its list. The words are those behind
/// `ip prefix-list`; the lists so far are those of the lines before.
#[tactic(auto, unfolding(crate::specs::PrefixLines::prefix_list_row))]
pub fn read_prefix_list_line<L: PrefixLists>(
    alloc: Global,
    words: Words<'_>,
    so_far: &L,
) -> Result<(Text, PrefixEntry), LineRefusal>
    ensures entry { Answers (prefix_list_row words.entry (L.lists so_far.now)) result }
    ensures kept { IfOk result (λ r. IsPrefixEntry r.1) }
    ensures room { IfOk result (λ r. HasRoom (prefix_numbers r.0 (L.lists so_far.now)) r.1.seq) }
{
    match read_line(words) {
        Some(line) => add_entry(alloc, line, so_far),
        None => Err(LineRefusal::BadValue),
    }
}
