//! The row of a route map's line, by the words of its head.

ghost use Rattle.std.specs.Prelude.{◌≡◌, ◌∷◌, [], codes};
ghost use Rattle.frr_policy.specs.Grammar.{Took};
ghost use Rattle.frr_policy.specs.MapPlaces.{found_match, found_set, found_row};

use crate::line_words::{Words, is_word};
use crate::map_steps::{MapRow, Setting};

// Behind `match`.
#[tactic(auto, unfolding(crate::specs::MapPlaces::found_match))]
fn take_match(words: &mut Words<'_>) -> Option<MapRow>
    ensures { Took (found_match words.old) words.new result }
{
    let word = words.next()?;
    if is_word(b"community", word) {
        return Some(MapRow::Changes(Setting::MatchCommunity));
    }
    let (address, prefix_list) = (words.next()?, words.next()?);
    if is_word(b"ip", word)
        && is_word(b"address", address)
        && is_word(b"prefix-list", prefix_list)
    {
        Some(MapRow::Changes(Setting::MatchPrefixList))
    } else {
        None
    }
}

// Behind `set`.
#[tactic(auto, unfolding(crate::specs::MapPlaces::found_set))]
fn take_set(words: &mut Words<'_>) -> Option<MapRow>
    ensures { Took (found_set words.old) words.new result }
{
    let word = words.next()?;
    let setting = if is_word(b"local-preference", word) {
        Setting::SetPreference
    } else if is_word(b"metric", word) {
        Setting::SetMetric
    } else if is_word(b"weight", word) {
        Setting::SetWeight
    } else if is_word(b"origin", word) {
        Setting::SetOrigin
    } else if is_word(b"community", word) {
        Setting::SetCommunities
    } else if is_word(b"comm-list", word) {
        Setting::DeleteCommunities
    } else if is_word(b"as-path", word) && is_word(b"prepend", words.next()?) {
        Setting::Prepend
    } else {
        return None;
    };
    Some(MapRow::Changes(setting))
}

/// The row of a line, by the words of its head, which it takes from the front.
#[tactic(auto, unfolding(crate::specs::MapPlaces::found_row))]
pub(crate) fn take_row(words: &mut Words<'_>) -> Option<MapRow>
    ensures { Took (found_row words.old) words.new result }
{
    let word = words.next()?;
    if is_word(b"route-map", word) {
        Some(MapRow::Begins)
    } else if is_word(b"match", word) {
        take_match(words)
    } else if is_word(b"set", word) {
        take_set(words)
    } else {
        None
    }
}
