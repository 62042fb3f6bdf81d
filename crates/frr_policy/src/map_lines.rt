//! The lines of route maps.

ghost use Rattle.std.specs.Prelude.{◌≡◌, List as Seq, IfOk, IfSome, None};
ghost use Rattle.std.specs.Option.{option_copied};
ghost use Rattle.net_types.specs.declared.config.RouteMap.{RouteMap as RouteMapValue};
ghost use Rattle.frr_policy.specs.Values.{action_of, map_number_of};
ghost use Rattle.frr_policy.specs.Grammar.{Took, first};
ghost use Rattle.frr_policy.specs.Answers.{Answers};
ghost use Rattle.frr_policy.specs.MapRows.{FitsEntry};
ghost use Rattle.frr_policy.specs.MapLines.{FitsStep, HasPlace, heading_of, map_entries, new_entry, added_map_entry, begins, map_line};
ghost use Rattle.frr_policy.specs.MapPlaces.{change_of, effect_of, found_row, by_found};

use crate::fronts::{take_action, take_name};
use crate::line_words::Words;
use crate::map_places::take_row;
use crate::map_steps::{MapRow, MapStep, Setting};
use crate::numbering::if_free;
use crate::values::{Name, map_number_of};
use crate::{LineRefusal, map_rows};
use net_types::{List, MapEntry, SetCommunity, Sets, Text};
use std::alloc::Global;
use std::marker::Model;

/// Route maps, found by name.
pub trait RouteMaps {
    ghost maps: { Self → Seq RouteMapValue };

    /// The entries of the map of this name; none where there is no such map.
    fn entries_of(&self, name: &Text) -> &[MapEntry]
        ensures { result.now ≡ map_entries name.now (maps self.now) };
}

// What a line that begins an entry says.
#[derive(Debug, Drop)]
struct Heading<'a> {
    name: Name<'a>,
    permit: bool,
    seq: u16,
}

impl<'a> Model for Heading<'a> {
    ghost use Rattle.frr_policy.specs.MapLines.{HeadingValue};

    ghost Value = { HeadingValue };

    ghost view = { λ it. record { name = it.name; permit = it.permit; seq = it.seq } };
}

// NUM 1 to 65535, from the front of the words.
fn take_map_number(words: &mut Words<'_>) -> Option<u16>
    ensures { Took (first map_number_of words.old) words.new result }
{
    let word = words.next()?;
    map_number_of(word)
}

// What stands behind `route-map`: NAME, ACT, NUM.
fn read_heading<'a>(words: Words<'a>) -> Option<Heading<'a>>
    ensures { result ≡ heading_of words.entry }
{
    let mut words = words;
    let name = take_name(&mut words)?;
    let permit = take_action(&mut words)?;
    let seq = take_map_number(&mut words)?;
    match words.next() {
        Some(_fourth) => None,
        None => Some(Heading { name, permit, seq }),
    }
}

// An entry that matches every route and changes nothing.
fn new_entry(alloc: Global, permit: bool, seq: u16) -> MapEntry
    ensures value { result ≡ new_entry permit seq }
    ensures kept { FitsEntry result }
{
    MapEntry {
        seq,
        permit,
        prefixes: None,
        communities: None,
        sets: Sets {
            weight: None,
            preference: None,
            med: None,
            origin: None,
            delete: None,
            community: SetCommunity::Keep,
            prepend: List::new(alloc),
        },
    }
}

// Begins an entry of the map that the line names.
#[tactic(auto, unfolding(crate::specs::MapLines::added_map_entry))]
fn add_entry<M: RouteMaps>(
    alloc: Global,
    heading: Heading<'_>,
    so_far: &M,
) -> Result<MapStep, LineRefusal>
    ensures step { Answers (added_map_entry (M.maps so_far.now) heading.entry) result }
    ensures kept { IfOk result FitsStep }
    ensures place { IfOk result (HasPlace (M.maps so_far.now) None) }
{
    let name = heading.name.to_text(alloc)?;
    if_free(so_far.entries_of(&name), u32::from(heading.seq))?;
    Ok(MapStep::Begin(name, new_entry(alloc, heading.permit, heading.seq)))
}

#[tactic(auto, unfolding(crate::specs::MapLines::begins))]
fn begin<M: RouteMaps>(
    alloc: Global,
    words: Words<'_>,
    so_far: &M,
    current: Option<&MapEntry>,
) -> Result<MapStep, LineRefusal>
    ensures step { Answers (begins words.entry (M.maps so_far.now) (option_copied current.entry)) result }
    ensures kept { IfOk result FitsStep }
    ensures place { IfOk result (HasPlace (M.maps so_far.now) (option_copied current.entry)) }
{
    match read_heading(words) {
        Some(heading) => add_entry(alloc, heading, so_far),
        None => Err(LineRefusal::BadValue),
    }
}

// What a line of a map's block makes of its entry.
fn change(
    alloc: Global,
    setting: Setting,
    words: Words<'_>,
    entry: &MapEntry,
) -> Result<MapEntry, LineRefusal>
    ensures entry { Answers (change_of setting words.entry entry.now) result }
    ensures kept { FitsEntry entry.now → IfOk result FitsEntry }
    ensures place { IfOk result (λ e. e.seq ≡ entry.now.seq) }
{
    match setting {
        Setting::MatchCommunity => map_rows::match_community(alloc, words, entry),
        Setting::MatchPrefixList => map_rows::match_prefix_list(alloc, words, entry),
        Setting::SetPreference => map_rows::set_preference(alloc, words, entry),
        Setting::SetMetric => map_rows::set_metric(alloc, words, entry),
        Setting::SetWeight => map_rows::set_weight(alloc, words, entry),
        Setting::SetOrigin => map_rows::set_origin(alloc, words, entry),
        Setting::SetCommunities => map_rows::set_community(alloc, words, entry),
        Setting::DeleteCommunities => map_rows::set_comm_list(alloc, words, entry),
        Setting::Prepend => map_rows::set_prepend(alloc, words, entry),
    }
}

// What a line of this row does.
fn take_step<M: RouteMaps>(
    alloc: Global,
    row: MapRow,
    words: Words<'_>,
    so_far: &M,
    current: Option<&MapEntry>,
) -> Result<MapStep, LineRefusal>
    ensures step { Answers (effect_of row words.entry (M.maps so_far.now) (option_copied current.entry)) result }
    ensures kept { IfSome (option_copied current.entry) FitsEntry → IfOk result FitsStep }
    ensures place { IfOk result (HasPlace (M.maps so_far.now) (option_copied current.entry)) }
{
    match (row, current) {
        (MapRow::Begins, _) => begin(alloc, words, so_far, current),
        (MapRow::Changes(_setting), None) => Err(LineRefusal::OutOfPlace),
        (MapRow::Changes(setting), Some(entry)) => {
            let changed = change(alloc, setting, words, entry)?;
            Ok(MapStep::Change(changed))
        }
    }
}

/// What a line of a route map does. The words are the whole line's; the maps so far are those of the lines
/// before, and `current` is the entry whose block is open, if one is. A line that has the head of no row of
/// a route map is not supported, whatever else the line table has.
pub fn read_map_line<M: RouteMaps>(
    alloc: Global,
    words: Words<'_>,
    so_far: &M,
    current: Option<&MapEntry>,
) -> Result<MapStep, LineRefusal>
    ensures step { Answers (map_line words.entry (M.maps so_far.now) (option_copied current.entry)) result }
    ensures kept { IfSome (option_copied current.entry) FitsEntry → IfOk result FitsStep }
    ensures place { IfOk result (HasPlace (M.maps so_far.now) (option_copied current.entry)) }
{
    let mut words = words;
    match take_row(&mut words) {
        Some(row) => take_step(alloc, row, words, so_far, current),
        None => Err(LineRefusal::Unsupported),
    }
}
