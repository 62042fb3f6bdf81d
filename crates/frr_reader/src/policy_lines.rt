//! Lines of lists and maps, as `frr_policy` reads them, answered with this crate's causes.

ghost use Rattle.std.specs.Option.{option_copied};
ghost use Rattle.frr_policy.specs.PrefixLines.{prefix_list_row};
ghost use Rattle.frr_policy.specs.CommunityLines.{community_list_row};
ghost use Rattle.frr_policy.specs.MapLines.{map_line};
ghost use Rattle.frr_reader.specs.Answers.{by_policy, Gives};

use crate::by_name::ByName;
use crate::causes::{BAD_VALUE, Cause, LineRefusal, OUT_OF_PLACE, REPEATED};
use frr_policy::{
    LineRefusal as PolicyRefusal, MapStep, Words, read_community_list_line, read_map_line,
    read_prefix_list_line,
};
use net_types::{CommunityEntry, CommunityList, MapEntry, PrefixEntry, PrefixList, RouteMap, Text};
use std::alloc::Global;

/// The entry of a line of a prefix list, given the words behind the row's head, and its list's name.
pub fn prefix_entry(
    alloc: Global,
    rest: &Words<'_>,
    lists: &ByName<PrefixList>,
) -> Result<(Text, PrefixEntry), LineRefusal>
    ensures { Gives (by_policy (prefix_list_row rest.now lists.now)) result }
{
    match read_prefix_list_line(alloc, rest.again(), lists) {
        Ok(found) => Ok(found),
        Err(PolicyRefusal::Unsupported) => Err(LineRefusal::Refused(Cause::Unsupported)),
        Err(PolicyRefusal::OutOfPlace) => Err(OUT_OF_PLACE),
        Err(PolicyRefusal::BadValue) => Err(BAD_VALUE),
        Err(PolicyRefusal::Repeated) => Err(REPEATED),
        Err(PolicyRefusal::OutOfLimit) => Err(LineRefusal::Refused(Cause::OutOfLimit)),
        Err(PolicyRefusal::NoMemory) => Err(LineRefusal::NoMemory),
    }
}

/// The entry of a line of a community list, given the words behind the row's head, and its list's name.
pub fn community_entry(
    alloc: Global,
    rest: &Words<'_>,
    lists: &ByName<CommunityList>,
) -> Result<(Text, CommunityEntry), LineRefusal>
    ensures { Gives (by_policy (community_list_row rest.now lists.now)) result }
{
    match read_community_list_line(alloc, rest.again(), lists) {
        Ok(found) => Ok(found),
        Err(PolicyRefusal::Unsupported) => Err(LineRefusal::Refused(Cause::Unsupported)),
        Err(PolicyRefusal::OutOfPlace) => Err(OUT_OF_PLACE),
        Err(PolicyRefusal::BadValue) => Err(BAD_VALUE),
        Err(PolicyRefusal::Repeated) => Err(REPEATED),
        Err(PolicyRefusal::OutOfLimit) => Err(LineRefusal::Refused(Cause::OutOfLimit)),
        Err(PolicyRefusal::NoMemory) => Err(LineRefusal::NoMemory),
    }
}

/// What a line of a route map does, given all its words and the entry that is open.
pub fn map_step(
    alloc: Global,
    line: &Words<'_>,
    maps: &ByName<RouteMap>,
    current: Option<&MapEntry>,
) -> Result<MapStep, LineRefusal>
    ensures { Gives (by_policy (map_line line.now maps.now (option_copied current.entry))) result }
{
    match read_map_line(alloc, line.again(), maps, current) {
        Ok(step) => Ok(step),
        Err(PolicyRefusal::Unsupported) => Err(LineRefusal::Refused(Cause::Unsupported)),
        Err(PolicyRefusal::OutOfPlace) => Err(OUT_OF_PLACE),
        Err(PolicyRefusal::BadValue) => Err(BAD_VALUE),
        Err(PolicyRefusal::Repeated) => Err(REPEATED),
        Err(PolicyRefusal::OutOfLimit) => Err(LineRefusal::Refused(Cause::OutOfLimit)),
        Err(PolicyRefusal::NoMemory) => Err(LineRefusal::NoMemory),
    }
}
