//! What a line of a route map is, and what it does.

use net_types::{MapEntry, Text};

/// What a line of a route map does.
#[derive(Debug, Drop)]
pub enum MapStep {
    /// It begins this entry of the map of this name, and opens its block.
    Begin(Text, MapEntry),
    /// The entry whose block is open is now this.
    Change(MapEntry),
}

/// A line in the block of a map.
#[derive(Clone, Copy, Debug)]
pub(crate) enum Setting {
    /// `match community`
    MatchCommunity,
    /// `match ip address prefix-list`
    MatchPrefixList,
    /// `set local-preference`
    SetPreference,
    /// `set metric`
    SetMetric,
    /// `set weight`
    SetWeight,
    /// `set origin`
    SetOrigin,
    /// `set community`
    SetCommunities,
    /// `set comm-list`
    DeleteCommunities,
    /// `set as-path prepend`
    Prepend,
}

/// A line of a route map.
#[derive(Clone, Copy, Debug)]
pub(crate) enum MapRow {
    /// `route-map`
    Begins,
    /// A line in the block.
    Changes(Setting),
}
