//! What has to hold: the properties of a book.

use net_types::{Prefix, Text};

/// What a property asks.
#[derive(Debug, Drop)]
pub enum Kind {
    /// The router's traffic for the prefix reaches an owner.
    Reach,
    /// The router has no way to the prefix.
    Isolated,
    /// The router's traffic for the prefix, where it is delivered, goes through the router of this host.
    Waypoint(Text),
}

/// A property: what has to hold at a router for a prefix, with up to so many failed links.
#[derive(Debug, Drop)]
pub struct Property {
    /// Its name in the report.
    pub name: Text,
    /// What it asks.
    pub kind: Kind,
    /// The host of the router.
    pub router: Text,
    /// The prefix.
    pub prefix: Prefix,
    /// How many links may fail, at most 3.
    pub failures: u8,
}
