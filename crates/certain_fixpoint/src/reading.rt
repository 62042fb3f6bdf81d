//! What a round reads.

ghost use Rattle.std.specs.Prelude.{◌≡◌, ◌<◌, length, All, IfSome};
ghost use Rattle.abstract_maps.specs.AbstractMap.{IsShort};
ghost use Rattle.abstract_route.specs.Rows.{row_at as row_in};

use abstract_route::{Row, bottom_value};
use net_types::{FailSet, Net, Prefix};

/// A prefix of a network, with these links failed, these OSPF distances, and these rows of possible routes,
/// one of each for each router. What it means is `round_read` of `specs/Certain.antt`.
#[derive(Clone, Copy)]
pub struct Reading<'a> {
    /// The network.
    pub net: &'a Net,
    /// The prefix.
    pub prefix: Prefix,
    /// The links that have failed.
    pub failed: &'a FailSet,
    /// The OSPF distances.
    pub distances: &'a [Option<u64>],
    /// What is possible at each router.
    pub rows: &'a [Row],
}

/// The row of a router, that of no route where the list has none.
pub fn row_at(rows: &[Row], router: u8) -> Row
    requires { All IsShort rows.now }
    ensures row { result ≡ row_in rows.now router }
    ensures short { IsShort result }
{
    match rows.get(usize::from(router)) {
        Some(row) => *row,
        None => bottom_value(),
    }
}
