//! One entry of a route map on a row.

ghost use Rattle.std.specs.Prelude.{◌≡◌, ◌<◌, ◌≤◌, ◌+◌, ◌^◌};
ghost use Rattle.abstract_maps.specs.AbstractMap.{entry_row};
ghost use Rattle.abstract_maps.specs.Statuses.{entry_status};

use crate::lists::on_communities;
use crate::row_sets::row_under_sets;
use crate::statuses::Status;
use abstract_route::{Row, bottom_value};
use concrete_algebra::prefixes_match;
use net_types::{NetMapEntry, Prefix, Router};

// How the entry's matches stand to the row's routes.
pub(crate) fn on_entry(router: &Router, prefix: &Prefix, entry: &NetMapEntry, row: &Row) -> Status
    ensures { result ≡ entry_status router.now prefix.now entry.now row.now }
{
    if prefixes_match(router, entry.prefixes, prefix) {
        on_communities(router, entry.communities, row)
    } else {
        Status::No
    }
}

// What the entry gives where it decides.
pub(crate) fn entry_row(router: &Router, u: u8, entry: &NetMapEntry, row: &Row) -> Row
    requires router { u < 64 }
    requires ordered { row.now.length.low ≤ row.now.length.high }
    requires small { row.now.length.high < 2 ^ 62 }
    ensures row { result ≡ entry_row router.now u entry.now row.now }
    ensures long { result.length.high ≤ row.now.length.high + 255 }
{
    if entry.permit {
        row_under_sets(router, u, &entry.sets, row)
    } else {
        bottom_value()
    }
}
