//! What a policy makes of a row, and when it surely lets every route of the row through.

ghost use Rattle.std.specs.Prelude.{◌≡◌, ◌<◌, ◌≤◌, ◌+◌, ◌^◌, length};
ghost use Rattle.concrete_algebra.specs.Maps.{map_entries};
ghost use Rattle.abstract_route.specs.Rows.{IsInhabited};
ghost use Rattle.abstract_maps.specs.AbstractMap.{IsShort, abstract_map, map_row, policy_row, sure, sure_entries, sure_policy};
ghost use Rattle.abstract_maps.specs.OnTheWay.{GrowsBy};

use crate::entries::{entry_row, on_entry};
use crate::statuses::Status;
use abstract_route::{Row, bottom_value, is_inhabited, join};
use concrete_algebra::map_entries;
use net_types::{Net, NetMapEntry, Policy, Prefix, Router};

// The abstract map of these entries.
#[tactic(auto, unfolding(crate::specs::AbstractMap::map_row))]
pub(crate) fn map_row(
    router: &Router,
    u: u8,
    prefix: &Prefix,
    entries: &[NetMapEntry],
    row: &Row,
) -> Row
    requires router { u < 64 }
    requires ordered { row.now.length.low ≤ row.now.length.high }
    requires small { row.now.length.high < 2 ^ 62 }
    ensures row { result ≡ map_row router.now u prefix.now entries.now row.now }
    ensures long { result.length.high ≤ row.now.length.high + 255 }
{
    match entries.split_first() {
        None => bottom_value(),
        Some((first, later)) => match on_entry(router, prefix, first, row) {
            Status::No => map_row(router, u, prefix, later, row),
            Status::Yes => entry_row(router, u, first, row),
            Status::Maybe => {
                let here = entry_row(router, u, first, row);
                let behind = map_row(router, u, prefix, later, row);
                join(&here, &behind)
            }
        },
    }
}

fn policy_row(router: &Router, u: u8, policy: Policy, prefix: &Prefix, row: &Row) -> Row
    requires router { u < 64 }
    requires ordered { row.now.length.low ≤ row.now.length.high }
    requires small { row.now.length.high < 2 ^ 62 }
    ensures row { result ≡ policy_row router.now u policy prefix.now row.now }
    ensures long { result.length.high ≤ row.now.length.high + 255 }
{
    match policy {
        Policy::Closed => bottom_value(),
        Policy::Open => *row,
        Policy::Map(position) => map_row(router, u, prefix, map_entries(router, position), row),
    }
}

// What the policy makes of a row that may have no route.
#[tactic(auto, unfolding(crate::specs::AbstractMap::abstract_map))]
pub(crate) fn abstract_map(net: &Net, u: u8, policy: Policy, prefix: &Prefix, row: &Row) -> Row
    requires { IsInhabited row.now → row.now.length.high < 2 ^ 62 }
    ensures row { result ≡ abstract_map net.now u policy prefix.now row.now }
    ensures grows { GrowsBy 255 row.now result }
{
    net.valid();
    if !is_inhabited(row) {
        return bottom_value();
    }
    match net.routers().get(usize::from(u)) {
        None => bottom_value(),
        Some(router) => policy_row(router, u, policy, prefix, row),
    }
}

/// What the policy of the router makes of the row: no route at a closed side and where the row has none, the row
/// itself at an open side, and for a route map the join, over the entries that may decide, of the row under the
/// entry's sets. This project's own.
pub fn run_map_abs(net: &Net, router: u8, policy: Policy, prefix: Prefix, row: &Row) -> Row
    requires router { router < length net.now.routers }
    requires short { IsShort row.now }
    ensures { result ≡ abstract_map net.now router policy prefix row.now }
{
    abstract_map(net, router, policy, &prefix, row)
}

// Whether a Yes entry permits, and each Maybe entry before it.
#[tactic(auto, unfolding(crate::specs::AbstractMap::sure_entries))]
pub(crate) fn sure_entries(
    router: &Router,
    prefix: &Prefix,
    entries: &[NetMapEntry],
    row: &Row,
) -> bool
    ensures { result ≡ sure_entries router.now prefix.now entries.now row.now }
{
    match entries.split_first() {
        None => false,
        Some((first, later)) => match on_entry(router, prefix, first, row) {
            Status::No => sure_entries(router, prefix, later, row),
            Status::Yes => first.permit,
            Status::Maybe => first.permit && sure_entries(router, prefix, later, row),
        },
    }
}

fn sure_policy(router: &Router, policy: Policy, prefix: &Prefix, row: &Row) -> bool
    ensures { result ≡ sure_policy router.now policy prefix.now row.now }
{
    match policy {
        Policy::Closed => false,
        Policy::Open => true,
        Policy::Map(position) => {
            sure_entries(router, prefix, map_entries(router, position), row)
        }
    }
}

/// Whether the policy surely lets each route of the row through, where it is inhabited.
#[tactic(auto, unfolding(crate::specs::AbstractMap::sure))]
pub fn sure(net: &Net, u: u8, policy: Policy, prefix: &Prefix, row: &Row) -> bool
    ensures { result ≡ sure net.now u policy prefix.now row.now }
{
    match net.routers().get(usize::from(u)) {
        None => false,
        Some(router) => sure_policy(router, policy, prefix, row),
    }
}
