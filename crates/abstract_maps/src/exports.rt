//! What a sender announces of a row, before the receiver sees it.

ghost use Rattle.std.specs.Prelude.{◌≡◌, ◌<◌, ◌^◌};
ghost use Rattle.abstract_route.specs.Rows.{IsInhabited};
ghost use Rattle.abstract_maps.specs.AbstractMap.{IsShort};
ghost use Rattle.abstract_maps.specs.Transfer.{exported, may_leave, row_sent_by, surely_leaves};

use crate::maps::abstract_map;
use crate::row_sets::lengthened;
use abstract_route::{Row, bottom_value, is_inhabited};
use concrete_algebra::{holds_value, is_kept_home};
use net_types::{End, NO_ADVERTISE, NO_EXPORT, Net, Prefix};

fn may_leave(net: &Net, row: &Row) -> bool
    ensures { result ≡ may_leave net.now row.now }
{
    holds_value(net, NO_EXPORT, row.lacks) && holds_value(net, NO_ADVERTISE, row.lacks)
}

pub(crate) fn surely_leaves(net: &Net, row: &Row) -> bool
    ensures { result ≡ surely_leaves net.now row.now }
{
    !is_kept_home(net, row.has)
}

// The router once more in front of the path.
#[tactic(auto, unfolding(crate::specs::Transfer::row_sent_by))]
fn row_sent_by(sender: u8, row: &Row) -> Row
    requires sender { sender < 64 }
    requires small { IsInhabited row.now → row.now.length.high < 2 ^ 61 }
    ensures row { result ≡ row_sent_by sender row.now }
    ensures small { result.length.high < 2 ^ 62 }
{
    if is_inhabited(row) {
        Row {
            length: lengthened(1, row.length),
            may: row.may.with(sender),
            must: row.must.with(sender),
            ..*row
        }
    } else {
        bottom_value()
    }
}

// What the sender announces.
#[tactic(auto, unfolding(crate::specs::Transfer::exported))]
pub(crate) fn exported(net: &Net, prefix: &Prefix, from: &End, row: &Row) -> Row
    requires sender { from.now.router < 64 }
    requires short { IsShort row.now }
    ensures row { result ≡ exported net.now prefix.now from.now row.now }
    ensures small { result.length.high < 2 ^ 62 }
{
    if may_leave(net, row) {
        let mapped = abstract_map(net, from.router, from.export, prefix, row);
        row_sent_by(from.router, &mapped)
    } else {
        bottom_value()
    }
}
