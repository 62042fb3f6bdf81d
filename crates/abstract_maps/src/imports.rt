//! What a receiver makes of a row that a sender announces.

ghost use Rattle.std.specs.Prelude.{◌≡◌, ◌<◌, ◌≤◌, ◌^◌};
ghost use Rattle.abstract_maps.specs.Transfer.{cut, cut_row, imported, longest, received, received_free};

use crate::maps::abstract_map;
use abstract_route::{Range, Row, bottom_value, is_inhabited};
use net_types::{End, Net, Prefix};

// What a receiver begins with, before its policy.
const WEIGHT: Range = Range { low: 0, high: 0 };

const PREFERENCE: Range = Range {
    low: 100,
    high: 100,
};

// What the receiver begins with.
#[tactic(auto, unfolding(crate::specs::Transfer::received))]
pub(crate) fn received(receiver: u8, row: &Row) -> Row
    requires { receiver < 64 }
    ensures row { result ≡ received receiver row.now }
    ensures long { result.length.high ≤ row.now.length.high }
{
    if row.must.has(receiver) {
        bottom_value()
    } else {
        Row {
            weight: WEIGHT,
            preference: PREFERENCE,
            may: row.may.without(receiver),
            ..*row
        }
    }
}

// The same, had the receiver been on no path.
#[tactic(auto, unfolding(crate::specs::Transfer::received_free))]
pub(crate) fn received_free(receiver: u8, row: &Row) -> Row
    requires { receiver < 64 }
    ensures row { result ≡ received_free receiver row.now }
    ensures long { result.length.high ≤ row.now.length.high }
{
    Row {
        weight: WEIGHT,
        preference: PREFERENCE,
        may: row.may.without(receiver),
        must: row.must.without(receiver),
        ..*row
    }
}

// How many entries a path may have.
fn longest(net: &Net) -> u64
    ensures { result ≡ longest net.now }
{
    net.valid();
    21 * net.routers().len() as u64
}

fn cut(most: u64, range: Range) -> Range
    ensures { result ≡ cut most range }
{
    Range {
        low: if range.low < most { range.low } else { most },
        high: if range.high < most { range.high } else { most },
    }
}

#[tactic(auto, unfolding(crate::specs::Transfer::cut_row))]
fn cut_row(most: u64, row: &Row) -> Row
    ensures { result ≡ cut_row most row.now }
{
    if is_inhabited(row) {
        Row {
            length: cut(most, row.length),
            ..*row
        }
    } else {
        bottom_value()
    }
}

// What the receiver's import and the cut leave.
#[tactic(auto, unfolding(crate::specs::Transfer::imported))]
pub(crate) fn imported(net: &Net, prefix: &Prefix, to: &End, row: &Row) -> Row
    requires { row.now.length.high < 2 ^ 62 }
    ensures { result ≡ imported net.now prefix.now to.now row.now }
{
    let mapped = abstract_map(net, to.router, to.import, prefix, row);
    cut_row(longest(net), &mapped)
}
