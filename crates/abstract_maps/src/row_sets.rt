//! The sets of a route map's entry on a row.

ghost use Rattle.std.specs.Prelude.{◌≡◌, ◌<◌, ◌≤◌, ◌+◌, ◌^◌};
ghost use Rattle.std.specs.Int.{bit_not, w64};
ghost use Rattle.concrete_algebra.specs.Maps.{without_deleted};
ghost use Rattle.abstract_maps.specs.RowSets.{lacked_after, lengthened, replaced, replaced_origin, row_under_sets, with_deleted, with_router};

use abstract_route::{Range, Row};
use concrete_algebra::{community_entries, deleted_by, with_set};
use net_types::{Bits64, NetSetCommunity, NetSets, Origin, Router};

fn replaced(number: Option<u32>, range: Range) -> Range
    ensures { result ≡ replaced number range }
{
    match number {
        None => range,
        Some(number) => Range {
            low: u64::from(number),
            high: u64::from(number),
        },
    }
}

fn replaced_origin(origin: Option<Origin>, range: Range) -> Range
    ensures { result ≡ replaced_origin origin range }
{
    match origin {
        None => range,
        Some(origin) => {
            let rank = u64::from(origin.rank());
            Range {
                low: rank,
                high: rank,
            }
        }
    }
}

// The communities that may be held, and those that may be lacked, where a list's are deleted, if one is named.
fn after_delete(router: &Router, position: Option<u32>, row: &Row) -> (Bits64, Bits64)
    ensures held { result.0 ≡ without_deleted router.now position row.now.has }
    ensures lacked { result.1 ≡ with_deleted router.now position row.now.lacks }
{
    match position {
        None => (row.has, row.lacks),
        Some(position) => {
            let deleted = deleted_by(community_entries(router, position));
            (row.has.minus(deleted), row.lacks.union(deleted))
        }
    }
}

// The communities that may be lacked after `set community`.
fn lacked_after(community: NetSetCommunity, lacked: Bits64) -> Bits64
    ensures { result ≡ lacked_after community lacked }
{
    match community {
        NetSetCommunity::Keep => lacked,
        NetSetCommunity::Replace(values) => complement(values),
        NetSetCommunity::Add(values) => lacked.minus(values),
        NetSetCommunity::Clear => Bits64::FULL,
    }
}

// All numbers below 64 that are not in the set.
fn complement(values: Bits64) -> Bits64
    ensures { result ≡ bit_not w64 values }
{
    Bits64::from_word(!values.word())
}

// The range with so many more at both ends.
pub(crate) fn lengthened(count: u8, range: Range) -> Range
    requires ordered { range.low ≤ range.high }
    requires small { range.high < 2 ^ 62 }
    ensures range { result ≡ lengthened count range }
    ensures long { result.high ≤ range.high + 255 }
{
    Range {
        low: range.low + u64::from(count),
        high: range.high + u64::from(count),
    }
}

fn with_router(count: u8, u: u8, set: Bits64) -> Bits64
    requires { u < 64 }
    ensures { result ≡ with_router count u set }
{
    if count == 0 { set } else { set.with(u) }
}

// A row of router u under the sets of an entry.
#[tactic(auto, unfolding(crate::specs::RowSets::row_under_sets))]
pub(crate) fn row_under_sets(router: &Router, u: u8, sets: &NetSets, row: &Row) -> Row
    requires router { u < 64 }
    requires ordered { row.now.length.low ≤ row.now.length.high }
    requires small { row.now.length.high < 2 ^ 62 }
    ensures row { result ≡ row_under_sets router.now u sets.now row.now }
    ensures long { result.length.high ≤ row.now.length.high + 255 }
{
    let (held, lacked) = after_delete(router, sets.delete, row);
    Row {
        weight: replaced(sets.weight, row.weight),
        preference: replaced(sets.preference, row.preference),
        length: lengthened(sets.prepend, row.length),
        origin: replaced_origin(sets.origin, row.origin),
        med: replaced(sets.med, row.med),
        has: with_set(sets.community, held),
        lacks: lacked_after(sets.community, lacked),
        may: with_router(sets.prepend, u, row.may),
        must: with_router(sets.prepend, u, row.must),
    }
}
