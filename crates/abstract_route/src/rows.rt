//! Rows, their order and their join.

ghost use Rattle.std.specs.Prelude.{◌≡◌, ◌<◌, ◌^◌, ◌↔◌, IsTrue, nat_le};
ghost use Rattle.abstract_route.specs.Rows.{IsBelow, IsInhabited, IsRow, Lies, carried_row, hull_of, inhabited, joined};

use net_types::Bits64;

/// The numbers from `low` to `high`, both counted; none where `low` is greater.
#[derive(Clone, Copy, PartialEq, Eq, Debug)]
pub struct Range {
    pub low: u64,
    pub high: u64,
}

/// What is known of the routes that may come to a router.
#[derive(Clone, Copy, PartialEq, Eq, Debug)]
pub struct Row {
    /// Their weights.
    pub weight: Range,
    /// Their local preferences.
    pub preference: Range,
    /// The lengths of their paths.
    pub length: Range,
    /// Their origins: IGP 0, EGP 1, incomplete 2.
    pub origin: Range,
    /// The MEDs that their exports carry.
    pub med: Range,
    /// The communities that they may hold, by number.
    pub has: Bits64,
    /// The communities that they may lack.
    pub lacks: Bits64,
    /// The routers that may be on their paths, by number.
    pub may: Bits64,
    /// The routers that are on every one of their paths.
    pub must: Bits64,
}

const NOWHERE: Range = Range {
    low: u64::MAX,
    high: 0,
};

/// The row of no route.
pub const BOTTOM: Row = Row {
    weight: NOWHERE,
    preference: NOWHERE,
    length: NOWHERE,
    origin: NOWHERE,
    med: NOWHERE,
    has: Bits64::EMPTY,
    lacks: Bits64::EMPTY,
    may: Bits64::EMPTY,
    must: Bits64::FULL,
};

impl Row {
    /// Learns that each word is a 64-bit number, which the laws ask of a row.
    pub fn fits(&self)
        ensures { IsRow self.now }
    {
        range_fits(self.weight);
        range_fits(self.preference);
        range_fits(self.length);
        range_fits(self.origin);
        range_fits(self.med);
        self.has.fits();
        self.lacks.fits();
        self.may.fits();
        self.must.fits();
    }
}

fn range_fits(range: Range)
    ensures { (range.low < 2 ^ 64) × (range.high < 2 ^ 64) }
{
    let _low = range.low;
    let _high = range.high;
}

/// The least row above both.
pub fn join(a: &Row, b: &Row) -> Row
    ensures { result ≡ joined a.now b.now }
{
    Row {
        weight: hull(a.weight, b.weight),
        preference: hull(a.preference, b.preference),
        length: hull(a.length, b.length),
        origin: hull(a.origin, b.origin),
        med: hull(a.med, b.med),
        has: a.has.union(b.has),
        lacks: a.lacks.union(b.lacks),
        may: a.may.union(b.may),
        must: a.must.common(b.must),
    }
}

fn hull(a: Range, b: Range) -> Range
    ensures { result ≡ hull_of a b }
{
    Range {
        low: if a.low < b.low { a.low } else { b.low },
        high: if a.high < b.high { b.high } else { a.high },
    }
}

/// Whether the row `a` is below `b`: `b` leaves open all that `a` leaves open.
pub fn is_below(a: &Row, b: &Row) -> bool
    ensures { IsTrue result ↔ IsBelow a.now b.now }
{
    lies_in(a.weight, b.weight)
        && lies_in(a.preference, b.preference)
        && lies_in(a.length, b.length)
        && lies_in(a.origin, b.origin)
        && lies_in(a.med, b.med)
        && a.has.is_part(b.has)
        && a.lacks.is_part(b.lacks)
        && a.may.is_part(b.may)
        && b.must.is_part(a.must)
}

fn lies_in(a: Range, b: Range) -> bool
    ensures { IsTrue result ↔ Lies a b }
{
    b.low <= a.low && a.high <= b.high
}

/// Whether no part of the row rules out every route: no range is empty, each community may be held or
/// lacked, and the routers that are on every path may be on a path.
pub fn is_inhabited(a: &Row) -> bool
    ensures test { result ≡ inhabited a.now }
    ensures fact { IsTrue result ↔ IsInhabited a.now }
{
    is_some(a.weight)
        && is_some(a.preference)
        && is_some(a.length)
        && is_some(a.origin)
        && is_some(a.med)
        && Bits64::FULL.is_part(a.has.union(a.lacks))
        && a.must.is_part(a.may)
}

fn is_some(range: Range) -> bool
    ensures { result ≡ nat_le range.low range.high }
{
    range.low <= range.high
}

/// The row that a learned route is kept in: the MED alone changes, to the 0 that it is announced with in turn.
pub fn carried(a: &Row) -> Row
    ensures { result ≡ carried_row a.now }
{
    Row {
        med: Range { low: 0, high: 0 },
        ..*a
    }
}
