//! Rows at the ends of their ranges, the routes that they speak of, and candidates that beat others. The values are
//! worked out by hand from the definitions.

ghost use Rattle.std.specs.Prelude.{◌≡◌};
ghost use Rattle.abstract_route.specs.Rows.{single};

use crate::asserting::{holds, holds_at};
use abstract_route::{
    BOTTOM, Candidate, Range, Row, beats, carried, contains, is_below, is_inhabited, join,
};
use net_types::{Arc, Bits64, List, Origin, Route, Source};

const ZERO: Range = Range { low: 0, high: 0 };

/// The row of the route that a router originates by a `network` line.
pub const LOCAL: Row = Row {
    weight: Range {
        low: 32768,
        high: 32768,
    },
    preference: Range {
        low: 100,
        high: 100,
    },
    length: ZERO,
    origin: ZERO,
    med: ZERO,
    has: Bits64::EMPTY,
    lacks: Bits64::FULL,
    may: Bits64::EMPTY,
    must: Bits64::EMPTY,
};

fn range(low: u64, high: u64) -> Range
    ensures { result ≡ record { low = low; high = high } }
{
    Range { low, high }
}

fn at(number: u64) -> Range
    ensures { result ≡ single number }
{
    range(number, number)
}

fn with_weight(row: &Row, weight: Range) -> Row {
    Row { weight, ..*row }
}

fn with_preference(row: &Row, preference: Range) -> Row {
    Row { preference, ..*row }
}

fn with_length(row: &Row, length: Range) -> Row {
    Row { length, ..*row }
}

fn with_origin(row: &Row, origin: Range) -> Row {
    Row { origin, ..*row }
}

fn with_med(row: &Row, med: Range) -> Row {
    Row { med, ..*row }
}

fn with_communities(row: &Row, has: Bits64, lacks: Bits64) -> Row {
    Row { has, lacks, ..*row }
}

fn with_routers(row: &Row, may: Bits64, must: Bits64) -> Row {
    Row { may, must, ..*row }
}

/// A row of routes that were learned over router 2.
fn learned_row() -> Row {
    let routers = Bits64::EMPTY.with(2);
    Row {
        weight: ZERO,
        preference: range(100, 200),
        length: range(1, 2),
        origin: range(0, 2),
        may: routers,
        must: routers,
        ..LOCAL
    }
}

#[test]
fn rows_that_hold_a_local_route(rt: HostRuntime) {
    let route = Route {
        weight: 32768,
        preference: 100,
        path: List::new(rt.alloc()),
        origin: Origin::Igp,
        med: 7,
        communities: Bits64::EMPTY,
        source: Source::Local,
    };
    let exact = with_med(&LOCAL, at(7));
    let none = Bits64::EMPTY;
    let cases = [
        ("its exact row", with_med(&LOCAL, at(7)), true),
        ("MED 0 alone", LOCAL, false),
        ("no route", BOTTOM, false),
        ("lower weights", with_weight(&exact, range(0, 32767)), false),
        (
            "every weight",
            with_weight(&exact, range(0, u64::MAX)),
            true,
        ),
        (
            "no community may be lacked",
            with_communities(&exact, none, none),
            false,
        ),
        (
            "router 2 is on every path",
            with_routers(&exact, none, none.with(2)),
            false,
        ),
    ];
    for (name, row, wanted) in &cases {
        holds_at(&rt, name, contains(row, &route) == *wanted);
    }
}

#[test]
fn rows_that_hold_a_learned_route(rt: HostRuntime) {
    let path = match List::from_slice(rt.alloc(), &[2]) {
        Ok(path) => path,
        Err(_) => return,
    };
    let route = Route {
        weight: 0,
        preference: 150,
        path,
        origin: Origin::Incomplete,
        med: 7,
        communities: Bits64::EMPTY,
        source: Source::Learned(Arc {
            link: 1,
            down: true,
        }),
    };
    let row = learned_row();
    holds(&rt, contains(&row, &route));
    holds(&rt, !contains(&with_med(&row, at(7)), &route));
    holds(&rt, !contains(&with_length(&row, at(2)), &route));
}

#[test]
fn rows_that_are_inhabited(rt: HostRuntime) {
    let none = range(1, 0);
    let empty = Bits64::EMPTY;
    let last = empty.with(63);
    let router = empty.with(2);
    let learned = learned_row();
    let cases = [
        ("a local route's", LOCAL, true),
        ("no route", BOTTOM, false),
        ("no weight", with_weight(&LOCAL, none), false),
        ("no preference", with_preference(&LOCAL, none), false),
        ("no length", with_length(&LOCAL, none), false),
        ("no origin", with_origin(&LOCAL, none), false),
        ("no MED", with_med(&LOCAL, none), false),
        (
            "community 63 neither held nor lacked",
            with_communities(&LOCAL, empty, Bits64::FULL.minus(last)),
            false,
        ),
        (
            "community 63 held",
            with_communities(&LOCAL, last, Bits64::FULL.minus(last)),
            true,
        ),
        (
            "router 2 on every path and on none",
            with_routers(&LOCAL, empty, router),
            false,
        ),
        ("learned over router 2", learned_row(), true),
        (
            "community 5 neither held nor lacked",
            with_communities(&learned, empty, Bits64::FULL.minus(empty.with(5))),
            false,
        ),
        (
            "learned over router 2, which may be on no path",
            with_routers(&learned, empty, router),
            false,
        ),
        (
            "origins from 2 to 1",
            with_origin(&learned, range(2, 1)),
            false,
        ),
    ];
    for (name, row, wanted) in &cases {
        holds_at(&rt, name, is_inhabited(row) == *wanted);
    }
}

#[test]
fn joins_at_the_ends(rt: HostRuntime) {
    holds(&rt, join(&BOTTOM, &LOCAL) == LOCAL);
    holds(&rt, join(&LOCAL, &BOTTOM) == LOCAL);
    let joined = join(&with_weight(&LOCAL, at(u64::MAX)), &LOCAL);
    holds(&rt, joined.weight == range(32768, u64::MAX));
    holds(&rt, is_below(&BOTTOM, &LOCAL) && !is_below(&LOCAL, &BOTTOM));
    holds(
        &rt,
        carried(&with_med(&LOCAL, range(5, 0xffff_ffff))) == LOCAL,
    );
}

fn local(row: &Row) -> Candidate {
    Candidate {
        row: *row,
        sender: None,
    }
}

fn learned(row: &Row, sender: u8) -> Candidate {
    Candidate {
        row: *row,
        sender: Some(sender),
    }
}

/// A candidate and another, where both are of the same row but for what is named, and whether the first beats
/// the second.
#[test]
fn candidates_that_beat_others(rt: HostRuntime) {
    let k = with_weight(&with_length(&LOCAL, at(1)), ZERO);
    let liked = with_preference(&k, at(200));
    let doubtful = with_origin(&k, range(0, 1));
    let worse = with_med(&with_origin(&k, range(1, 2)), range(1, 9));
    let cases = [
        (
            "local, however long",
            local(&with_length(&k, range(0, 3))),
            learned(&k, 1),
            true,
        ),
        (
            "shorter than a local one",
            learned(&with_length(&k, ZERO), 1),
            local(&with_length(&k, at(2))),
            false,
        ),
        (
            "shorter at best",
            learned(&with_length(&k, range(1, 5)), 1),
            learned(&with_length(&k, at(3)), 1),
            false,
        ),
        (
            "MED of one sender",
            learned(&k, 1),
            learned(&with_med(&k, at(5)), 1),
            true,
        ),
        (
            "MED of two senders",
            learned(&k, 1),
            learned(&with_med(&k, at(5)), 2),
            false,
        ),
        (
            "weights overlap",
            learned(&with_weight(&liked, range(0, 10)), 1),
            learned(&with_weight(&k, at(5)), 1),
            false,
        ),
        (
            "weights touch",
            learned(&with_weight(&liked, range(5, 9)), 1),
            learned(&with_weight(&k, range(0, 5)), 2),
            true,
        ),
        (
            "weight first",
            learned(&with_weight(&with_preference(&k, ZERO), at(1)), 1),
            learned(&liked, 1),
            true,
        ),
        (
            "lengths touch",
            learned(&with_length(&k, range(1, 2)), 1),
            learned(&with_origin(&with_length(&k, range(2, 3)), at(1)), 2),
            true,
        ),
        (
            "a tie",
            learned(&with_med(&k, range(0, 4)), 1),
            learned(&with_med(&k, range(4, 9)), 1),
            false,
        ),
        (
            "origins touch, one sender",
            learned(&doubtful, 1),
            learned(&worse, 1),
            true,
        ),
        (
            "origins touch, two senders",
            learned(&doubtful, 1),
            learned(&worse, 2),
            false,
        ),
        (
            "length before origin",
            learned(&with_length(&k, at(3)), 1),
            learned(&with_origin(&k, at(2)), 1),
            false,
        ),
        (
            "preference before local",
            local(&with_length(&with_preference(&k, at(50)), ZERO)),
            learned(&k, 1),
            false,
        ),
    ];
    for (name, a, b, wanted) in &cases {
        holds_at(&rt, name, beats(a, b) == *wanted);
    }
}
