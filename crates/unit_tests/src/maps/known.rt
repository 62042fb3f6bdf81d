//! A map's entries on rows of which it is known, or not, whether their routes hold a community.

ghost use Rattle.std.specs.Prelude.{◌≡◌};
ghost use Rattle.abstract_route.specs.Rows.{single};

use super::one_router::network;
use super::preferring::is_in;
use crate::asserting::holds_at;
use abstract_maps::{run_map_abs, sure};
use abstract_route::{BOTTOM, Range, Row};
use concrete_algebra::run_map;
use net_types::{Bits64, List, Origin, Policy, Prefix, Route, Source};
use std::alloc::Global;
use std::test::Fail;

fn single(number: u64) -> Range
    ensures { result ≡ single number }
{
    Range {
        low: number,
        high: number,
    }
}

// The rows of the table: local routes that may hold and may lack these communities.
fn row_of(has: u64, lacks: u64) -> Row
    ensures { result.length ≡ single 0 }
{
    Row {
        weight: single(32768),
        preference: single(100),
        length: single(0),
        origin: single(0),
        med: single(0),
        has: Bits64::from_word(has),
        lacks: Bits64::from_word(lacks),
        may: Bits64::EMPTY,
        must: Bits64::EMPTY,
    }
}

// A local route that holds these communities.
fn route_of(alloc: Global, held: u64) -> Route {
    Route {
        weight: 32768,
        preference: 100,
        path: List::new(alloc),
        origin: Origin::Igp,
        med: 0,
        communities: Bits64::from_word(held),
        source: Source::Local,
    }
}

// What a map makes of a row: the ends of two ranges, and four sets as words.
struct Known {
    preference: (u64, u64),
    length: (u64, u64),
    has: u64,
    lacks: u64,
    may: u64,
    must: u64,
}

// A case of the map of router a, which has number 0.
struct Case {
    name: &'static str,
    has: u64,
    lacks: u64,
    /// What routes of the row hold.
    held: &'static [u64],
    permit: bool,
    /// What the first entry changes.
    line: &'static str,
    /// Whether the prefix is the one that the prefix list permits.
    ours: bool,
    wanted: Option<Known>,
    sure: bool,
}

const ALL: u64 = u64::MAX;

const ALL_BUT_0: u64 = 0xFFFF_FFFF_FFFF_FFFE;

const ALL_BUT_1: u64 = 0xFFFF_FFFF_FFFF_FFFD;

const ALL_BUT_BOTH: u64 = 0xFFFF_FFFF_FFFF_FFFC;

// Every route holds community 0.
const HELD: Case = Case {
    name: "every route matches the first entry",
    has: 1,
    lacks: ALL_BUT_0,
    held: &[1],
    permit: true,
    line: " set local-preference 200",
    ours: true,
    wanted: Some(Known {
        preference: (200, 200),
        ..AS_HELD
    }),
    sure: true,
};

const AS_HELD: Known = Known {
    preference: (100, 100),
    length: (0, 0),
    has: 1,
    lacks: ALL_BUT_0,
    may: 0,
    must: 0,
};

// A route may hold community 0, or lack it.
const OPEN: Case = Case {
    name: "some may match it",
    lacks: ALL,
    held: &[0, 1],
    wanted: Some(Known {
        preference: (50, 200),
        ..AS_OPEN
    }),
    ..HELD
};

const AS_OPEN: Known = Known {
    lacks: ALL,
    ..AS_HELD
};

static CASES: [Case; 12] = [
    HELD,
    OPEN,
    Case {
        name: "no route matches it",
        has: 0,
        held: &[0],
        wanted: Some(Known {
            preference: (50, 50),
            has: 0,
            ..AS_OPEN
        }),
        ..OPEN
    },
    Case {
        name: "some may be denied",
        permit: false,
        wanted: Some(Known {
            preference: (50, 50),
            ..AS_OPEN
        }),
        sure: false,
        ..OPEN
    },
    Case {
        name: "every route is denied",
        permit: false,
        wanted: None,
        sure: false,
        ..HELD
    },
    Case {
        name: "the prefix is another",
        permit: false,
        ours: false,
        wanted: Some(Known {
            preference: (50, 50),
            ..AS_HELD
        }),
        ..HELD
    },
    Case {
        name: "the community is deleted",
        line: " set comm-list KEPT delete",
        wanted: Some(Known {
            has: 0,
            lacks: ALL,
            ..AS_HELD
        }),
        ..HELD
    },
    Case {
        name: "another is added",
        line: " set community no-advertise additive",
        wanted: Some(Known {
            has: 3,
            lacks: ALL_BUT_BOTH,
            ..AS_HELD
        }),
        ..HELD
    },
    Case {
        name: "another stands in its place",
        line: " set community no-advertise",
        wanted: Some(Known {
            has: 2,
            lacks: ALL_BUT_1,
            ..AS_HELD
        }),
        ..HELD
    },
    Case {
        name: "another may stand in its place",
        line: " set community no-advertise",
        wanted: Some(Known {
            preference: (50, 100),
            has: 3,
            ..AS_OPEN
        }),
        ..OPEN
    },
    Case {
        name: "the router is put in front twice",
        line: " set as-path prepend 65001 65001",
        wanted: Some(Known {
            length: (2, 2),
            may: 1,
            must: 1,
            ..AS_HELD
        }),
        ..HELD
    },
    Case {
        name: "the router may be put in front",
        line: " set as-path prepend 65001 65001",
        wanted: Some(Known {
            preference: (50, 100),
            length: (0, 2),
            may: 1,
            ..AS_OPEN
        }),
        ..OPEN
    },
];

fn range((low, high): (u64, u64)) -> Range {
    Range { low, high }
}

fn wanted_of(case: &Case) -> Row {
    match &case.wanted {
        None => BOTTOM,
        Some(known) => Row {
            preference: range(known.preference),
            length: range(known.length),
            may: Bits64::from_word(known.may),
            must: Bits64::from_word(known.must),
            ..row_of(known.has, known.lacks)
        },
    }
}

fn prefix_of(case: &Case) -> Prefix {
    let address = if case.ours { 0x0A09_0000 } else { 0x0A0A_0000 };
    Prefix::masked(address, 24)
}

#[test]
fn maps_of_what_may_match(rt: HostRuntime) -> Result<(), Fail> {
    let policy = Policy::Map(0);
    for case in &CASES {
        let net = network(rt.alloc(), case.permit, case.line)?;
        let before = row_of(case.has, case.lacks);
        let after = run_map_abs(&net, 0, policy, prefix_of(case), &before);
        holds_at(&rt, case.name, after == wanted_of(case));
        let is_sure = sure(&net, 0, policy, &prefix_of(case), &before);
        holds_at(&rt, case.name, is_sure == case.sure);
    }
    Ok(())
}

// Whether what the map gives of one route fits what it makes of the row: a route has to be in that row, and
// there has to be one where the map surely lets each route through.
fn fits(given: Option<&Route>, after: &Row, is_sure: bool) -> bool {
    match given {
        None => !is_sure,
        Some(route) => is_in(after, route),
    }
}

// Whether each route of the case is in its row, and what the map gives of it fits.
fn all_fit(alloc: Global, case: &Case) -> Result<bool, Fail> {
    let net = network(alloc, case.permit, case.line)?;
    let policy = Policy::Map(0);
    let prefix = prefix_of(case);
    let before = row_of(case.has, case.lacks);
    let after = run_map_abs(&net, 0, policy, prefix, &before);
    let is_sure = sure(&net, 0, policy, &prefix, &before);
    for &held in case.held {
        let route = route_of(alloc, held);
        let given = run_map(alloc, &net, 0, policy, prefix, &route)?;
        if !is_in(&before, &route) || !fits(given.as_ref(), &after, is_sure) {
            return Ok(false);
        }
    }
    Ok(true)
}

#[test]
fn what_maps_give_of_routes_fits_the_rows(rt: HostRuntime) -> Result<(), Fail> {
    for case in &CASES {
        holds_at(&rt, case.name, all_fit(rt.alloc(), case)?);
    }
    Ok(())
}
