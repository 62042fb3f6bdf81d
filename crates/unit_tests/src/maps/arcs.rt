//! What arcs of many policies make of rows, worked out by hand.

ghost use Rattle.abstract_maps.specs.AbstractMap.{IsShort};

use super::three_routers::{
    ADDED_AND_ASKED, ADDED_AND_DENIED, ASKED, EITHER, KEPT_IN, LET_OUT, LONGER, NOT_BOTH, OF_MED_7,
    PLAIN, RAISED, SILENT, STAMPED_OUT, network,
};
use crate::asserting::holds_at;
use abstract_maps::{is_open, passes, transfer};
use abstract_route::{BOTTOM, Range, Row};
use net_types::{Arc, Bits64, Net, Prefix};
use std::test::Fail;

/// A row: the ends of five ranges, and four sets as words.
pub(super) struct Known {
    pub(super) weight: (u64, u64),
    pub(super) preference: (u64, u64),
    pub(super) length: (u32, u32),
    pub(super) origin: (u64, u64),
    pub(super) med: (u64, u64),
    pub(super) has: u64,
    pub(super) lacks: u64,
    pub(super) may: u64,
    pub(super) must: u64,
}

fn range((low, high): (u64, u64)) -> Range {
    Range { low, high }
}

fn row_of(known: &Known) -> Row
    ensures { IsShort result }
{
    let (low, high) = known.length;
    Row {
        weight: range(known.weight),
        preference: range(known.preference),
        length: Range {
            low: u64::from(low),
            high: u64::from(high),
        },
        origin: range(known.origin),
        med: range(known.med),
        has: Bits64::from_word(known.has),
        lacks: Bits64::from_word(known.lacks),
        may: Bits64::from_word(known.may),
        must: Bits64::from_word(known.must),
    }
}

/// A row, and what an arc makes of it.
pub(super) struct Case {
    pub(super) name: &'static str,
    pub(super) link: u8,
    pub(super) down: bool,
    pub(super) row: Known,
    pub(super) wanted: Option<Known>,
    pub(super) open: bool,
    pub(super) passes: bool,
}

// All numbers of a set, and all but one.
const ALL: u64 = u64::MAX;

const ALL_BUT_0: u64 = ALL - 1;

const ALL_BUT_1: u64 = ALL - 2;

pub(super) const ALL_BUT_2: u64 = ALL - 4;

const ALL_BUT_3: u64 = ALL - 8;

/// Learned routes at router a, with router d on their paths.
pub(super) const LEARNED: Known = Known {
    weight: (0, 0),
    preference: (100, 200),
    length: (1, 2),
    origin: (0, 2),
    med: (0, 0),
    has: 0,
    lacks: ALL,
    may: 4,
    must: 4,
};

// What an arc from a to b makes of them, if no policy changes them.
const CARRIED: Known = Known {
    preference: (100, 100),
    length: (2, 3),
    may: 5,
    must: 5,
    ..LEARNED
};

pub(super) const PASSED: Case = Case {
    name: "open policies",
    link: PLAIN,
    down: false,
    row: LEARNED,
    wanted: Some(CARRIED),
    open: true,
    passes: true,
};

/// What may stay home: the masks stay as they are, and the arc is open, but it does not surely pass.
pub(super) const MAYBE: Case = Case {
    passes: false,
    ..PASSED
};

const NOTHING: Case = Case {
    wanted: None,
    open: false,
    ..MAYBE
};

static POLICIES: [Case; 18] = [
    PASSED,
    Case {
        name: "no session",
        link: SILENT,
        ..NOTHING
    },
    Case {
        name: "NO_EXPORT may be held",
        row: Known { has: 4, ..LEARNED },
        wanted: Some(Known { has: 4, ..CARRIED }),
        ..MAYBE
    },
    Case {
        name: "NO_ADVERTISE may be held",
        row: Known { has: 8, ..LEARNED },
        wanted: Some(Known { has: 8, ..CARRIED }),
        ..MAYBE
    },
    Case {
        name: "NO_ADVERTISE is held",
        row: Known {
            has: 8,
            lacks: ALL_BUT_3,
            ..LEARNED
        },
        ..NOTHING
    },
    Case {
        name: "a permit that may match leaves the masks as they are",
        link: LET_OUT,
        row: Known { has: 1, ..LEARNED },
        wanted: Some(Known { has: 1, ..CARRIED }),
        ..MAYBE
    },
    Case {
        name: "a deny may match",
        link: KEPT_IN,
        row: Known { has: 1, ..LEARNED },
        wanted: Some(Known { has: 1, ..CARRIED }),
        ..MAYBE
    },
    Case {
        name: "the export adds what the import denies",
        link: ADDED_AND_DENIED,
        ..NOTHING
    },
    Case {
        name: "the export adds what the import asks for",
        link: ADDED_AND_ASKED,
        wanted: Some(Known {
            has: 1,
            lacks: ALL_BUT_0,
            ..CARRIED
        }),
        ..PASSED
    },
    Case {
        name: "the export adds NO_EXPORT, which the next export asks for",
        link: STAMPED_OUT,
        wanted: Some(Known {
            has: 4,
            lacks: ALL_BUT_2,
            ..CARRIED
        }),
        ..PASSED
    },
    Case {
        name: "the first entry that matches decides a list",
        link: RAISED,
        row: Known {
            has: 1,
            lacks: ALL_BUT_0,
            ..LEARNED
        },
        wanted: Some(Known {
            has: 1,
            lacks: ALL_BUT_0,
            ..CARRIED
        }),
        ..PASSED
    },
    Case {
        name: "the receiver leaves the routers that may be on paths",
        row: Known { may: 6, ..LEARNED },
        ..PASSED
    },
    Case {
        name: "the receiver is on every path",
        link: ASKED,
        row: Known {
            length: (2, 2),
            has: 1,
            lacks: ALL_BUT_0,
            may: 6,
            must: 6,
            ..LEARNED
        },
        wanted: None,
        ..PASSED
    },
    Case {
        name: "the cut comes behind the import",
        link: LONGER,
        row: Known {
            length: (62, 70),
            ..LEARNED
        },
        wanted: Some(Known {
            length: (63, 63),
            may: 7,
            must: 7,
            ..CARRIED
        }),
        ..PASSED
    },
    Case {
        name: "one of two communities cannot be held",
        link: NOT_BOTH,
        row: Known { has: 1, ..LEARNED },
        wanted: Some(Known { has: 1, ..CARRIED }),
        ..PASSED
    },
    Case {
        name: "an entry that may match stands before one that does",
        link: EITHER,
        row: Known {
            has: 3,
            lacks: ALL_BUT_1,
            ..LEARNED
        },
        wanted: Some(Known {
            has: 3,
            lacks: ALL_BUT_1,
            ..CARRIED
        }),
        ..PASSED
    },
    Case {
        name: "a MED that the import sets is announced no further, but it is compared",
        link: OF_MED_7,
        wanted: Some(Known {
            med: (7, 7),
            ..CARRIED
        }),
        ..PASSED
    },
    Case {
        name: "what no route can hold or lack is not mended by the export",
        link: ADDED_AND_ASKED,
        row: Known {
            lacks: ALL_BUT_0,
            ..LEARNED
        },
        ..NOTHING
    },
];

/// Whether the arc makes of the row what is wanted.
pub(super) fn is_as_wanted(net: &Net, case: &Case) -> bool {
    let prefix = Prefix::masked(0x0A09_0000, 24);
    let arc = Arc {
        link: case.link,
        down: case.down,
    };
    let row = row_of(&case.row);
    let wanted = match &case.wanted {
        None => BOTTOM,
        Some(known) => row_of(known),
    };
    transfer(net, prefix, arc, &row) == wanted
        && is_open(net, prefix, arc, &row) == case.open
        && passes(net, prefix, arc, &row) == case.passes
}

#[test]
fn arcs_of_many_policies(rt: HostRuntime) -> Result<(), Fail> {
    let net = network(rt.alloc())?;
    for case in &POLICIES {
        holds_at(&rt, case.name, is_as_wanted(&net, case));
    }
    Ok(())
}
