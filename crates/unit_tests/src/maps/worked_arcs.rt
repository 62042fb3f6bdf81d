//! What the arcs of three small networks make of rows, worked out by hand.

use super::arcs::{ALL_BUT_2, Case, Known, LEARNED, MAYBE, PASSED, is_as_wanted};
use super::three_routers::{A_AND_D, B_AND_D, STAMPED, network};
use crate::asserting::holds_at;
use std::test::Fail;

// What a router originates.
const ORIGINATED: Known = Known {
    weight: (32768, 32768),
    preference: (100, 100),
    length: (0, 0),
    origin: (0, 0),
    may: 0,
    must: 0,
    ..LEARNED
};

// What comes of it to the next router, from router b.
const FROM_B: Known = Known {
    weight: (0, 0),
    length: (1, 1),
    may: 2,
    must: 2,
    ..ORIGINATED
};

// Routes of all weights, lengths and origins, as where a router may also originate.
const WIDE: Known = Known {
    weight: (0, 32768),
    preference: (100, 100),
    length: (0, 63),
    may: 6,
    must: 0,
    ..LEARNED
};

// What comes of such to the next router.
const WIDE_CARRIED: Known = Known {
    weight: (0, 0),
    length: (1, 63),
    may: 3,
    must: 1,
    ..WIDE
};

// The arcs of three networks: of one session, over which an OSPF route with MED 20 comes back; of two sessions between
// routers a and b, one of which is stamped with NO_EXPORT; and of routers a and b that may both originate, with d
// between them.
static WORKED: [Case; 12] = [
    Case {
        name: "from the router that redistributes",
        link: A_AND_D,
        down: true,
        row: Known {
            origin: (2, 2),
            med: (20, 20),
            ..ORIGINATED
        },
        wanted: Some(Known {
            origin: (2, 2),
            med: (20, 20),
            may: 4,
            must: 4,
            ..FROM_B
        }),
        ..PASSED
    },
    Case {
        name: "and back",
        link: A_AND_D,
        row: Known {
            origin: (2, 2),
            may: 4,
            must: 4,
            ..FROM_B
        },
        wanted: None,
        ..PASSED
    },
    Case {
        name: "over the stamped session",
        link: STAMPED,
        down: true,
        row: ORIGINATED,
        wanted: Some(Known {
            has: 4,
            lacks: ALL_BUT_2,
            ..FROM_B
        }),
        ..PASSED
    },
    Case {
        name: "over the other",
        down: true,
        row: ORIGINATED,
        wanted: Some(FROM_B),
        ..PASSED
    },
    Case {
        name: "onward from both",
        link: A_AND_D,
        row: Known { has: 4, ..FROM_B },
        wanted: Some(Known {
            length: (2, 2),
            has: 4,
            may: 3,
            must: 3,
            ..FROM_B
        }),
        ..MAYBE
    },
    Case {
        name: "back over the other",
        row: Known { has: 4, ..FROM_B },
        wanted: None,
        ..MAYBE
    },
    Case {
        name: "back from onward",
        link: A_AND_D,
        down: true,
        row: Known {
            length: (2, 2),
            has: 4,
            may: 3,
            must: 3,
            ..FROM_B
        },
        wanted: None,
        ..MAYBE
    },
    Case {
        name: "from an owner that may learn",
        link: A_AND_D,
        row: WIDE,
        wanted: Some(WIDE_CARRIED),
        ..PASSED
    },
    Case {
        name: "from the owner alone",
        link: A_AND_D,
        row: ORIGINATED,
        wanted: Some(Known {
            may: 1,
            must: 1,
            ..FROM_B
        }),
        ..PASSED
    },
    Case {
        name: "to the owner",
        link: A_AND_D,
        down: true,
        row: Known {
            length: (1, 63),
            may: 3,
            must: 0,
            ..LEARNED_100
        },
        wanted: Some(Known {
            length: (2, 63),
            may: 6,
            must: 4,
            ..LEARNED_100
        }),
        ..PASSED
    },
    Case {
        name: "from a router that redistributes and may learn",
        link: B_AND_D,
        row: Known {
            med: (0, 10),
            may: 5,
            ..WIDE
        },
        wanted: Some(Known {
            med: (0, 10),
            must: 2,
            ..WIDE_CARRIED
        }),
        ..PASSED
    },
    Case {
        name: "to that router",
        link: B_AND_D,
        down: true,
        row: Known {
            length: (1, 63),
            may: 3,
            must: 0,
            ..LEARNED_100
        },
        wanted: Some(Known {
            length: (2, 63),
            may: 5,
            must: 4,
            ..LEARNED_100
        }),
        ..PASSED
    },
];

// Learned routes at preference 100.
const LEARNED_100: Known = Known {
    preference: (100, 100),
    ..LEARNED
};

#[test]
fn arcs_of_worked_networks(rt: HostRuntime) -> Result<(), Fail> {
    let net = network(rt.alloc())?;
    for case in &WORKED {
        holds_at(&rt, case.name, is_as_wanted(&net, case));
    }
    Ok(())
}
