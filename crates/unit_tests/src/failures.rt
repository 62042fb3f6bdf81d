//! Walks through all sets of few links, and numbers of sets of many links.

ghost use Rattle.std.specs.Prelude.{◌≤◌, IfSome};
ghost use Rattle.failure_sets.specs.SetOrder.{IsPermitted};

use crate::asserting::{holds, holds_at};
use failure_sets::{count, first, next, place};
use net_types::FailSet;
use std::process::Abort;

// The sets of at most three links below 6, in order. Those of fewer links, and those below a lower number,
// are in the same order among them.
const SETS: [&[u8]; 42] = [
    &[],
    &[0],
    &[1],
    &[2],
    &[3],
    &[4],
    &[5],
    &[0, 1],
    &[0, 2],
    &[0, 3],
    &[0, 4],
    &[0, 5],
    &[1, 2],
    &[1, 3],
    &[1, 4],
    &[1, 5],
    &[2, 3],
    &[2, 4],
    &[2, 5],
    &[3, 4],
    &[3, 5],
    &[4, 5],
    &[0, 1, 2],
    &[0, 1, 3],
    &[0, 1, 4],
    &[0, 1, 5],
    &[0, 2, 3],
    &[0, 2, 4],
    &[0, 2, 5],
    &[0, 3, 4],
    &[0, 3, 5],
    &[0, 4, 5],
    &[1, 2, 3],
    &[1, 2, 4],
    &[1, 2, 5],
    &[1, 3, 4],
    &[1, 3, 5],
    &[1, 4, 5],
    &[2, 3, 4],
    &[2, 3, 5],
    &[2, 4, 5],
    &[3, 4, 5],
];

// Whether the set is one of at most `most` links below `links`.
fn stands(set: &[u8], links: u8, most: u8) -> bool {
    set.len() <= usize::from(most) && set.iter().all(|link| *link < links)
}

// The walk goes through the sets of the list, one after the other.
fn walk(rt: &impl Abort, links: u8, most: u8)
    requires links { links ≤ 64 }
    requires most { most ≤ 3 }
{
    let mut left = Some(first());
    let mut passed: u64 = 0;
    for wanted in SETS {
        if stands(wanted, links, most) {
            let set = left.expect(rt, "a set is left");
            holds(rt, set.as_slice() == wanted);
            holds(rt, place(links, set) == passed);
            left = next(links, most, set);
            passed += 1;
        }
    }
    holds(rt, left.is_none());
    holds(rt, count(links, most) == passed);
}

#[test]
fn walks(rt: HostRuntime) {
    for links in 0..7 {
        for most in 0..4 {
            walk(&rt, links, most);
        }
    }
}

#[test]
fn counts(rt: HostRuntime) {
    let cases = [
        ("no link may fail", (64, 0), 1),
        ("one", (64, 1), 65),
        ("two", (64, 2), 2_081),
        ("three", (64, 3), 43_745),
        ("three of two links", (2, 3), 4),
        ("of no links", (0, 3), 1),
    ];
    for (name, (links, most), wanted) in cases {
        holds(&rt, links <= 64 && most <= 3);
        holds_at(&rt, name, count(links, most) == wanted);
    }
}

// The set of these links, where they are at most three in ascending order, each below `links`.
fn set_of(set: &[u8], links: u8) -> Option<FailSet>
    ensures { IfSome result (λ set. IsPermitted links 3 set) }
{
    if set.iter().all(|link| *link < links) {
        FailSet::of(set)
    } else {
        None
    }
}

// Sets of few of 64 links, with the place of each and the set behind it; the walks end before these.
const FAR_SETS: [(&[u8], u64, Option<&[u8]>); 7] = [
    (&[63], 64, Some(&[0, 1])),
    (&[0, 1], 65, Some(&[0, 2])),
    (&[62, 63], 2_080, Some(&[0, 1, 2])),
    (&[0, 1, 2], 2_081, Some(&[0, 1, 3])),
    (&[0, 1, 63], 2_142, Some(&[0, 2, 3])),
    (&[0, 62, 63], 4_033, Some(&[1, 2, 3])),
    (&[61, 62, 63], 43_744, None),
];

#[test]
fn far_sets(rt: HostRuntime) {
    for (links, wanted, behind) in FAR_SETS {
        let set = set_of(links, 64).expect(&rt, "three ascending links below 64");
        holds(&rt, place(64, set) == wanted);
        let found = next(64, 3, set);
        holds(&rt, found.as_ref().map(|next| next.as_slice()) == behind);
    }
}
