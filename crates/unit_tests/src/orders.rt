//! Which of two routes is better, on every pair of twelve.

use crate::asserting::holds;
use crate::networks::network_of;
use concrete_algebra::better;
use net_types::{Arc, Bits64, List, Net, NoMemory, Origin, Route, Source};
use std::alloc::Global;
use std::test::Fail;

// Routers a, b and c, and a link between each two: 0 between a and b, 1 between a and c, 2 between b and c.
const A: &str =
    "hostname a\ninterface e0\n ip address 10.0.0.1/24\ninterface e1\n ip address 10.0.1.1/24\n";

const B: &str =
    "hostname b\ninterface e0\n ip address 10.0.0.2/24\ninterface e2\n ip address 10.0.2.2/24\n";

const C: &str =
    "hostname c\ninterface e1\n ip address 10.0.1.3/24\ninterface e2\n ip address 10.0.2.3/24\n";

// Weight, local preference, path, origin, MED, and the arc that the route comes over, if it is learned.
type Plain = (u32, u32, &'static [u8], Origin, u32, Option<(u8, bool)>);

const UP_0: Option<(u8, bool)> = Some((0, false));

const UP_1: Option<(u8, bool)> = Some((1, false));

const UP_2: Option<(u8, bool)> = Some((2, false));

const DOWN_2: Option<(u8, bool)> = Some((2, true));

const UP_7: Option<(u8, bool)> = Some((7, false));

// Over links 0 and 1 routes come from a, over link 2 from b upward and from c downward.
static ROUTES: [Plain; 12] = [
    (32768, 100, &[], Origin::Igp, 0, None),
    (32768, 100, &[], Origin::Incomplete, 0, None),
    (0, 100, &[0], Origin::Igp, 5, UP_0),
    (0, 100, &[0], Origin::Igp, 9, UP_1),
    (0, 100, &[0], Origin::Igp, 7, UP_2),
    (0, 100, &[2, 0], Origin::Igp, 0, DOWN_2),
    (0, 100, &[0], Origin::Egp, 0, UP_0),
    (0, 100, &[0], Origin::Incomplete, 0, UP_0),
    (0, 200, &[2, 1, 0], Origin::Incomplete, 50, UP_0),
    (0, 100, &[1, 1, 1], Origin::Incomplete, 50, None),
    (10, 0, &[0, 0, 0, 0, 0], Origin::Incomplete, 99, UP_0),
    (0, 100, &[0], Origin::Igp, 1, UP_7),
];

// A row for each route: where it is better than the route of the column.
static BETTER: [&str; 12] = [
    ".11111111111",
    "..1111111111",
    "...1.111....",
    ".....111....",
    ".....111....",
    "............",
    ".....1.1....",
    ".....1......",
    "..111111.1.1",
    "..111111...1",
    "..11111111.1",
    ".....111....",
];

fn route_of(alloc: Global, plain: &Plain) -> Result<Route, NoMemory> {
    let (weight, preference, path, origin, med, over) = *plain;
    Ok(Route {
        weight,
        preference,
        path: List::from_slice(alloc, path)?,
        origin,
        med,
        communities: Bits64::EMPTY,
        source: match over {
            None => Source::Local,
            Some((link, down)) => Source::Learned(Arc { link, down }),
        },
    })
}

fn routes(alloc: Global) -> Result<Vec<Route>, NoMemory> {
    let mut routes = Vec::new(alloc);
    for plain in &ROUTES {
        routes.push(route_of(alloc, plain)?)?;
    }
    Ok(routes)
}

// Where the route is better than the others.
fn row(alloc: Global, net: &Net, route: &Route, others: &[Route]) -> Result<Vec<u8>, NoMemory> {
    let mut row = Vec::new(alloc);
    for other in others {
        row.push(if better(net, route, other) {
            b'1'
        } else {
            b'.'
        })?;
    }
    Ok(row)
}

#[test]
fn every_pair_of_twelve(rt: HostRuntime) -> Result<(), Fail> {
    let alloc = rt.alloc();
    let net = network_of(alloc, &[A, B, C], 3)?;
    let routes = routes(alloc)?;
    for (route, wanted) in routes.iter().zip(BETTER.iter()) {
        let row = row(alloc, &net, route, &routes)?;
        holds(&rt, row.as_slice() == wanted.as_bytes());
    }
    Ok(())
}
