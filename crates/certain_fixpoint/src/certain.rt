//! The certain routers, by passes over the arcs until one adds nothing.

ghost use Rattle.std.specs.Prelude.{◌≡◌, ◌<◌, ◌≤◌, ◌^◌, ℕ, All, Some, length};
ghost use Rattle.std.specs.Option.{is_some};
ghost use Rattle.net_types.specs.Arcs.{sender_of};
ghost use Rattle.net_types.specs.Distance.{AreDistances, distance_at as distance_in};
ghost use Rattle.net_types.specs.Turns.{set_of};
ghost use Rattle.abstract_maps.specs.AbstractMap.{IsShort};
ghost use Rattle.certain_fixpoint.specs.Certain.{local_at, round_read};
ghost use Rattle.certain_fixpoint.specs.CertainSet.{certain_set};
ghost use Rattle.certain_fixpoint.specs.OnTheWay.{Added, AreSure, Linked, Passed, brings, originating};

use crate::reading::{Reading, row_at};
use abstract_maps::{local_row, passes};
use abstract_route::{Row, is_inhabited};
use net_types::{Arc, Bits64, FailSet, Net, Prefix, distance_at};

// Whether the router originates a route.
#[tactic(auto, using(crate::proofs::PassLemmas::originates_is))]
fn originates(reading: &Reading<'_>, router: u8) -> bool
    requires { router < length reading.now.net.now.routers }
    ensures { result ≡ is_some (local_at (round_read reading.now) router) }
{
    reading.net.valid();
    let distance = distance_at(reading.distances, router);
    is_inhabited(&local_row(reading.net, reading.prefix, router, distance))
}

// The routers that originate a route.
#[tactic(auto, using(crate::proofs::PassLemmas::set_none, crate::proofs::PassLemmas::set_with, crate::proofs::PassLemmas::set_same))]
fn originating(reading: &Reading<'_>) -> Bits64
    ensures set { result ≡ originating (round_read reading.now) }
    ensures sure { AreSure (round_read reading.now) result }
{
    reading.net.valid();
    let mut set = Bits64::EMPTY;
    for router in 0..reading.net.routers().len() {
        if originates(reading, router as u8) {
            set = set.with(router as u8);
        }
    }
    set
}

// Whether the arc is up and passes the row of its sender.
fn brings(reading: &Reading<'_>, arc: Arc, sender: u8) -> bool
    requires short { All IsShort reading.now.rows.now }
    requires sender { sender_of reading.now.net.now arc ≡ Some sender }
    ensures { result ≡ brings (round_read reading.now) arc }
{
    let row = row_at(reading.rows, sender);
    reading.net.is_up(reading.failed, arc) && passes(reading.net, reading.prefix, arc, &row)
}

// The set with the receiver of the arc, where the sender is in it and the arc passes its row.
fn add(reading: &Reading<'_>, set: Bits64, arc: Arc) -> Bits64
    requires short { All IsShort reading.now.rows.now }
    ensures { Added (round_read reading.now) arc set result }
{
    let (Some(sender), Some(receiver)) = (reading.net.sender_of(arc), reading.net.receiver_of(arc))
    else {
        return set;
    };
    if set.has(sender) && !set.has(receiver) && brings(reading, arc, sender) {
        set.with(receiver)
    } else {
        set
    }
}

// The set with what the arcs of a link add to it.
fn add_link(reading: &Reading<'_>, set: Bits64, link: u8) -> Bits64
    requires short { All IsShort reading.now.rows.now }
    ensures { Linked (round_read reading.now) link set result }
{
    reading.net.valid();
    let (up, down) = Arc::both(link);
    let more = add(reading, set, up);
    add(reading, more, down)
}

// The set with what the arcs of all links add to it, each once.
#[tactic(auto, using(crate::proofs::PassLemmas::passed_none, crate::proofs::PassLemmas::passed_more))]
fn pass(reading: &Reading<'_>, set: Bits64) -> Bits64
    requires short { All IsShort reading.now.rows.now }
    requires sure { AreSure (round_read reading.now) set }
    ensures { Passed (round_read reading.now) (length reading.now.net.now.links) set result }
{
    reading.net.valid();
    let mut grown = set;
    for link in 0..reading.net.links().len() {
        grown = add_link(reading, grown, link as u8);
    }
    grown
}

// Passes until one adds nothing.
fn settle(reading: &Reading<'_>, start: Bits64) -> Bits64
    requires short { All IsShort reading.now.rows.now }
    requires sure { AreSure (round_read reading.now) start }
    ensures { result ≡ certain_set (round_read reading.now) }
{
    reading.net.valid();
    let mut set = start;
    let mut next = pass(reading, set);
    while next != set {
        set = next;
        next = pass(reading, set);
    }
    set.fits();
    set
}

/// The routers that surely hold a route for the prefix, with these links failed, at these distances and these
/// rows of what is possible: the least set that has each router that originates a route and, with a router,
/// each one that an arc leads to which is up and passes the router's row. It takes no memory. This project's own.
pub fn solve_certain(
    net: &Net,
    prefix: Prefix,
    failed: FailSet,
    rows: &[Row],
    distances: &[Option<u64>],
) -> Bits64
    requires short { All IsShort rows.now }
    ensures { result ≡ certain_set (record { net = net.now; prefix = prefix; failed = failed; distances = distances.now; rows = rows.now }) }
{
    let reading = Reading {
        net,
        prefix,
        failed: &failed,
        distances,
        rows,
    };
    net.valid();
    let start = originating(&reading);
    settle(&reading, start)
}
