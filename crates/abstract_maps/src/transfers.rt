//! What an arc makes of a row: the sender's export, then the receiver's import.

ghost use Rattle.std.specs.Prelude.{◌≡◌, ◌<◌};
ghost use Rattle.abstract_maps.specs.AbstractMap.{IsShort, sure};
ghost use Rattle.abstract_maps.specs.OnTheWay.{HasSmallEnds};
ghost use Rattle.abstract_maps.specs.Transfer.{between, between_free, exported, free, opens, over_link, over_link_free, passes, passes_between, passes_link, received_free, transfer};

use crate::exports::{exported, surely_leaves};
use crate::imports::{imported, received, received_free};
use crate::maps::sure;
use abstract_route::{Row, bottom_value, is_inhabited};
use net_types::{Arc, End, Link, Net, Prefix};

// From one end of a session to the other.
fn between(net: &Net, prefix: &Prefix, from: &End, to: &End, row: &Row) -> Row
    requires sender { from.now.router < 64 }
    requires receiver { to.now.router < 64 }
    requires short { IsShort row.now }
    ensures { result ≡ between net.now prefix.now from.now to.now row.now }
{
    let sent = exported(net, prefix, from, row);
    let begun = received(to.router, &sent);
    imported(net, prefix, to, &begun)
}

// The same without the test whether the receiver is on every path.
fn between_free(net: &Net, prefix: &Prefix, from: &End, to: &End, row: &Row) -> Row
    requires sender { from.now.router < 64 }
    requires receiver { to.now.router < 64 }
    requires short { IsShort row.now }
    ensures { result ≡ between_free net.now prefix.now from.now to.now row.now }
{
    let sent = exported(net, prefix, from, row);
    let begun = received_free(to.router, &sent);
    imported(net, prefix, to, &begun)
}

// Whether the receiver's policy is sure of all that the sender announces.
fn surely_imported(net: &Net, prefix: &Prefix, from: &End, to: &End, row: &Row) -> bool
    requires sender { from.now.router < 64 }
    requires receiver { to.now.router < 64 }
    requires short { IsShort row.now }
    ensures { result ≡ sure net.now to.now.router to.now.import prefix.now (received_free to.now.router (exported net.now prefix.now from.now row.now)) }
{
    let sent = exported(net, prefix, from, row);
    let begun = received_free(to.router, &sent);
    sure(net, to.router, to.import, prefix, &begun)
}

fn passes_between(net: &Net, prefix: &Prefix, from: &End, to: &End, row: &Row) -> bool
    requires sender { from.now.router < 64 }
    requires receiver { to.now.router < 64 }
    requires short { IsShort row.now }
    ensures { result ≡ passes_between net.now prefix.now from.now to.now row.now }
{
    is_inhabited(row)
        && surely_leaves(net, row)
        && sure(net, from.router, from.export, prefix, row)
        && surely_imported(net, prefix, from, to, row)
}

fn over_link(net: &Net, prefix: &Prefix, down: bool, link: &Link, row: &Row) -> Row
    requires ends { HasSmallEnds link.now }
    requires short { IsShort row.now }
    ensures { result ≡ over_link net.now prefix.now down row.now link.now }
{
    if link.session {
        between(net, prefix, link.from_end(down), link.to_end(down), row)
    } else {
        bottom_value()
    }
}

fn over_link_free(net: &Net, prefix: &Prefix, down: bool, link: &Link, row: &Row) -> Row
    requires ends { HasSmallEnds link.now }
    requires short { IsShort row.now }
    ensures { result ≡ over_link_free net.now prefix.now down row.now link.now }
{
    if link.session {
        between_free(net, prefix, link.from_end(down), link.to_end(down), row)
    } else {
        bottom_value()
    }
}

fn passes_link(net: &Net, prefix: &Prefix, down: bool, link: &Link, row: &Row) -> bool
    requires ends { HasSmallEnds link.now }
    requires short { IsShort row.now }
    ensures { result ≡ passes_link net.now prefix.now down row.now link.now }
{
    link.session && passes_between(net, prefix, link.from_end(down), link.to_end(down), row)
}

#[tactic(auto, unfolding(crate::specs::Transfer::transfer))]
fn over_arc(net: &Net, prefix: &Prefix, arc: Arc, row: &Row) -> Row
    requires { IsShort row.now }
    ensures { result ≡ transfer net.now prefix.now arc row.now }
{
    match net.link_of(arc) {
        None => bottom_value(),
        Some(link) => over_link(net, prefix, arc.down, link, row),
    }
}

/// What the arc makes of the row: the row of all that may come over it where the row's routes may be at its
/// sender. No route where the arc is of no session. This project's own, after RFC 4271 and RFC 1997.
pub fn transfer(net: &Net, prefix: Prefix, arc: Arc, row: &Row) -> Row
    requires { IsShort row.now }
    ensures row { result ≡ transfer net.now prefix arc row.now }
    ensures short { IsShort result }
{
    net.valid();
    over_arc(net, &prefix, arc, row)
}

#[tactic(auto, unfolding(crate::specs::Transfer::free))]
fn free(net: &Net, prefix: Prefix, arc: Arc, row: &Row) -> Row
    requires { IsShort row.now }
    ensures { result ≡ free net.now prefix arc row.now }
{
    match net.link_of(arc) {
        None => bottom_value(),
        Some(link) => over_link_free(net, &prefix, arc.down, link, row),
    }
}

/// Whether each route of the row comes over the arc, but for one whose path the receiver is on.
#[tactic(auto, unfolding(crate::specs::Transfer::passes))]
pub fn passes(net: &Net, prefix: Prefix, arc: Arc, row: &Row) -> bool
    requires { IsShort row.now }
    ensures { result ≡ passes net.now prefix arc row.now }
{
    match net.link_of(arc) {
        None => false,
        Some(link) => passes_link(net, &prefix, arc.down, link, row),
    }
}

/// Whether some route of the row might come over the arc, were the receiver on no path. Where it is not so, the
/// transfer is the row of no route, whoever is on the paths.
pub fn is_open(net: &Net, prefix: Prefix, arc: Arc, row: &Row) -> bool
    requires { IsShort row.now }
    ensures { result ≡ opens net.now prefix arc row.now }
{
    let found = free(net, prefix, arc, row);
    is_inhabited(&found)
}
