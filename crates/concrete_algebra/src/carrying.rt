//! What the arcs of sessions carry.

ghost use Rattle.std.specs.Prelude.{◌≡◌, IfOk};
ghost use Rattle.net_types.specs.Routes.{is_on};
ghost use Rattle.concrete_algebra.specs.Carrying.{carry_gives, end_sends, end_takes, export_gives, holds_value, import_gives, is_kept_home, sent_by};

use crate::maps::run_map;
use crate::paths::prepended;
use net_types::{Arc, Bits64, Link, NO_ADVERTISE, NO_EXPORT, Net, NoMemory, Prefix, Route, Source};
use std::alloc::Global;

/// Whether the community of this value is among those held; not so where the network has no such community.
pub fn holds_value(net: &Net, value: u32, held: Bits64) -> bool
    ensures { result ≡ holds_value net.now value held }
{
    match net.community_number(value) {
        Some(number) => held.has(number),
        None => false,
    }
}

/// Whether a route with these communities is sent to no neighbor: it holds NO_EXPORT or NO_ADVERTISE (RFC 1997).
pub fn is_kept_home(net: &Net, held: Bits64) -> bool
    ensures { result ≡ is_kept_home net.now held }
{
    holds_value(net, NO_EXPORT, held) || holds_value(net, NO_ADVERTISE, held)
}

// The route with the sender in front of its path.
fn sent_by(alloc: Global, sender: u8, route: Route) -> Result<Route, NoMemory>
    ensures { IfOk result (λ sent. sent ≡ sent_by sender route) }
{
    let path = prepended(alloc, sender, 1, route.path.as_slice())?;
    Ok(Route { path, ..route })
}

// What the beginning of a link's direction sends of a route.
fn end_sends(
    alloc: Global,
    net: &Net,
    prefix: Prefix,
    down: bool,
    link: &Link,
    route: &Route,
) -> Result<Option<Route>, NoMemory>
    ensures { IfOk result (λ sent. sent ≡ end_sends net.now prefix down link.now route.now) }
{
    if is_kept_home(net, route.communities) {
        return Ok(None);
    }
    let end = link.from_end(down);
    let mut own = route.copy(alloc)?;
    own.med = route.source.sent_med(route.med);
    match run_map(alloc, net, end.router, end.export, prefix, &own)? {
        None => Ok(None),
        Some(given) => Ok(Some(sent_by(alloc, end.router, given)?)),
    }
}

// Whether the router is on the path.
fn is_on(router: u8, path: &[u8]) -> bool
    ensures { result ≡ is_on router path.now }
{
    path.iter().any(|hop| router == *hop)
}

// What the end of a link's direction takes in of a route that was sent.
fn end_takes(
    alloc: Global,
    net: &Net,
    prefix: Prefix,
    arc: Arc,
    link: &Link,
    route: &Route,
) -> Result<Option<Route>, NoMemory>
    ensures { IfOk result (λ taken. taken ≡ end_takes net.now prefix arc link.now route.now) }
{
    let end = link.to_end(arc.down);
    if is_on(end.router, route.path.as_slice()) {
        return Ok(None);
    }
    let mut received = route.copy(alloc)?;
    received.weight = 0;
    received.preference = 100;
    match run_map(alloc, net, end.router, end.import, prefix, &received)? {
        None => Ok(None),
        Some(given) => Ok(Some(Route {
            source: Source::Learned(arc),
            ..given
        })),
    }
}

/// What the sender of an arc sends of its route: nothing where the route holds NO_EXPORT or NO_ADVERTISE
/// (RFC 1997); else, with MED 0 where it is learned, what the export side gives, with the sender in front of
/// the path once more (RFC 4271, section 5.1.2). The arc is of a session; where there is no such link,
/// nothing is sent.
///
/// # Errors
///
/// [`NoMemory`] where there was none for the route.
#[tactic(auto, unfolding(crate::specs::Carrying::export_gives))]
pub fn export(
    alloc: Global,
    net: &Net,
    prefix: Prefix,
    arc: Arc,
    route: &Route,
) -> Result<Option<Route>, NoMemory>
    ensures { IfOk result (λ sent. sent ≡ export_gives net.now prefix arc route.now) }
{
    match net.link_of(arc) {
        None => Ok(None),
        Some(link) => end_sends(alloc, net, prefix, arc.down, link, route),
    }
}

/// What the receiver of an arc takes in of a route that was sent: nothing where the receiver is on the path
/// (RFC 4271, section 9.1.2); else, with weight 0 and local preference 100, what the import side gives, with
/// the arc as its source. The arc is of a session; where there is no such link, nothing is taken in.
///
/// # Errors
///
/// [`NoMemory`] where there was none for the route.
#[tactic(auto, unfolding(crate::specs::Carrying::import_gives))]
pub fn import(
    alloc: Global,
    net: &Net,
    prefix: Prefix,
    arc: Arc,
    route: &Route,
) -> Result<Option<Route>, NoMemory>
    ensures { IfOk result (λ taken. taken ≡ import_gives net.now prefix arc route.now) }
{
    match net.link_of(arc) {
        None => Ok(None),
        Some(link) => end_takes(alloc, net, prefix, arc, link, route),
    }
}

/// What an arc carries of its sender's route: the import of its export.
pub(crate) fn carry(
    alloc: Global,
    net: &Net,
    prefix: Prefix,
    arc: Arc,
    route: &Route,
) -> Result<Option<Route>, NoMemory>
    ensures { IfOk result (λ carried. carried ≡ carry_gives net.now prefix arc route.now) }
{
    match export(alloc, net, prefix, arc, route)? {
        None => Ok(None),
        Some(sent) => import(alloc, net, prefix, arc, &sent),
    }
}
