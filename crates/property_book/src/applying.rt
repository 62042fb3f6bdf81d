//! Whether a property applies to a network.

ghost use Rattle.std.specs.Prelude.{◌≡◌};
ghost use Rattle.property_book.specs.Applicable.{bar_by_prefix, barred, has_router, has_routers_of, is_other_overlap, is_owned_in, overlaps_link_in, overlaps_owned, overlaps_owned_in};

use crate::property::{Kind, Property};
use crate::verdict::Barred;
use net_types::{Net, Owned, Prefix, Router, Text, is_owned};

fn has_router(net: &Net, host: &Text) -> bool
    ensures { result ≡ has_router net.now host.now }
{
    net.router_number(host.as_bytes()).is_some()
}

fn has_routers_of(net: &Net, kind: &Kind) -> bool
    ensures { result ≡ has_routers_of net.now kind.now }
{
    match kind {
        Kind::Waypoint(via) => has_router(net, via),
        _ => true,
    }
}

fn is_owned_in(net: &Net, prefix: &Prefix) -> bool
    ensures { result ≡ is_owned_in net.now prefix.now }
{
    net.routers()
        .iter()
        .any(|router| is_owned(router.owned.as_slice(), prefix))
}

fn is_other_overlap(prefix: &Prefix, entry: &Owned) -> bool
    ensures { result ≡ is_other_overlap prefix.now entry.now }
{
    entry.prefix.overlaps(prefix) && !entry.prefix.is_same(prefix)
}

fn overlaps_owned(prefix: &Prefix, router: &Router) -> bool
    ensures { result ≡ overlaps_owned prefix.now router.now }
{
    router
        .owned
        .as_slice()
        .iter()
        .any(|entry| is_other_overlap(prefix, entry))
}

fn overlaps_owned_in(net: &Net, prefix: &Prefix) -> bool
    ensures { result ≡ overlaps_owned_in net.now prefix.now }
{
    net.routers()
        .iter()
        .any(|router| overlaps_owned(prefix, router))
}

fn overlaps_link_in(net: &Net, prefix: &Prefix) -> bool
    ensures { result ≡ overlaps_link_in net.now prefix.now }
{
    net.links().iter().any(|link| link.subnet.overlaps(prefix))
}

fn bar_by_prefix(net: &Net, prefix: &Prefix) -> Option<Barred>
    ensures { result ≡ bar_by_prefix net.now prefix.now }
{
    if !is_owned_in(net, prefix) {
        return Some(Barred::NotOwned);
    }
    if overlaps_owned_in(net, prefix) || overlaps_link_in(net, prefix) {
        return Some(Barred::Overlaps);
    }
    None
}

/// Why a property does not apply to the network, the first that stands: a router that it names is not
/// there, no router owns its prefix, or its prefix overlaps another owned prefix or a link's subnet.
/// None where it applies.
#[tactic(auto, unfolding(crate::specs::Applicable::barred))]
pub fn applicable(net: &Net, property: &Property) -> Option<Barred>
    ensures { result ≡ barred net.now property.now }
{
    if !has_router(net, &property.router) || !has_routers_of(net, &property.kind) {
        return Some(Barred::UnknownRouter);
    }
    bar_by_prefix(net, &property.prefix)
}
