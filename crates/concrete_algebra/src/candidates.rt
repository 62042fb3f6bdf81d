//! The candidates of a router under a labelling.

ghost use Rattle.std.specs.Prelude.{◌≡◌, ◌<◌, ◌^◌, ℕ, IfOk, Some, length};
ghost use Rattle.std.specs.Option.{option_copied};
ghost use Rattle.net_types.specs.Distance.{distance_at};
ghost use Rattle.concrete_algebra.specs.Findings.{arrival, carried_label, is_into, local_candidate};
ghost use Rattle.concrete_algebra.specs.Stability.{is_learned, label_at};

use crate::asked::Asked;
use crate::carrying::carry;
use crate::local_routes::local_route;
use net_types::{Arc, FailSet, Net, NoMemory, Route, Source, distance_at, same_router};
use std::alloc::Global;

/// The label of a router, where it has one.
pub(crate) fn label_at(labels: &[Option<Route>], router: u8) -> Option<&Route>
    ensures { option_copied result ≡ label_at labels.now router }
{
    labels.get(usize::from(router))?.as_ref()
}

// Whether the label is a learned route.
fn is_learned(label: Option<&Route>) -> bool
    ensures { result ≡ is_learned (option_copied label.entry) }
{
    match label {
        None => false,
        Some(route) => match route.source {
            Source::Local => false,
            Source::Learned(_) => true,
        },
    }
}

// Whether the arc is up, and goes to the router.
fn is_into(net: &Net, failed: &FailSet, arc: Arc, router: u8) -> bool
    ensures { result ≡ is_into net.now failed.now arc router }
{
    net.is_up(failed, arc) && same_router(net.receiver_of(arc), Some(router))
}

// What the arc carries of its sender's label.
fn carried_label(
    alloc: Global,
    asked: &Asked<'_>,
    arc: Arc,
    labels: &[Option<Route>],
    sender: Option<u8>,
) -> Result<Option<Route>, NoMemory>
    ensures { IfOk result (λ carried. carried ≡ carried_label asked.now.net.now asked.now.prefix arc labels.now sender) }
{
    let Some(sender) = sender else {
        return Ok(None);
    };
    match label_at(labels, sender) {
        None => Ok(None),
        Some(sent) => carry(alloc, asked.net, asked.prefix, arc, sent),
    }
}

/// The candidate of a router that comes over the arc, where one does.
#[tactic(auto, unfolding(crate::specs::Findings::arrival))]
pub(crate) fn arrival(
    alloc: Global,
    asked: &Asked<'_>,
    labels: &[Option<Route>],
    router: u8,
    arc: Arc,
) -> Result<Option<Route>, NoMemory>
    ensures { IfOk result (λ candidate. candidate ≡ arrival asked.now.net.now asked.now.prefix asked.now.failed.now labels.now router arc) }
{
    if !is_into(asked.net, asked.failed, arc, router) {
        return Ok(None);
    }
    carried_label(alloc, asked, arc, labels, asked.net.sender_of(arc))
}

/// The candidate of a router that is its local route, where that is one.
#[tactic(auto, unfolding(crate::specs::Findings::local_candidate))]
pub(crate) fn local_candidate(
    alloc: Global,
    asked: &Asked<'_>,
    labels: &[Option<Route>],
    router: u8,
) -> Result<Option<Route>, NoMemory>
    requires router { router < length asked.now.net.now.routers }
    requires small { (u distance : ℕ) → distance_at asked.now.distances.now u ≡ Some distance → distance < 2 ^ 32 }
    ensures { IfOk result (λ candidate. candidate ≡ local_candidate asked.now.net.now asked.now.prefix asked.now.distances.now labels.now router) }
{
    if !asked.net.owns(router, &asked.prefix) && is_learned(label_at(labels, router)) {
        return Ok(None);
    }
    let distance = distance_at(asked.distances, router);
    local_route(alloc, asked.net, asked.prefix, router, distance)
}
