//! Tight arcs, and those to next hops.

ghost use Rattle.std.specs.Prelude.{◌≡◌, ◌+◌, ◌↔◌, ℕ, IsTrue, Some};
ghost use Rattle.net_types.specs.Distance.{distance_at, IsNextHop};
ghost use Rattle.ospf_paths.specs.Laws.{IsTightArc};

use crate::crossings::{Crossing, crossing_of};
use net_types::{Arc, FailSet, Net, Prefix, distance_at};

// Whether the distance of the router that the crossing begins at is its cost and the other's together.
fn is_least(distances: &[Option<u64>], crossing: &Crossing) -> bool
    ensures { IsTrue result ↔ ((far : ℕ) × (distance_at distances.now crossing.now.to ≡ Some far) × (distance_at distances.now crossing.now.from ≡ Some (crossing.now.cost + far))) }
{
    let near = distance_at(distances, crossing.from);
    let far = distance_at(distances, crossing.to);
    match (near, far) {
        (Some(near), Some(far)) => near >= far && near - far == u64::from(crossing.cost),
        _ => false,
    }
}

/// Whether the arc is tight: of an adjacency that has not failed, and the distance of the router that it
/// begins at is the cost of its outgoing interface and the distance of the other router together. An
/// arc that begins at an owner can be tight too. After RFC 2328, section 16.
pub fn is_tight(net: &Net, failed: FailSet, distances: &[Option<u64>], arc: Arc) -> bool
    ensures { IsTrue result ↔ IsTightArc net.now failed distances.now arc }
{
    match crossing_of(net, &failed, arc) {
        Some(crossing) => is_least(distances, &crossing),
        None => false,
    }
}

/// Whether the arc goes from a router to its next hop for the prefix: it is tight, and the router that it
/// begins at is no owner. All equal least paths are used. After RFC 2328, section 16.
pub fn is_next_hop(
    net: &Net,
    prefix: Prefix,
    failed: FailSet,
    distances: &[Option<u64>],
    arc: Arc,
) -> bool
    ensures { IsTrue result ↔ IsNextHop net.now prefix failed distances.now arc }
{
    net.valid();
    match crossing_of(net, &failed, arc) {
        Some(crossing) => { is_least(distances, &crossing) && !net.owns(crossing.from, &prefix) }
        None => false,
    }
}
