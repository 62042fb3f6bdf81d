//! The distances, by passes over the links until one changes nothing.

ghost use Rattle.std.specs.Prelude.{◌≡◌, ◌<◌, ◌+◌, ◌^◌, ℕ, IfOk, Option, Some, length};
ghost use Rattle.net_types.specs.declared.arcs.Arc.{Arc as ArcValue};
ghost use Rattle.net_types.specs.Owners.{stub_of};
ghost use Rattle.net_types.specs.PrefixValue.{PrefixValue};
ghost use Rattle.net_types.specs.Distance.{AreDistances, distance_at};
ghost use Rattle.ospf_paths.specs.OnTheWay.{stub_costs, AreBounded, AreSums, IsSettled, Lowered, Visited, Passed};

use crate::crossings::{Crossing, crossing_of};
use net_types::{Arc, FailSet, List, Net, NoMemory, Owned, Prefix};
use std::alloc::{AllocError, Global};

// The same cost in more bits.
fn widened(cost: Option<u32>) -> Option<u64>
    ensures { result ≡ cost }
{
    Some(u64::from(cost?))
}

// The least cost of the OSPF stubs of the prefix among these, where there is one.
fn stub_of(owned: &[Owned], prefix: &Prefix) -> Option<u64>
    ensures { result ≡ stub_of prefix.now owned.now }
{
    for entry in owned {
        if entry.prefix.is_same(prefix) {
            return widened(entry.ospf_cost);
        }
    }
    None
}

// The stub cost of each router.
fn stub_costs(alloc: Global, net: &Net, prefix: &Prefix) -> Result<Vec<Option<u64>>, AllocError>
    ensures { IfOk result (λ costs. costs.items ≡ stub_costs prefix.now net.now.routers) }
{
    let mut costs = Vec::new(alloc);
    let routers = net.routers();
    for router in routers {
        costs.push(stub_of(router.owned.as_slice(), prefix))?;
    }
    Ok(costs)
}

// Puts the sum over the crossing where it is less, and says whether it was.
fn lower(distances: &mut [Option<u64>], crossing: &Crossing) -> bool
    requires from { crossing.now.from < length distances.old }
    requires to { crossing.now.to < length distances.old }
    requires small { (u distance : ℕ) → distance_at distances.old u ≡ Some distance → distance < 2 ^ 32 }
    ensures { Lowered crossing.now.from crossing.now.to crossing.now.cost distances.old distances.new result }
{
    let far = distances[usize::from(crossing.to)];
    let Some(far) = far else {
        return false;
    };
    let sum = u64::from(crossing.cost) + far;
    let near = distances[usize::from(crossing.from)];
    match near {
        Some(near) if near <= sum => false,
        _ => {
            distances[usize::from(crossing.from)] = Some(sum);
            true
        }
    }
}

// Visits an arc: lowers the entry of the router that it begins at where the way over the arc is less,
// and says whether it was.
fn visit(net: &Net, failed: &FailSet, distances: &mut [Option<u64>], arc: Arc) -> bool
    requires bounded { AreBounded net.now distances.old }
    ensures visited { Visited net.now failed.now arc distances.old distances.new result }
    ensures bounded { AreBounded net.now distances.new }
{
    net.valid();
    match crossing_of(net, failed, arc) {
        Some(crossing) => lower(distances, &crossing),
        None => false,
    }
}

// Visits both directions of a link.
fn visit_link(net: &Net, failed: &FailSet, distances: &mut [Option<u64>], link: u8) -> bool
    requires bounded { AreBounded net.now distances.old }
    ensures { Passed net.now failed.now distances.old distances.new result link (link + 1) }
{
    net.valid();
    let (there, back) = Arc::both(link);
    let up = visit(net, failed, distances, there);
    let down = visit(net, failed, distances, back);
    up || down
}

// One pass over the links: whether it changed an entry. Where it did not, no arc shortens anything.
fn pass(net: &Net, failed: &FailSet, distances: &mut [Option<u64>]) -> bool
    requires bounded { AreBounded net.now distances.old }
    ensures { Passed net.now failed.now distances.old distances.new result 0 (length net.now.links) }
{
    net.valid();
    let mut changed = false;
    for link in 0..net.links().len() {
        let lowered = visit_link(net, failed, distances, link as u8);
        changed = changed || lowered;
    }
    changed
}

// Passes until one changes nothing.
fn settle(net: &Net, failed: &FailSet, distances: &mut [Option<u64>])
    requires bounded { AreBounded net.now distances.old }
    ensures bounded { AreBounded net.now distances.new }
    ensures sums { (prefix : PrefixValue) → AreSums net.now prefix failed.now distances.old → AreSums net.now prefix failed.now distances.new }
    ensures settled { (arc : ArcValue) → IsSettled net.now failed.now distances.new arc }
{
    net.valid();
    while pass(net, failed, distances) {}
}

/// The OSPF distance of each router for the prefix, with these links failed: the least sum over the
/// walks of adjacencies that are up to a router with an OSPF stub of the prefix, each interface counting
/// its cost on the way out, and the stub its own. None where there is no walk. After RFC 2328, section 16.
///
/// # Errors
///
/// [`NoMemory`] where there was none for the list.
pub fn distances(
    alloc: Global,
    net: &Net,
    prefix: Prefix,
    failed: FailSet,
) -> Result<List<Option<u64>>, NoMemory>
    ensures exact { IfOk result (λ ds. AreDistances net.now prefix failed ds) }
    ensures small { IfOk result (λ ds. (u distance : ℕ) → distance_at ds u ≡ Some distance → distance < 2 ^ 32) }
{
    net.valid();
    let mut distances = stub_costs(alloc, net, &prefix)?;
    settle(net, &failed, &mut distances);
    Ok(List::from_vec(distances))
}
