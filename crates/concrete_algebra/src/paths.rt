//! Longer paths, and when two routes are the same.

ghost use Rattle.std.specs.Prelude.{◌≡◌, ◌++◌, ◌∷◌, ◌↔◌, IfOk, IsTrue, replicate};

use net_types::{List, NoMemory, Route};
use std::alloc::Global;

// A path with a router in front of it so many times.
pub(crate) fn prepended(
    alloc: Global,
    router: u8,
    times: u8,
    path: &[u8],
) -> Result<List<u8>, NoMemory>
    ensures { IfOk result (λ longer. longer ≡ replicate times router ++ path.now) }
{
    let mut longer = Vec::new(alloc);
    for _ in 0..times {
        longer.push(router)?;
    }
    longer.extend_from_slice(path)?;
    Ok(List::from_vec(longer))
}

/// Whether two routes are the same.
pub(crate) fn same_route(a: &Route, b: &Route) -> bool
    ensures { IsTrue result ↔ (a.now ≡ b.now) }
{
    a.weight == b.weight
        && a.preference == b.preference
        && a.origin == b.origin
        && a.med == b.med
        && a.communities == b.communities
        && a.source == b.source
        && a.path.as_slice() == b.path.as_slice()
}
