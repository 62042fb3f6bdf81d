//! Whether a labelling is stable.

ghost use Rattle.std.specs.Prelude.{◌≡◌, ◌<◌, ◌^◌, ◌↔◌, ℕ, IfOk, IsTrue, Some, length};
ghost use Rattle.net_types.specs.Distance.{distance_at};
ghost use Rattle.concrete_algebra.specs.declared.stability.StableAnswer.TheVariants.{Stable, Breaks};
ghost use Rattle.concrete_algebra.specs.Answers.{IsAnswer};
ghost use Rattle.concrete_algebra.specs.Findings.{problem_asked};
ghost use Rattle.concrete_algebra.specs.Problem.{problem_of};
ghost use Rattle.concrete_algebra.specs.Stability.{BreaksFirst, IsStable, IsStableAt};

use crate::asked::Asked;
use crate::candidates::label_at;
use crate::findings::{all_say, stands};
use net_types::{FailSet, Net, NoMemory, Prefix, Route};
use std::alloc::Global;

/// Whether a labelling is stable.
#[derive(Clone, Copy, PartialEq, Eq, Debug)]
pub enum StableAnswer {
    /// It breaks at no router.
    Stable,
    /// This is the least router where it breaks.
    Breaks(u8),
}

// Whether the router holds none and has no candidate, or holds a candidate and has no better one.
fn is_stable_at(
    alloc: Global,
    asked: &Asked<'_>,
    labels: &[Option<Route>],
    router: u8,
) -> Result<bool, NoMemory>
    requires router { router < length asked.now.net.now.routers }
    requires small { (u distance : ℕ) → distance_at asked.now.distances.now u ≡ Some distance → distance < 2 ^ 32 }
    ensures { IfOk result (λ stable. IsTrue stable ↔ IsStableAt (problem_asked asked.now) labels.now router) }
{
    let findings = all_say(alloc, asked, labels, router)?;
    Ok(stands(label_at(labels, router), findings))
}

// The least router where the labelling breaks, if it breaks at one.
fn first_break(
    alloc: Global,
    asked: &Asked<'_>,
    labels: &[Option<Route>],
) -> Result<StableAnswer, NoMemory>
    requires long { length labels.now ≡ length asked.now.net.now.routers }
    requires small { (u distance : ℕ) → distance_at asked.now.distances.now u ≡ Some distance → distance < 2 ^ 32 }
    ensures { IfOk result (λ answer. IsAnswer (problem_asked asked.now) labels.now answer) }
{
    asked.net.valid();
    for router in 0..asked.net.routers().len() {
        let router = router as u8;
        if !is_stable_at(alloc, asked, labels, router)? {
            return Ok(StableAnswer::Breaks(router));
        }
    }
    Ok(StableAnswer::Stable)
}

/// Whether the labelling is stable for the prefix, with these links failed and these OSPF distances: each
/// router holds none where it has no candidate, else a candidate that no candidate is better than. One label
/// is given for each router, of whatever source. After stable routing problems; several origins are this
/// project's own.
///
/// # Errors
///
/// [`NoMemory`] where there was none for a candidate.
pub fn check_stable(
    alloc: Global,
    net: &Net,
    prefix: Prefix,
    failed: FailSet,
    distances: &[Option<u64>],
    labels: &[Option<Route>],
) -> Result<StableAnswer, NoMemory>
    requires long { length labels.now ≡ length net.now.routers }
    requires small { (u distance : ℕ) → distance_at distances.now u ≡ Some distance → distance < 2 ^ 32 }
    ensures stable { IfOk result (λ answer. (answer ≡ Stable) ↔ IsStable (problem_of net.now prefix failed distances.now) labels.now) }
    ensures breaks { IfOk result (λ answer. (u : ℕ) → (answer ≡ Breaks u) ↔ BreaksFirst (problem_of net.now prefix failed distances.now) labels.now u) }
{
    let asked = Asked {
        net,
        prefix,
        failed: &failed,
        distances,
    };
    first_break(alloc, &asked, labels)
}
