//! Where one step leads from each router of a case.

ghost use Rattle.std.specs.Prelude.{◌≡◌, ◌<◌, Some};
ghost use Rattle.std.specs.List.{slice_get};
ghost use Rattle.refine_rounds.specs.Results.{result_of};
ghost use Rattle.implication.specs.View.{view_of};
ghost use Rattle.implication.specs.OnTheWay.{AreNear, IsCase, view_case};

use crate::cases::Case;
use net_types::{Bits64, FailSet, Net, Prefix};
use refine_rounds::CaseResult;

/// The next hops of each router, and the routers that may bring it a route, as one walk over the links finds them.
/// [`all_nearby`] makes it, once for a case.
#[derive(Clone, Copy, Debug)]
pub struct Nearby {
    hops: [Bits64; 64],
    backs: [Bits64; 64],
}

impl Nearby {
    /// The next hops of the router.
    pub(crate) fn hops(&self, router: u8) -> Bits64
        requires { router < 64 }
        ensures { slice_get self.now.hops router ≡ Some result }
    {
        self.hops[usize::from(router)]
    }

    /// The routers that may bring the router a route.
    pub(crate) fn backs(&self, router: u8) -> Bits64
        requires { router < 64 }
        ensures { slice_get self.now.backs router ≡ Some result }
    {
        self.backs[usize::from(router)]
    }
}

// Where one step leads from each router of a case whose result is known.
#[tactic(auto, using(crate::proofs::TellLemmas::is_case))]
fn around_case(case: &Case<'_>) -> Nearby
    requires { case.now.known.now ≡ result_of case.now.net.now case.now.prefix case.now.failed.now }
    ensures { AreNear (view_case case.now) result.hops result.backs }
{
    case.net.valid();
    around_each(case)
}

// Where one step leads from each router of the case.
#[tactic(auto, using(crate::proofs::NearLemmas::near_none, crate::proofs::NearLemmas::near_more, crate::proofs::NearLemmas::near_all))]
fn around_each(case: &Case<'_>) -> Nearby
    requires { IsCase case.now }
    ensures { AreNear (view_case case.now) result.hops result.backs }
{
    case.net.valid();
    let count = case.net.routers().len() as u8;
    let mut hops = [Bits64::EMPTY; 64];
    let mut backs = [Bits64::EMPTY; 64];
    for router in 0..count {
        hops[usize::from(router)] = case.hops(router);
        backs[usize::from(router)] = case.backs(router);
    }
    Nearby { hops, backs }
}

/// Where one step leads from each router of a case, whose result is known.
pub fn all_nearby(net: &Net, prefix: &Prefix, failed: FailSet, known: &CaseResult) -> Nearby
    requires { known.now ≡ result_of net.now prefix.now failed }
    ensures { AreNear (view_of net.now prefix.now failed known.now) result.hops result.backs }
{
    let case = Case {
        net,
        prefix: *prefix,
        failed: &failed,
        known,
    };
    around_case(&case)
}
