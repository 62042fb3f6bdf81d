//! What is read of the cases of one network.

use case_walk::CaseReader;
use implication::{Nearby, all_nearby, implied_with};
use net_types::{Bits64, FailSet, Net, Prefix};
use property_book::{Broken, Property};
use refine_rounds::CaseResult;

/// Reads the cases of a network.
#[derive(Drop)]
pub(crate) struct Reader<'a> {
    /// The network.
    pub net: &'a Net,
}

/// The result of a case, and where one step leads in it.
#[derive(Debug, Drop)]
pub(crate) struct Found {
    case: CaseResult,
    nearby: Nearby,
}

impl CaseReader for Reader<'_> {
    ghost use Rattle.std.specs.Prelude.{◌≡◌};
    ghost use Rattle.refine_rounds.specs.Results.{result_of};
    ghost use Rattle.implication.specs.View.{view_of};
    ghost use Rattle.implication.specs.OnTheWay.{AreNear};
    ghost use Rattle.certify.specs.Results.{analysis_of};

    type Found = Found;

    ghost net = { λ s. s.net.now };

    ghost analysis = { λ net. analysis_of net };

    ghost is_result = { λ net prefix failed found. (found.case ≡ result_of net prefix failed) × AreNear (view_of net prefix failed found.case) found.nearby.hops found.nearby.backs };

    fn read(&self, prefix: &Prefix, failed: FailSet, case: CaseResult) -> Found {
        let nearby = all_nearby(self.net, prefix, failed, &case);
        Found { case, nearby }
    }

    fn idle(&self, _prefix: &Prefix, _failed: FailSet, found: &Found) -> Bits64 {
        found.case.idle()
    }

    fn implied(&self, property: &Property, failed: FailSet, found: &Found) -> Option<Broken> {
        implied_with(self.net, property, failed, &found.case, &found.nearby)
    }
}
