//! What reads the result of a case.

ghost use Rattle.std.specs.Prelude.{ℕ, ◌≡◌, List as Seq};
ghost use Rattle.net_types.specs.NetValue.{NetValue};
ghost use Rattle.net_types.specs.PrefixValue.{PrefixValue};
ghost use Rattle.refine_rounds.specs.Results.{result_of};
ghost use Rattle.case_walk.specs.Analysis.{Analysis, Answers};

use net_types::{Bits64, FailSet, Prefix};
use outside::Gate;
use property_book::{Broken, Property};
use refine_rounds::CaseResult;
use std::thread::Threads;

/// What a case is solved with.
#[derive(Drop)]
pub struct Workers<'a, R: Threads + Sync, G: Gate + Sync> {
    /// What starts threads.
    pub rt: &'a R,
    /// How many workers there are, 1 to 8.
    pub count: u8,
    /// The gate that they pass.
    pub gate: &'a G,
}

/// What reads of the results of the cases of a network which links are idle, and what they imply.
pub trait CaseReader {
    /// What is read of a case.
    type Found: Drop;

    ghost net: { Self → NetValue };

    ghost analysis: { NetValue → Analysis };

    ghost is_result: { NetValue → PrefixValue → Seq ℕ → Self.Found → Type 0 };

    /// What is read of a case, whose result this is.
    fn read(&self, prefix: &Prefix, set: FailSet, case: CaseResult) -> Self::Found
        requires { case ≡ result_of (net self.now) prefix.now set }
        ensures { is_result (net self.now) prefix.now set result };

    /// The idle links of a case, from its result.
    fn idle(&self, prefix: &Prefix, set: FailSet, found: &Self::Found) -> Bits64
        requires { is_result (net self.now) prefix.now set found.now }
        ensures { result ≡ (analysis (net self.now)).idle prefix.now set };

    /// What is broken of a property in a case of its prefix, by the result of the case; none where the property is implied.
    fn implied(&self, property: &Property, set: FailSet, found: &Self::Found) -> Option<Broken>
        requires { is_result (net self.now) property.now.prefix set found.now }
        ensures { Answers (analysis (net self.now)) property.now set result };
}
