//! What was found of a property in a network.

ghost use Rattle.std.specs.Prelude.{◌≡◌, ◌<◌, ◌≤◌, IfSome, length};
ghost use Rattle.property_book.specs.Outcomes.{first_missing, is_certified};

use net_types::{FailSet, List};

/// Why a property does not apply to a network, the first that stands.
#[derive(Clone, Copy, PartialEq, Eq, Debug)]
pub enum Barred {
    /// A router that it names is not there.
    UnknownRouter,
    /// No router owns its prefix.
    NotOwned,
    /// Its prefix overlaps another owned prefix, or a link's subnet.
    Overlaps,
}

/// What is not implied where a property is not certified.
#[derive(Clone, Copy, PartialEq, Eq, Debug)]
pub enum Broken {
    /// This router has no route that is sure.
    NoSureRoute(u8),
    /// The router owns the prefix.
    IsOwner,
    /// The router may learn a route.
    MayLearn,
    /// The router has a distance in OSPF.
    HasOspf,
    /// This owner may be reached around the waypoint.
    Bypass(u8),
}

/// What was found of a property.
#[derive(Clone, Copy, PartialEq, Eq, Debug)]
pub enum Verdict {
    /// It holds in every stable solution, with each permitted set of failed links.
    Certified,
    /// It is not implied with these links failed, and why.
    NotCertified(FailSet, Broken),
    /// It says nothing of this network, and why.
    NotApplicable(Barred),
}

/// What was found of a book in one network.
#[derive(Debug, Drop)]
pub struct Outcome {
    /// A verdict for each property, in the book's order.
    pub verdicts: List<Verdict>,
    /// How many cases of prefix and failure set were solved.
    pub solved: u64,
    /// How many there are.
    pub total: u64,
}

fn is_certified(verdict: &Verdict) -> bool
    ensures { result ≡ is_certified verdict.now }
{
    matches!(verdict, Verdict::Certified)
}

// The place of the first verdict that is no certificate.
fn missing_among(verdicts: &[Verdict]) -> Option<usize>
    ensures value { result ≡ first_missing verdicts.now }
    ensures within { IfSome result (λ place. place < length verdicts.now) }
{
    verdicts.iter().position(|verdict| !is_certified(verdict))
}

impl Outcome {
    /// The place of the first property that is not certified, counted from 0; none where each is.
    pub fn first_missing(&self) -> Option<u8>
        requires { length self.now.verdicts ≤ 64 }
        ensures value { result ≡ first_missing self.now.verdicts }
        ensures small { IfSome result (λ place. place < 64) }
    {
        match missing_among(self.verdicts.as_slice()) {
            Some(place) => Some(place as u8),
            None => None,
        }
    }
}
