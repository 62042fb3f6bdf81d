//! What the candidates of a router say of its label.

ghost use Rattle.std.specs.Prelude.{◌≡◌, ◌<◌, ◌^◌, ℕ, IfOk, Some, length};
ghost use Rattle.std.specs.Option.{option_copied};
ghost use Rattle.net_types.specs.Distance.{distance_at};
ghost use Rattle.concrete_algebra.specs.Findings.{AllSay, LinkSays, LinksSay, Says, arrival, either_of, local_candidate, problem_asked, stands};
ghost use Rattle.concrete_algebra.specs.Stability.{label_at};

use crate::asked::Asked;
use crate::candidates::{arrival, label_at, local_candidate};
use crate::orders::better;
use crate::paths::same_route;
use net_types::{Arc, Net, NoMemory, Route};
use std::alloc::Global;

/// What candidates say of a label.
#[derive(Clone, Copy, PartialEq, Eq, Debug)]
pub(crate) struct Findings {
    /// Whether the label is one of them.
    pub among: bool,
    /// Whether one of them is taken in its place.
    pub preferred: bool,
}

const NOTHING: Findings = Findings {
    among: false,
    preferred: false,
};

// What either says.
fn either(a: Findings, b: Findings) -> Findings
    ensures { result ≡ either_of a b }
{
    Findings {
        among: a.among || b.among,
        preferred: a.preferred || b.preferred,
    }
}

// What one candidate, where there is one, says of the label.
fn findings_of(net: &Net, label: Option<&Route>, candidate: Option<&Route>) -> Findings
    ensures { Says net.now (option_copied label.entry) (option_copied candidate.entry) result }
{
    match (candidate, label) {
        (None, _) => NOTHING,
        (Some(_), None) => Findings {
            among: false,
            preferred: true,
        },
        (Some(candidate), Some(label)) => Findings {
            among: same_route(label, candidate),
            preferred: better(net, candidate, label),
        },
    }
}

// What the candidate over an arc says of the router's label.
fn arc_says(
    alloc: Global,
    asked: &Asked<'_>,
    labels: &[Option<Route>],
    router: u8,
    arc: Arc,
) -> Result<Findings, NoMemory>
    ensures { IfOk result (λ findings. Says asked.now.net.now (label_at labels.now router) (arrival asked.now.net.now asked.now.prefix asked.now.failed.now labels.now router arc) findings) }
{
    let candidate = arrival(alloc, asked, labels, router, arc)?;
    Ok(findings_of(asked.net, label_at(labels, router), candidate.as_ref()))
}

// What the candidates over both directions of a link say of the router's label.
fn link_says(
    alloc: Global,
    asked: &Asked<'_>,
    labels: &[Option<Route>],
    router: u8,
    link: u8,
) -> Result<Findings, NoMemory>
    ensures { IfOk result (λ findings. LinkSays asked.now.net.now asked.now.prefix asked.now.failed.now labels.now router link findings) }
{
    let (up, down) = Arc::both(link);
    let up = arc_says(alloc, asked, labels, router, up)?;
    let down = arc_says(alloc, asked, labels, router, down)?;
    Ok(either(up, down))
}

// What the candidates over all links say of the router's label.
fn links_say(
    alloc: Global,
    asked: &Asked<'_>,
    labels: &[Option<Route>],
    router: u8,
) -> Result<Findings, NoMemory>
    ensures { IfOk result (λ findings. LinksSay asked.now.net.now asked.now.prefix asked.now.failed.now labels.now router (length asked.now.net.now.links) findings) }
{
    asked.net.valid();
    let mut findings = NOTHING;
    for link in 0..asked.net.links().len() {
        let more = link_says(alloc, asked, labels, router, link as u8)?;
        findings = either(findings, more);
    }
    Ok(findings)
}

// What the router's local route, where it is a candidate, says of the router's label.
fn local_says(
    alloc: Global,
    asked: &Asked<'_>,
    labels: &[Option<Route>],
    router: u8,
) -> Result<Findings, NoMemory>
    requires router { router < length asked.now.net.now.routers }
    requires small { (u distance : ℕ) → distance_at asked.now.distances.now u ≡ Some distance → distance < 2 ^ 32 }
    ensures { IfOk result (λ findings. Says asked.now.net.now (label_at labels.now router) (local_candidate asked.now.net.now asked.now.prefix asked.now.distances.now labels.now router) findings) }
{
    let candidate = local_candidate(alloc, asked, labels, router)?;
    Ok(findings_of(asked.net, label_at(labels, router), candidate.as_ref()))
}

/// Whether the router may hold the label, after what all its candidates say.
pub(crate) fn stands(label: Option<&Route>, findings: Findings) -> bool
    ensures { result ≡ stands (option_copied label.entry) findings }
{
    match label {
        None => !findings.preferred,
        Some(_) => findings.among && !findings.preferred,
    }
}

/// What all candidates of the router say of its label.
pub(crate) fn all_say(
    alloc: Global,
    asked: &Asked<'_>,
    labels: &[Option<Route>],
    router: u8,
) -> Result<Findings, NoMemory>
    requires router { router < length asked.now.net.now.routers }
    requires small { (u distance : ℕ) → distance_at asked.now.distances.now u ≡ Some distance → distance < 2 ^ 32 }
    ensures { IfOk result (λ findings. AllSay asked.now.net.now (problem_asked asked.now) labels.now router findings) }
{
    asked.net.valid();
    let learned = links_say(alloc, asked, labels, router)?;
    let own = local_says(alloc, asked, labels, router)?;
    Ok(either(learned, own))
}
