//! What is surely there, and what it beats.

ghost use Rattle.std.specs.Prelude.{◌≡◌, ◌<◌, ◌&&◌, ◌||◌, IfSome, length, option_and_then, slice_get};
ghost use Rattle.abstract_route.specs.Rows.{inhabited};
ghost use Rattle.certain_fixpoint.specs.Certain.{round_read};
ghost use Rattle.refine_rounds.specs.Arrivals.{AreFound, arrival_beats, arrivals_beat, arriving, drops_arrival, either_beats};
ghost use Rattle.refine_rounds.specs.Rounds.{local_candidate};
ghost use Rattle.refine_rounds.specs.Steps.{drops_arc, drops_local, local_beats};

use crate::arrivals::{Arrival, Arrivals};
use abstract_maps::local_row;
use abstract_route::{Candidate, beats, is_inhabited};
use certain_fixpoint::Reading;
use net_types::{Arc, Bits64, distance_at};

/// What a round has found: its certain routers, and what may arrive over each arc.
#[derive(Clone, Copy)]
pub(crate) struct Found<'a> {
    /// What it reads.
    pub reading: &'a Reading<'a>,
    /// The certain routers.
    pub certain: Bits64,
    /// What may arrive, link by link.
    pub arrivals: &'a [Arrivals],
}

// The local route of a router as a candidate.
fn local_candidate(reading: &Reading<'_>, router: u8) -> Candidate
    requires { router < length reading.now.net.now.routers }
    ensures { result ≡ local_candidate (round_read reading.now) router }
{
    let distance = distance_at(reading.distances, router);
    Candidate {
        row: local_row(reading.net, reading.prefix, router, distance),
        sender: None,
    }
}

// Whether the router's own local route is surely there and beats the candidate.
#[tactic(auto, using(certain_fixpoint::proofs::PassLemmas::originates_is))]
fn local_beats(reading: &Reading<'_>, router: u8, candidate: &Candidate) -> bool
    requires { router < length reading.now.net.now.routers }
    ensures { result ≡ local_beats (round_read reading.now) router candidate.now }
{
    reading.net.valid();
    if !reading.net.owns(router, &reading.prefix) {
        return false;
    }
    let local = local_candidate(reading, router);
    is_inhabited(&local.row) && beats(&local, candidate)
}

// Whether what arrives at the router is surely there and beats the candidate.
fn arrival_beats(arrival: Option<Arrival>, router: u8, candidate: &Candidate) -> bool
    ensures { result ≡ arrival_beats router candidate.now arrival }
{
    match arrival {
        None => false,
        Some(arrival) => {
            arrival.receiver == router && arrival.sure && beats(&arrival.candidate, candidate)
        }
    }
}

fn either_beats(arrivals: &Arrivals, router: u8, candidate: &Candidate) -> bool
    ensures { result ≡ either_beats router candidate.now arrivals.now }
{
    arrival_beats(arrivals.up, router, candidate) || arrival_beats(arrivals.down, router, candidate)
}

fn arrivals_beat(arrivals: &[Arrivals], router: u8, candidate: &Candidate) -> bool
    ensures { result ≡ arrivals_beat router candidate.now arrivals.now }
{
    for over in arrivals {
        if either_beats(over, router, candidate) {
            return true;
        }
    }
    false
}

// Whether what arrives has a route, and all of it is beaten.
fn drops_arrival(reading: &Reading<'_>, arrivals: &[Arrivals], arrival: Option<Arrival>) -> bool
    requires { IfSome arrival (λ a. a.receiver < length reading.now.net.now.routers) }
    ensures { result ≡ drops_arrival (round_read reading.now) arrivals.now arrival }
{
    match arrival {
        None => false,
        Some(arrival) => {
            is_inhabited(&arrival.candidate.row)
                && is_beaten(reading, arrivals, arrival.receiver, &arrival.candidate)
        }
    }
}

// Whether something that is surely there at the router beats the candidate.
fn is_beaten(
    reading: &Reading<'_>,
    arrivals: &[Arrivals],
    router: u8,
    candidate: &Candidate,
) -> bool
    requires { router < length reading.now.net.now.routers }
    ensures { result ≡ (local_beats (round_read reading.now) router candidate.now || arrivals_beat router candidate.now arrivals.now) }
{
    local_beats(reading, router, candidate) || arrivals_beat(arrivals, router, candidate)
}

// What may arrive over a link.
fn over_link(arrivals: &[Arrivals], link: u8) -> Option<Arrivals>
    ensures { result ≡ slice_get arrivals.now link }
{
    Some(*arrivals.get(usize::from(link))?)
}

impl Found<'_> {
    // What may arrive over the arc, none where it is not up.
    fn arrival(&self, arc: Arc) -> Option<Arrival>
        ensures { result ≡ option_and_then (arriving arc.down) (slice_get self.now.arrivals.now arc.link) }
    {
        over_link(self.arrivals, arc.link)?.arriving(arc.down)
    }

    /// Whether the round drops the arc: it is up, something may come over it, and all of that is beaten.
    pub(crate) fn drops_arc(&self, arc: Arc) -> bool
        requires { AreFound self.now }
        ensures { result ≡ drops_arc (round_read self.now.reading.now) arc }
    {
        self.reading.net.valid();
        drops_arrival(self.reading, self.arrivals, self.arrival(arc))
    }

    /// Whether the round drops the router's local route: there is one, and it is beaten.
    pub(crate) fn drops_local(&self, router: u8) -> bool
        requires { AreFound self.now }
        ensures { result ≡ drops_local (round_read self.now.reading.now) router }
    {
        self.reading.net.valid();
        if usize::from(router) >= self.reading.net.routers().len() {
            return false;
        }
        let local = local_candidate(self.reading, router);
        self.drops(router, &local)
    }

    // Whether the router's local route has a route, and it is beaten.
    fn drops(&self, router: u8, local: &Candidate) -> bool
        requires { router < length self.now.reading.now.net.now.routers }
        ensures { result ≡ (inhabited local.now.row && (local_beats (round_read self.now.reading.now) router local.now || arrivals_beat router local.now self.now.arrivals.now)) }
    {
        is_inhabited(&local.row) && is_beaten(self.reading, self.arrivals, router, local)
    }
}
