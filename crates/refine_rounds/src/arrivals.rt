//! What may arrive over each arc, and whether it surely does.

ghost use Rattle.std.specs.Prelude.{◌≡◌, ◌<◌, All, IfOk, Some};
ghost use Rattle.net_types.specs.Arcs.{is_up, receiver_of, sender_of};
ghost use Rattle.abstract_maps.specs.AbstractMap.{IsShort};
ghost use Rattle.certain_fixpoint.specs.Certain.{round_read};
ghost use Rattle.refine_rounds.specs.Arrivals.{arrival_from, arrival_of, arrivals_of, arriving};

use abstract_maps::{passes, transfer};
use abstract_route::Candidate;
use certain_fixpoint::{Reading, row_at};
use net_types::{Arc, Bits64};
use std::alloc::{AllocError, Global};

/// What may arrive over an arc that is up.
#[derive(Clone, Copy, PartialEq, Eq, Debug)]
pub(crate) struct Arrival {
    /// The router that it comes to.
    pub receiver: u8,
    /// What may come.
    pub candidate: Candidate,
    /// Whether each stable labelling has a candidate that is one of its routes.
    pub sure: bool,
}

/// What may arrive over the two arcs of a link, none where the arc is not up.
#[derive(Clone, Copy, PartialEq, Eq, Debug)]
pub(crate) struct Arrivals {
    /// Over the arc to the router with the higher number.
    pub up: Option<Arrival>,
    /// Over the arc to the router with the lower number.
    pub down: Option<Arrival>,
}

// What may come from one router to another over an arc that is up.
fn arrival_from(
    reading: &Reading<'_>,
    certain: Bits64,
    arc: Arc,
    sender: u8,
    receiver: u8,
) -> Arrival
    requires short { All IsShort reading.now.rows.now }
    requires sender { sender < 64 }
    requires receiver { receiver < 64 }
    ensures { result ≡ arrival_from (round_read reading.now) certain arc sender receiver }
{
    let row = row_at(reading.rows, sender);
    let passing = passes(reading.net, reading.prefix, arc, &row);
    Arrival {
        receiver,
        candidate: Candidate {
            row: transfer(reading.net, reading.prefix, arc, &row),
            sender: Some(sender),
        },
        sure: certain.has(sender) && passing && !row.may.has(receiver),
    }
}

// What may arrive over an arc, none where it is not up.
#[tactic(auto, unfolding(crate::specs::Arrivals::arrival_of))]
fn arrival_of(reading: &Reading<'_>, certain: Bits64, arc: Arc) -> Option<Arrival>
    requires short { All IsShort reading.now.rows.now }
    ensures { result ≡ arrival_of (round_read reading.now) certain arc }
{
    if !reading.net.is_up(reading.failed, arc) {
        return None;
    }
    let sender = reading.net.sender_of(arc)?;
    let receiver = reading.net.receiver_of(arc)?;
    Some(arrival_from(reading, certain, arc, sender, receiver))
}

/// What may arrive over the arcs of each link, where these routers are certain.
///
/// # Errors
///
/// [`AllocError`] where there was no memory for the list.
#[tactic(auto, using(crate::proofs::ArrivalLemmas::arrivals_more))]
pub(crate) fn arrivals_of(
    alloc: Global,
    reading: &Reading<'_>,
    certain: Bits64,
) -> Result<Vec<Arrivals>, AllocError>
    requires short { All IsShort reading.now.rows.now }
    ensures { IfOk result (λ arrivals. arrivals.items ≡ arrivals_of (round_read reading.now) certain) }
{
    reading.net.valid();
    let mut arrivals = Vec::new(alloc);
    for link in 0..reading.net.links().len() {
        let (up, down) = Arc::both(link as u8);
        let over = Arrivals {
            up: arrival_of(reading, certain, up),
            down: arrival_of(reading, certain, down),
        };
        arrivals.push(over)?;
    }
    Ok(arrivals)
}

impl Arrivals {
    /// What may arrive over the arc in this direction.
    pub(crate) fn arriving(&self, down: bool) -> Option<Arrival>
        ensures { result ≡ arriving down self.now }
    {
        if down { self.down } else { self.up }
    }
}
