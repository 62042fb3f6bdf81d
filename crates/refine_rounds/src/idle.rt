//! Which links are idle in a case.

ghost use Rattle.std.specs.Prelude.{◌≡◌, All};
ghost use Rattle.abstract_maps.specs.AbstractMap.{IsShort};
ghost use Rattle.certain_fixpoint.specs.Certain.{round_read};
ghost use Rattle.refine_rounds.specs.Idle.{idle_set, is_idle, is_quiet, open_arc, tight_arc};

use abstract_maps::is_open;
use certain_fixpoint::{Reading, row_at};
use net_types::{Arc, Bits64};
use ospf_paths::is_tight;

// Whether the arc is open for its sender's row.
#[tactic(auto, unfolding(crate::specs::Idle::open_arc))]
fn open_arc(reading: &Reading<'_>, arc: Arc) -> bool
    requires short { All IsShort reading.now.rows.now }
    ensures { result ≡ open_arc (round_read reading.now) arc }
{
    match reading.net.sender_of(arc) {
        None => false,
        Some(sender) => {
            let row = row_at(reading.rows, sender);
            is_open(reading.net, reading.prefix, arc, &row)
        }
    }
}

// Whether the arc is tight.
fn tight_arc(reading: &Reading<'_>, arc: Arc) -> bool
    ensures { result ≡ tight_arc reading.now.net.now reading.now.failed.now reading.now.distances.now arc }
{
    is_tight(reading.net, *reading.failed, reading.distances, arc)
}

// Whether the arc is neither open nor tight.
fn is_quiet(reading: &Reading<'_>, arc: Arc) -> bool
    requires short { All IsShort reading.now.rows.now }
    ensures { result ≡ is_quiet (round_read reading.now) arc }
{
    !open_arc(reading, arc) && !tight_arc(reading, arc)
}

// Whether the link has not failed, and both of its arcs are quiet.
fn is_idle(reading: &Reading<'_>, link: u8) -> bool
    requires short { All IsShort reading.now.rows.now }
    ensures { result ≡ is_idle (round_read reading.now) link }
{
    if reading.failed.holds(link) {
        return false;
    }
    let (up, down) = Arc::both(link);
    is_quiet(reading, up) && is_quiet(reading, down)
}

/// The links that are idle in a case whose first round is read.
#[tactic(auto, unfolding(crate::specs::Idle::idle_set), using(certain_fixpoint::proofs::PassLemmas::set_none, certain_fixpoint::proofs::PassLemmas::set_with, certain_fixpoint::proofs::PassLemmas::set_same))]
pub(crate) fn idle_links(reading: &Reading<'_>) -> Bits64
    requires short { All IsShort reading.now.rows.now }
    ensures { result ≡ idle_set (round_read reading.now) }
{
    reading.net.valid();
    let mut idle = Bits64::EMPTY;
    for link in 0..reading.net.links().len() {
        if is_idle(reading, link as u8) {
            idle = idle.with(link as u8);
        }
    }
    idle
}
