//! What is alive after a round.

ghost use Rattle.std.specs.Prelude.{◌≡◌, ◌&&◌, not};
ghost use Rattle.net_types.specs.Sets.{has};
ghost use Rattle.net_types.specs.Turns.{set_of};
ghost use Rattle.certain_fixpoint.specs.Certain.{round_read};
ghost use Rattle.refine_rounds.specs.Arrivals.{AreFound};
ghost use Rattle.refine_rounds.specs.Steps.{drops_arc, drops_local, step};

use crate::beating::Found;
use net_types::{Arc, Bits64};
use possible_fixpoint::Alive;

// The links whose arc in this direction stays alive.
#[tactic(auto, using(certain_fixpoint::proofs::PassLemmas::set_none, certain_fixpoint::proofs::PassLemmas::set_with, certain_fixpoint::proofs::PassLemmas::set_same))]
fn living_links(found: &Found<'_>, alive: Bits64, down: bool) -> Bits64
    requires { AreFound found.now }
    ensures { result ≡ set_of (λ link. has alive link && not (drops_arc (round_read found.now.reading.now) (record { link = link; down = down }))) 64 }
{
    let mut living = Bits64::EMPTY;
    for link in 0..64 {
        if alive.has(link) && !found.drops_arc(Arc { link, down }) {
            living = living.with(link);
        }
    }
    living
}

// The routers whose local route stays alive.
#[tactic(auto, using(certain_fixpoint::proofs::PassLemmas::set_none, certain_fixpoint::proofs::PassLemmas::set_with, certain_fixpoint::proofs::PassLemmas::set_same))]
fn living_locals(found: &Found<'_>, alive: Bits64) -> Bits64
    requires { AreFound found.now }
    ensures { result ≡ set_of (λ u. has alive u && not (drops_local (round_read found.now.reading.now) u)) 64 }
{
    let mut living = Bits64::EMPTY;
    for router in 0..64 {
        if alive.has(router) && !found.drops_local(router) {
            living = living.with(router);
        }
    }
    living
}

/// What is alive after the round: all that was, without what is beaten.
#[tactic(auto, unfolding(crate::specs::Steps::step))]
pub(crate) fn step(found: &Found<'_>, alive: &Alive) -> Alive
    requires { AreFound found.now }
    ensures { result ≡ step (round_read found.now.reading.now) alive.now }
{
    Alive {
        up: living_links(found, alive.up, false),
        down: living_links(found, alive.down, true),
        locals: living_locals(found, alive.locals),
    }
}
