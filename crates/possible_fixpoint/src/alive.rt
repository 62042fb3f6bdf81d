//! What has not been dropped.

ghost use Rattle.std.specs.Prelude.{◌≡◌, ◌<◌};
ghost use Rattle.possible_fixpoint.specs.Flow.{is_alive};

use net_types::{Arc, Bits64};

/// What is still alive, as sets of numbers. Nothing is alive or dead of numbers that no link or router has.
#[derive(Clone, Copy, PartialEq, Eq, Debug)]
pub struct Alive {
    /// The links whose arc to the router with the higher number lives.
    pub up: Bits64,
    /// The links whose arc to the router with the lower number lives.
    pub down: Bits64,
    /// The routers whose local route lives.
    pub locals: Bits64,
}

impl Alive {
    /// Whether the arc has not been dropped.
    pub fn holds(&self, arc: Arc) -> bool
        requires { arc.link < 64 }
        ensures { result ≡ is_alive self.now arc }
    {
        if arc.down {
            self.down.has(arc.link)
        } else {
            self.up.has(arc.link)
        }
    }
}
