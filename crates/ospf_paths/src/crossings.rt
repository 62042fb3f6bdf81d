//! What an arc crosses: an adjacency that has not failed.

ghost use Rattle.std.specs.Prelude.{ℕ, MatchOption};
ghost use Rattle.net_types.specs.Distance.{Crosses};

use net_types::{Arc, FailSet, Net};

/// An adjacency that is up, in one direction.
#[derive(Clone, Copy, PartialEq, Eq, Debug)]
pub(crate) struct Crossing {
    /// The router that the arc begins at.
    pub from: u8,
    /// The router that it goes to.
    pub to: u8,
    /// The cost of the interface that it goes out of.
    pub cost: u32,
}

/// What the arc crosses, or none where there is no such link, it is no adjacency, or it has failed.
pub(crate) fn crossing_of(net: &Net, failed: &FailSet, arc: Arc) -> Option<Crossing>
    ensures { MatchOption result ((u v cost : ℕ) → Crosses net.now failed.now arc u v cost → ⊥) (λ c. Crosses net.now failed.now arc c.from c.to c.cost) }
{
    let link = net.link_of(arc)?;
    if !link.adjacency || failed.holds(arc.link) {
        return None;
    }
    let start = link.from_end(arc.down);
    Some(Crossing {
        from: start.router,
        to: link.to_end(arc.down).router,
        cost: start.cost,
    })
}
