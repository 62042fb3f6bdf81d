//! What the solver reads: a flow.

ghost use Rattle.std.specs.Prelude.{◌≡◌, ◌<◌};
ghost use Rattle.abstract_maps.specs.AbstractMap.{IsShort};
ghost use Rattle.possible_fixpoint.specs.Flow.{Flow};

use abstract_route::Row;
use net_types::Arc;

/// A network, a prefix, what has failed and what is alive, as the solver reads them.
pub(crate) trait Analysis {
    ghost flow: { Self → Flow };

    /// How many routers there are.
    fn routers(&self) -> u8
        ensures { result ≡ (flow self.now).routers };

    /// How many links there are.
    fn links(&self) -> u8
        ensures { result ≡ (flow self.now).links };

    /// Whether the arc is up and has not been dropped.
    fn lives(&self, arc: Arc) -> bool
        requires { arc.link < 64 }
        ensures { result ≡ (flow self.now).lives arc };

    /// The router that a living arc begins at.
    fn sender(&self, arc: Arc) -> u8
        ensures { result ≡ (flow self.now).sender arc };

    /// The router that a living arc goes to.
    fn receiver(&self, arc: Arc) -> u8
        ensures { result ≡ (flow self.now).receiver arc };

    /// The row of the router's living local route.
    fn source(&self, router: u8) -> Row
        requires { router < (flow self.now).routers }
        ensures { result ≡ (flow self.now).source router };

    /// What the arc adds to its receiver's row.
    fn gives(&self, arc: Arc, row: &Row) -> Row
        requires { IsShort row.now }
        ensures { result ≡ (flow self.now).gives arc row.now };
}
