//! Certain routers: for one prefix and one set of failed links, the routers that surely hold a route, read off rows.
//!
//! Decides: the least set of routers that holds each one with a local route, and with a router each one that an arc
//! which passes its row leads to. Whether an arc passes a row, `abstract_maps` decides.
//! Stands on: `net_types`, `abstract_route`, `concrete_algebra` and `abstract_maps`.
//! Promises: the law of `specs/CertainSet.antt` says that the set has exactly the routers that are in every closed set.
//! That each of them holds a route where the rows hold each label, `refine_rounds` says.
#![tactic(auto)]

mod certain;
mod reading;

ghost use Rattle.certain_fixpoint.specs.CertainSet.{CertainSetIs};

pub use certain::solve_certain;
pub use reading::{Reading, row_at};

/// The members of the certain set are exactly the certain routers.
pub fn law_of_certain_set()
    ensures { CertainSetIs }
{}
