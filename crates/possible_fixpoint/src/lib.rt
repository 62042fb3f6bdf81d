//! Possible routes: for one prefix and one set of failed links, the rows that bound every route that a router may
//! hold in a stable labelling.
//!
//! Decides: the least list of rows in which each router's row is above that of its living local route, and above
//! what each living arc gives of its sender's row. What an arc gives of a row, `abstract_maps` decides; what is alive,
//! the caller.
//! Stands on: `net_types`, `outside`, `abstract_route`, `flow_board`, `concrete_algebra` and `abstract_maps`; of
//! `ospf_paths` its laws. It takes memory for the rows and the board alone, between phases: a worker's notes lie on its
//! stack.
//! How: workers share the routers out by number and raise their rows on a shared board, turn by turn, until a turn of each
//! changes no word. Then the board is closed; where its rows do not solve the equations, the next phase begins at them.
//! Promises: `solve_possible` gives that list, for every number of workers, every gate and every order of their steps;
//! `solve_plainly` gives it by another way, for tests to compare. The laws of `specs/Laws.antt` say that it is there and is
//! one, that it falls with what is alive, and that it holds each label of each stable labelling, as long as all that the
//! labelling holds is alive. Not: that what is possible can happen, how often an arc is asked, or how many turns workers
//! make.
#![tactic(auto)]

mod alive;
mod analysis;
mod arrivals;
mod crew;
mod ending;
mod feeding;
mod gathering;
mod laws;
mod lengths;
mod marks;
mod notes;
mod passes;
mod phases;
mod solving;
mod turns;
mod visits;

pub use alive::Alive;
pub use laws::{
    law_of_climbing, law_of_flow, law_of_held_routes, law_of_idle_arcs, law_of_less_alive,
    law_of_possible, law_of_short_rows,
};
pub use solving::{solve_plainly, solve_possible};
