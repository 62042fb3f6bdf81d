//! What route maps and arcs make of rows: the policy of a router on all routes of a row at once.
//!
//! Decides: what a policy makes of a row, what an arc makes of it, and whether an arc surely carries each of its
//! routes. What they make of one route, `concrete_algebra` decides; how rows are ordered, `abstract_route`.
//! Stands on: `net_types`, `abstract_route`, and of `concrete_algebra` the definitions and its calls on lists,
//! maps and communities. No call takes memory.
//! Promises: each answer is the one of `specs/`, for every network; and the laws, stated in `specs/Laws.antt`, say
//! that a carried route of a row fits what the arc makes of the row, if its path has at most 21 entries for each
//! router of the network, as each has in a stable labelling; that a row which passes is carried; that what arcs make
//! of rows grows with the rows; and that each arc makes the longest paths of a row longer, up to that bound.
//! On the row of one route nothing is lost (`specs/OneRoute.antt`). Not: that what is left open can happen.
#![tactic(auto)]

mod entries;
mod exports;
mod imports;
mod laws;
mod lists;
mod local_rows;
mod maps;
mod row_sets;
mod statuses;
mod transfers;

pub use laws::{
    law_of_growth, law_of_lengthening, law_of_local_rows, law_of_maps, law_of_one_route,
    law_of_open_arcs, law_of_passing, law_of_rows, law_of_soundness,
};
pub use local_rows::local_row;
pub use maps::{run_map_abs, sure};
pub use statuses::Status;
pub use transfers::{is_open, passes, transfer};
