//! What the result of a case implies of a property.
//!
//! Decides: where a result implies reach, isolated or waypoint of a router, and else what is broken first.
//! Stands on: `refine_rounds`, whose results it reads, `property_book`, whose properties it judges, `ospf_paths` for next
//! hops, and the crates below them. It takes no memory.
//! Promises: the answer is the one of `specs/Implied.antt`, and a property that is implied is true in every stable
//! labelling. The laws of `specs/Laws.antt` say that there is one answer, and what the words of the definition mean.
//! Not: that a property which is true everywhere is implied.
#![tactic(auto)]

mod answers;
mod cases;
mod laws;
mod nearby;
mod seen;
mod sure_routes;
mod ways;

pub use answers::{implied, implied_with};
pub use laws::{
    law_of_answers, law_of_exceptions, law_of_idle_links, law_of_solid_routers, law_of_trails,
    law_of_views,
};
pub use nearby::{Nearby, all_nearby};
