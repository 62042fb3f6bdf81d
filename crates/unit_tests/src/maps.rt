//! Maps on rows of which more or less is known, arcs of many policies, and two routers that each prefer the way
//! through the other.

mod arcs;
mod known;
mod one_router;
mod preferring;
mod three_routers;
mod worked_arcs;
