//! The network of configurations, or why they make none.
//!
//! Decides: which interfaces are live, what is a link, a stub, an adjacency and a session, which policy each
//! side of a session has, which prefixes a router owns at which cost, how routers, links and communities
//! are numbered, what positions the names of lists and maps stand for, and which refusal comes first.
//! Stands on: `net_types`.
//! Promises: the answer is the one of `specs/Network.antt`, and meets the relations of `specs/Meaning.antt`.
//! Not: what any policy does with a route.
#![tactic(auto)]

mod addresses;
mod ascending;
mod by_prefix;
mod communities;
mod grouped;
mod groups;
mod interfaces;
mod links;
mod networks;
mod notices;
mod order;
mod owning;
mod resolving;
mod routers;
mod sessions;
mod twins;

pub use networks::build;
