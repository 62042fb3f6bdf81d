//! Distances and next hops of OSPF for one prefix, with a set of links failed.
//!
//! Decides: the least sum of costs from each router to a router with an OSPF stub of the prefix, after
//! RFC 2328, section 16, and which arcs lead to next hops, all equal least paths being used.
//! Stands on: `net_types`, whose `specs/Distance.antt` says what a walk, a distance and a next hop are.
//! Promises: the distances are the least sums over all walks, and the tests answer exactly for the tight
//! arcs and for those to next hops, whatever list they are asked with. The laws, stated in
//! `specs/Laws.antt`, say that every valid network has one list of distances, each below 2 to the power of
//! 32; that hops lead from every router with a distance to an owner, ever nearer; that least walks go over
//! tight arcs alone; that the failure of a link without a tight arc changes nothing, no failure brings a
//! router nearer, and a failed link counts as one that is no adjacency.
//! Not: that any router behaves so.
#![tactic(auto)]

mod crossings;
mod hops;
mod laws;
mod least_sums;

pub use hops::{is_next_hop, is_tight};
pub use laws::{
    law_of_approach, law_of_distance_list, law_of_ends, law_of_failed_links, law_of_held_links,
    law_of_hops, law_of_least_walks, law_of_more_failures, law_of_one_list, law_of_rests,
    law_of_size, law_of_slack_links,
};
pub use least_sums::distances;
