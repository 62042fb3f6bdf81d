//! What a router does with a route, and when a labelling is stable.
//!
//! Decides: what route maps, exports and imports make of a route, what a router originates, which of two
//! routes is better, and the least router where a labelling breaks. What they make of a route that is
//! known only in part, `abstract_maps` decides.
//! Stands on: `net_types` alone. It takes memory for routes, and keeps nothing between calls.
//! Promises: each answer is the one of `specs/`, for every network. The laws of `specs/Laws.antt` and
//! `specs/Chains.antt` say how a path grows from router to router, those of `specs/Origins.antt` what holds
//! where nobody originates a route, and those of `specs/Readings.antt` say rules once more in other words.
//! Not: that a stable labelling exists.
#![tactic(auto)]

mod asked;
mod candidates;
mod carrying;
mod findings;
mod laws;
mod local_routes;
mod maps;
mod matches;
mod orders;
mod paths;
mod sets;
mod stability;

pub use carrying::{export, holds_value, import, is_kept_home};
pub use laws::{
    law_of_candidates, law_of_chains, law_of_deletes, law_of_entries, law_of_local_routes,
    law_of_origins, law_of_routes, law_of_routing,
};
pub use local_routes::local_route;
pub use maps::{map_entries, run_map};
pub use matches::{community_entries, prefixes_match};
pub use orders::better;
pub use sets::{deleted_by, with_set, without_deleted};
pub use stability::{StableAnswer, check_stable};
