//! What has to hold: the properties of a book, and what each of them means.
//!
//! Decides: what a property file says, whether a property applies to a network, where traffic goes at a
//! labelling, and when a property holds there. Whether a property is certified, `certify` decides.
//! Its types of verdicts are what `certify` and `report_text` speak in.
//! Stands on: `toml_fields` and `toml` for the file, the definitions of `concrete_algebra` and
//! `failure_sets`, and lemmas of `ospf_paths`.
//! Promises: a file gives exactly its book or its first refusal, and a property is barred for the first
//! cause that stands. `specs/Meaning.antt` says when a property holds: whatever links that it permits have
//! failed, in every stable labelling; the laws of `specs/Laws.antt` and `specs/QuietLaws.antt` say what has
//! to come out of it. Not: that any property holds.
#![tactic(auto)]

mod applying;
mod book;
mod laws;
mod property;
mod verdict;

pub use applying::applicable;
pub use book::read_properties;
pub use laws::{
    law_of_fewer_failures, law_of_isolation, law_of_learned_labels, law_of_next_hops,
    law_of_owners, law_of_quiet_networks, law_of_reach, law_of_walks, law_of_waypoints,
};
pub use property::{Kind, Property};
pub use verdict::{Barred, Broken, Outcome, Verdict};
