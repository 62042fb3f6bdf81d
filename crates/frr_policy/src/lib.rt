//! The lines of a configuration that say what is done with routes: prefix lists, community lists and
//! route maps.
//!
//! Decides: what the words of a line are, and what entry a line of a list or a map makes, or why it is
//! refused. Which line stands in which block of a file, `frr_reader` decides.
//! Stands on: `net_types` alone.
//! Promises: each reader answers the entry that the line's row makes, or the first refusal that stands
//! (`specs/PrefixLines.antt`, `specs/CommunityLines.antt`, and the table of `specs/MapLines.antt`); an
//! entry fits its list or map. Not: that the lists and maps that a line names are there.
#![tactic(auto)]

mod community_lines;
mod copies;
mod fronts;
mod laws;
mod line_words;
mod map_lines;
mod map_places;
mod map_rows;
mod map_steps;
mod numbering;
mod prefix_lines;
mod refusals;
mod values;

pub use community_lines::{CommunityLists, read_community_list_line};
pub use laws::{law_of_numbering, law_of_refusals};
// `words` beside `Words` would be one name twice in a module of their own.
pub use line_words::{Words, words_of as words};
pub use map_lines::{RouteMaps, read_map_line};
pub use map_steps::MapStep;
pub use numbering::Numbered;
pub use prefix_lines::{PrefixLists, read_prefix_list_line};
pub use refusals::LineRefusal;
