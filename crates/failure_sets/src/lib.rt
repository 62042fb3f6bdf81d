//! The sets of links that may have failed at once, and the order in which they are tried.
//!
//! Decides: how many sets of at most three links there are, which stands at which place, and which set
//! comes behind another: fewer links first, then the lower numbers. The order is this project's own.
//! Stands on: `net_types` alone. It takes no memory, and keeps nothing between calls.
//! Promises: from the first set, the next goes through each permitted set once, in order, and there is none
//! behind the last; the count is their number, and the place of a set is its position. `specs/SetOrder.antt`
//! says which sets are permitted and which comes before, `specs/SetList.antt` lists them, and the laws,
//! stated in `specs/Laws.antt`, tie the list to the order.
#![tactic(auto)]

mod laws;
mod numbers;
mod walk;

pub use laws::{law_of_counts, law_of_fewer_links, law_of_next, law_of_places, law_of_the_list};
pub use numbers::{count, place};
pub use walk::{first, next};
