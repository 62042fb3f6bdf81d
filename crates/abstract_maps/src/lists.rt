//! Community lists on a row.

ghost use Rattle.std.specs.Prelude.{◌≡◌};
ghost use Rattle.abstract_maps.specs.Statuses.{community_status, outcome_status, outcomes};

use crate::statuses::{Status, of_outcomes, on_values};
use abstract_route::Row;
use concrete_algebra::community_entries;
use net_types::{NetCommunityEntry, Router};

// Whether a permit, and whether a deny may decide the list.
#[tactic(auto, unfolding(crate::specs::Statuses::outcomes))]
fn outcomes(entries: &[NetCommunityEntry], row: &Row) -> (bool, bool)
    ensures permit { result.0 ≡ (outcomes entries.now row.now).permit }
    ensures deny { result.1 ≡ (outcomes entries.now row.now).deny }
{
    match entries.split_first() {
        None => (false, true),
        Some((first, later)) => match on_values(first.values, row) {
            Status::No => outcomes(later, row),
            Status::Yes => (first.permit, !first.permit),
            Status::Maybe => {
                let found = outcomes(later, row);
                (first.permit || found.0, !first.permit || found.1)
            }
        },
    }
}

fn on_list(entries: &[NetCommunityEntry], row: &Row) -> Status
    ensures { result ≡ outcome_status (outcomes entries.now row.now) }
{
    let found = outcomes(entries, row);
    of_outcomes(found.0, found.1)
}

// The match of the community list at the position, where one is named.
pub(crate) fn on_communities(router: &Router, position: Option<u32>, row: &Row) -> Status
    ensures { result ≡ community_status router.now position row.now }
{
    match position {
        None => Status::Yes,
        Some(position) => on_list(community_entries(router, position), row),
    }
}
