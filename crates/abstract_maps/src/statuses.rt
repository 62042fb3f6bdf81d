//! How a match stands to all routes of a row at once.

ghost use Rattle.std.specs.Prelude.{◌≡◌};
ghost use Rattle.abstract_maps.specs.Statuses.{outcome_status, values_status};

use abstract_route::Row;
use net_types::Bits64;

/// How a match stands to the routes of a row.
#[derive(Clone, Copy, PartialEq, Eq, Debug)]
pub enum Status {
    /// No route of the row matches.
    No,
    /// Some may match, and some may not.
    Maybe,
    /// Every route of the row matches.
    Yes,
}

// Whether the row's routes hold all of these communities.
pub(crate) fn on_values(values: Bits64, row: &Row) -> Status
    ensures { result ≡ values_status values row.now }
{
    if !values.is_part(row.has) {
        Status::No
    } else if values.common(row.lacks).is_empty() {
        Status::Yes
    } else {
        Status::Maybe
    }
}

// The status of a list, by whether a permit and whether a deny may decide it.
pub(crate) fn of_outcomes(may_permit: bool, may_deny: bool) -> Status
    ensures { result ≡ outcome_status (record { permit = may_permit; deny = may_deny }) }
{
    if !may_deny {
        Status::Yes
    } else if !may_permit {
        Status::No
    } else {
        Status::Maybe
    }
}
