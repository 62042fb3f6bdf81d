//! Why a line is refused.

use std::alloc::{AllocError, AllocFailed};

/// Why a line is refused: the first of this order that stands.
#[derive(Clone, Copy, PartialEq, Eq, Debug)]
pub enum LineRefusal {
    /// It has the head of no row of the line table.
    Unsupported,
    /// It has the head of a row that may not stand there.
    OutOfPlace,
    /// What follows the head does not fit the row.
    BadValue,
    /// What it sets is already set.
    Repeated,
    /// It adds the 65th entry of a list or a map.
    OutOfLimit,
    /// There was no memory.
    NoMemory,
}

impl From<AllocError> for LineRefusal {
    ghost use Rattle.std.specs.Prelude.{◌≡◌};
    ghost use Rattle.frr_policy.specs.declared.refusals.LineRefusal.TheVariants.{NoMemory};

    ghost from_gives = { λ _ refusal. refusal ≡ NoMemory };

    fn from(_error: AllocError) -> LineRefusal {
        LineRefusal::NoMemory
    }
}

impl<T: Drop> From<AllocFailed<T>> for LineRefusal {
    ghost use Rattle.std.specs.Prelude.{◌≡◌};
    ghost use Rattle.frr_policy.specs.declared.refusals.LineRefusal.TheVariants.{NoMemory};

    ghost from_gives = { λ _ refusal. refusal ≡ NoMemory };

    fn from(_error: AllocFailed<T>) -> LineRefusal {
        LineRefusal::NoMemory
    }
}
