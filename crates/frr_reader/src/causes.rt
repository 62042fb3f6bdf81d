//! Why a line is refused.

use std::alloc::{AllocError, AllocFailed};

/// Why a line is refused. The first of this order that stands is the line's cause.
#[derive(Clone, Copy, PartialEq, Eq, Debug)]
pub enum Cause {
    /// It holds a control byte other than a tab.
    NotText,
    /// It is too long.
    LineTooLong,
    /// It has the head of no row.
    Unsupported,
    /// It has the head of a row, and of none that may stand there, or is of a neighbor before its `remote-as`.
    OutOfPlace,
    /// What follows the head does not fit the row.
    BadValue,
    /// What it sets is already set.
    Repeated,
    /// It adds the 65th entry of a list or a map, or reaches past the greatest size of a file.
    OutOfLimit,
}

/// Why a line is not taken.
#[derive(Clone, Copy, PartialEq, Eq, Debug)]
pub enum LineRefusal {
    /// It is refused.
    Refused(Cause),
    /// There was no memory.
    NoMemory,
}

/// What follows the head does not fit the row.
pub const BAD_VALUE: LineRefusal = LineRefusal::Refused(Cause::BadValue);
/// The line stands where its row may not, or before its neighbor's `remote-as`.
pub const OUT_OF_PLACE: LineRefusal = LineRefusal::Refused(Cause::OutOfPlace);
/// What the line sets is already set.
pub const REPEATED: LineRefusal = LineRefusal::Refused(Cause::Repeated);

impl From<AllocError> for LineRefusal {
    ghost use Rattle.std.specs.Prelude.{◌≡◌};
    ghost use Rattle.frr_reader.specs.declared.causes.LineRefusal.TheVariants.{NoMemory};

    ghost from_gives = { λ _ refusal. refusal ≡ NoMemory };

    fn from(_error: AllocError) -> LineRefusal {
        LineRefusal::NoMemory
    }
}

impl<T: Drop> From<AllocFailed<T>> for LineRefusal {
    ghost use Rattle.std.specs.Prelude.{◌≡◌};
    ghost use Rattle.frr_reader.specs.declared.causes.LineRefusal.TheVariants.{NoMemory};

    ghost from_gives = { λ _ refusal. refusal ≡ NoMemory };

    fn from(_error: AllocFailed<T>) -> LineRefusal {
        LineRefusal::NoMemory
    }
}
