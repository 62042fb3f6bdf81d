//! What counts as a fault.

ghost use Rattle.std.specs.Prelude.{◌≡◌, ◌↔◌};

use desk_keeper::KeeperError;
use sqlite::{Error, ErrorCode};
use std::marker::Model;

/// How many faults there were. The count stands still at the greatest `u64`.
#[derive(Drop)]
pub struct Faults {
    count: u64,
}

impl Model for Faults {
    ghost use Rattle.std.specs.Prelude.{ℕ};

    ghost Value = { ℕ };

    ghost view = { λ it. it.count };
}

impl Faults {
    ghost use Rattle.std.specs.Prelude.{◌≡◌};
    ghost use Rattle.desk_keeper.specs.Keeping.{IsRefusal};

    /// None yet.
    pub fn new() -> Faults
        ensures { result ≡ 0 }
    {
        Faults { count: 0 }
    }

    /// The same cause, which is counted where it is a fault.
    pub fn refused(&mut self, error: KeeperError) -> KeeperError
        ensures cause { IsRefusal self.old self.new result }
        ensures same { result ≡ error }
    {
        match error {
            KeeperError::Failed => {
                self.count = self.count.saturating_add(1);
                KeeperError::Failed
            }
            KeeperError::NoMemory => KeeperError::NoMemory,
        }
    }
}

/// Why a statement was refused: for want of memory, or by a fault.
pub fn cause_of(error: &Error) -> KeeperError
    ensures { (result ≡ KeeperError.NoMemory) ↔ (error.now ≡ Error.SqliteFailure ErrorCode.OutOfMemory) }
{
    match *error {
        Error::SqliteFailure(ErrorCode::OutOfMemory) => KeeperError::NoMemory,
        _ => KeeperError::Failed,
    }
}
