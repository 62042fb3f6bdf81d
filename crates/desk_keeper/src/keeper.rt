//! Who keeps the tables.

ghost use Rattle.std.specs.Prelude.{◌≡◌, ◌≢◌, ℕ, Option, None, Some, List, IfOk, OnOk, OnErr};
ghost use Rattle.std.specs.Option.{option_map};
ghost use Rattle.desk_tables.specs.declared.rows.Rows.{Rows};
ghost use Rattle.review_rules.specs.Changes.{made};
ghost use Rattle.desk_keeper.specs.Keeping.{Agrees, HasCause};

use desk_tables::Rows;
use net_types::NoMemory;
use outside::Failed;
use review_rules::Change;
use std::alloc::{AllocError, Global};

/// Why a keeper did not do what it was asked.
#[derive(Clone, Copy, PartialEq, Eq, Debug)]
pub enum KeeperError {
    /// The keeper could not do it: a fault.
    Failed,
    /// There was no memory.
    NoMemory,
}

impl From<AllocError> for KeeperError {
    ghost use Rattle.std.specs.Prelude.{◌≡◌};
    ghost use Rattle.desk_keeper.specs.declared.keeper.KeeperError.TheVariants.{NoMemory};

    ghost from_gives = { λ _ error. error ≡ NoMemory };

    fn from(_error: AllocError) -> KeeperError {
        KeeperError::NoMemory
    }
}

impl From<NoMemory> for KeeperError {
    ghost use Rattle.std.specs.Prelude.{◌≡◌};
    ghost use Rattle.desk_keeper.specs.declared.keeper.KeeperError.TheVariants.{NoMemory};

    ghost from_gives = { λ _ error. error ≡ NoMemory };

    fn from(_error: NoMemory) -> KeeperError {
        KeeperError::NoMemory
    }
}

impl From<Failed> for KeeperError {
    ghost use Rattle.std.specs.Prelude.{◌≡◌};
    ghost use Rattle.desk_keeper.specs.declared.keeper.KeeperError.TheVariants.{Failed};

    ghost from_gives = { λ _ error. error ≡ Failed };

    fn from(_error: Failed) -> KeeperError {
        KeeperError::Failed
    }
}

/// Keeps the six tables under a name. A keeper has a count of faults, is open under a name or not, and may tell its
/// tables.
pub trait Keeper {
    ghost faults: { Self → ℕ };

    ghost opened: { Self → Option (List ℕ) };

    ghost tables: { Self → Option Rows };

    /// Opens the tables of this name.
    ///
    /// # Errors
    /// `Failed` only where the count of faults rose in this call, `NoMemory` at any time. The keeper is then not open.
    fn open(&mut self, alloc: Global, name: &str) -> Result<(), KeeperError>
        ensures cause { HasCause (faults self.old) (faults self.new) result }
        ensures named { OnOk result (opened self.new ≡ Some name.now) }
        ensures shut { OnErr result (opened self.new ≡ None) }
        ensures same { tables self.new ≡ tables self.old };

    /// The tables.
    ///
    /// # Errors
    /// `Failed` only where the count of faults rose in this call, `NoMemory` at any time.
    fn load(&mut self, alloc: Global) -> Result<Rows, KeeperError>
        requires { opened self.old ≢ None }
        ensures cause { HasCause (faults self.old) (faults self.new) result }
        ensures stays { opened self.new ≡ opened self.old }
        ensures same { tables self.new ≡ tables self.old }
        ensures told { IfOk result (λ rows. Agrees (tables self.old) rows) };

    /// Makes a change in the tables, wholly or not at all.
    ///
    /// # Errors
    /// `Failed` only where the count of faults rose in this call, `NoMemory` at any time. The tables are then as before.
    fn commit(&mut self, alloc: Global, change: &Change) -> Result<(), KeeperError>
        requires { opened self.old ≢ None }
        ensures cause { HasCause (faults self.old) (faults self.new) result }
        ensures stays { opened self.new ≡ opened self.old }
        ensures made { OnOk result (tables self.new ≡ option_map (made change.now) (tables self.old)) }
        ensures same { OnErr result (tables self.new ≡ tables self.old) };
}
