//! A keeper over a file.

ghost use Rattle.std.specs.Prelude.{◌≡◌, IfOk, None, Some};

use crate::AdoptedKeeper;
use crate::faults::{Faults, cause_of};
use desk_keeper::{Keeper, KeeperError};
use desk_tables::Rows;
use review_rules::Change;
use sqlite::{Connection, File, FileStore};
use std::alloc::Global;

/// Keeps the tables in the file of its name. It does not tell them, and counts what [`AdoptedKeeper`] counts, and a
/// file that is not opened.
#[derive(Drop)]
pub struct SqlKeeper {
    machine: HostRuntime,
    keeper: Option<AdoptedKeeper<FileStore<File>>>,
    faults: Faults,
}

impl SqlKeeper {
    /// The keeper over the files of the machine, with a count of 0. It is not open.
    pub fn new(machine: HostRuntime) -> SqlKeeper
        ensures keeper { result.keeper ≡ None }
        ensures faults { result.faults ≡ 0 }
    {
        SqlKeeper {
            machine,
            keeper: None,
            faults: Faults::new(),
        }
    }
}

// The keeper over the file of this name, with its tables.
fn opened(
    machine: &HostRuntime,
    alloc: Global,
    name: &str,
) -> Result<AdoptedKeeper<FileStore<File>>, KeeperError>
    ensures { IfOk result (λ keeper. keeper.name ≡ Some name.now) }
{
    let connection = match Connection::open(machine, name) {
        Ok(connection) => connection,
        Err(error) => return Err(cause_of(&error)),
    };
    let mut keeper = AdoptedKeeper::adopt(connection);
    keeper.open(alloc, name)?;
    Ok(keeper)
}

impl Keeper for SqlKeeper {
    ghost use Rattle.std.specs.Prelude.{None};
    ghost use Rattle.sql_keeper.specs.Opened.{opened_in};

    ghost faults = { λ k. k.faults };

    ghost opened = { λ k. opened_in k.keeper };

    ghost tables = { λ _. None };

    fn open(&mut self, alloc: Global, name: &str) -> Result<(), KeeperError> {
        // One handle alone has a file open, so the file before is let go first.
        self.keeper = None;
        match opened(&self.machine, alloc, name) {
            Ok(keeper) => {
                self.keeper = Some(keeper);
                Ok(())
            }
            Err(error) => Err(self.faults.refused(error)),
        }
    }

    fn load(&mut self, alloc: Global) -> Result<Rows, KeeperError> {
        let Some(keeper) = &mut self.keeper else {
            return Err(self.faults.refused(KeeperError::Failed));
        };
        match keeper.load(alloc) {
            Ok(rows) => Ok(rows),
            Err(error) => Err(self.faults.refused(error)),
        }
    }

    fn commit(&mut self, alloc: Global, change: &Change) -> Result<(), KeeperError> {
        let Some(keeper) = &mut self.keeper else {
            return Err(self.faults.refused(KeeperError::Failed));
        };
        match keeper.commit(alloc, change) {
            Ok(()) => Ok(()),
            Err(error) => Err(self.faults.refused(error)),
        }
    }
}
