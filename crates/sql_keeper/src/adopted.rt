//! A keeper over an open connection.

ghost use Rattle.std.specs.Prelude.{◌≡◌, IfOk};

use crate::faults::{Faults, cause_of};
use crate::loading::load;
use crate::putting::commit;
use crate::tables::make_tables;
use desk_keeper::{Keeper, KeeperError};
use desk_tables::Rows;
use net_types::Text;
use review_rules::Change;
use sqlite::{Alter, Connection, Error};
use std::alloc::Global;
use std::marker::Model;

/// Keeps the tables in a database over any store. It does not tell them. It counts every statement that is refused,
/// and every value that does not fit its column, but no want of memory.
#[derive(Drop)]
pub struct AdoptedKeeper<S: Alter + Drop> {
    connection: Connection<S>,
    name: Option<Text>,
    faults: Faults,
}

impl<S: Alter + Drop> Model for AdoptedKeeper<S> {
    ghost use Rattle.sql_keeper.specs.Opened.{KeeperValue};

    ghost Value = { KeeperValue };

    ghost view = { λ it. record { name = it.name; faults = it.faults } };
}

impl<S: Alter + Drop> AdoptedKeeper<S> {
    ghost use Rattle.std.specs.Prelude.{◌≡◌, None};

    /// The keeper over this connection, with a count of 0. It is not open, and no table is made yet.
    pub fn adopt(connection: Connection<S>) -> AdoptedKeeper<S>
        ensures { result ≡ record { name = None; faults = 0 } }
    {
        AdoptedKeeper {
            connection,
            name: None,
            faults: Faults::new(),
        }
    }

    /// The connection, which gives back the store.
    pub fn release(self) -> Connection<S> {
        self.connection
    }
}

// The name, once all tables are there.
fn opened<S: Alter>(
    alloc: Global,
    connection: &mut Connection<S>,
    name: &str,
) -> Result<Text, Error>
    ensures { IfOk result (λ text. text ≡ name.now) }
{
    make_tables(connection)?;
    Ok(Text::from_str(alloc, name)?)
}

impl<S: Alter + Drop> Keeper for AdoptedKeeper<S> {
    ghost use Rattle.std.specs.Prelude.{None};

    ghost faults = { λ k. k.faults };

    ghost opened = { λ k. k.name };

    ghost tables = { λ _. None };

    /// Makes the tables that are missing. It opens no file: the name is that of the connection, whatever it is.
    fn open(&mut self, alloc: Global, name: &str) -> Result<(), KeeperError> {
        self.name = None;
        match opened(alloc, &mut self.connection, name) {
            Ok(name) => {
                self.name = Some(name);
                Ok(())
            }
            Err(error) => Err(self.faults.refused(cause_of(&error))),
        }
    }

    fn load(&mut self, alloc: Global) -> Result<Rows, KeeperError> {
        match load(alloc, &mut self.connection) {
            Ok(rows) => Ok(rows),
            Err(error) => Err(self.faults.refused(cause_of(&error))),
        }
    }

    fn commit(&mut self, _alloc: Global, change: &Change) -> Result<(), KeeperError> {
        match commit(&mut self.connection, change) {
            Ok(()) => Ok(()),
            Err(error) => Err(self.faults.refused(cause_of(&error))),
        }
    }
}
