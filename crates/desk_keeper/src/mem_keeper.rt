//! A keeper in memory.

ghost use Rattle.std.specs.Prelude.{◌≡◌, IfOk, None, Some};

use crate::copies::{copy_change, copy_rows};
use crate::making::make;
use crate::tables::Tables;
use crate::{Keeper, KeeperError};
use desk_tables::Rows;
use net_types::{NoMemory, Text};
use outside::Calls;
use review_rules::Change;
use std::alloc::Global;
use std::marker::Model;

/// A keeper in memory, whose tables are in key order. Its calls are counted from 1, and those that are to fail do; at
/// them alone its count of faults rises.
#[derive(Debug, Drop)]
pub struct MemKeeper {
    calls: Calls,
    name: Option<Text>,
    tables: Tables,
}

impl Model for MemKeeper {
    ghost use Rattle.desk_keeper.specs.Memory.{KeeperValue, AreInOrder};

    ghost Value = { KeeperValue };

    ghost view = { λ k. record { calls = k.calls; name = k.name; rows = k.tables } };

    ghost invariant = { λ k. AreInOrder k.tables };
}

impl MemKeeper {
    ghost use Rattle.desk_keeper.specs.Memory.{AreInOrder};

    /// A keeper of these tables, of which the calls with the numbers in `failing` fail. It is not open.
    pub fn new(alloc: Global, rows: Rows, failing: &[u64]) -> Result<MemKeeper, NoMemory>
        requires { AreInOrder rows }
        ensures { IfOk result (λ keeper. keeper ≡ record { calls = record { next = Some 1; failing = failing.now; faults = 0 }; name = None; rows = rows }) }
    {
        Ok(MemKeeper {
            calls: Calls::new(alloc, failing)?,
            name: None,
            tables: Tables::of(alloc, rows)?,
        })
    }

    /// A copy of the tables.
    pub fn rows(&self, alloc: Global) -> Result<Rows, NoMemory>
        ensures { IfOk result (λ rows. rows ≡ self.now.rows) }
    {
        copy_rows(alloc, &self.tables)
    }
}

impl Keeper for MemKeeper {
    ghost use Rattle.std.specs.Prelude.{◌≡◌, ◌≢◌, None, Some, IfOk, OnOk, OnErr};
    ghost use Rattle.std.specs.Option.{option_map};
    ghost use Rattle.outside.specs.Calls.{begun};
    ghost use Rattle.review_rules.specs.Changes.{made};
    ghost use Rattle.desk_keeper.specs.Keeping.{Agrees, HasCause};
    ghost use Rattle.desk_keeper.specs.Memory.{FailsExactly};

    ghost faults = { λ k. k.calls.faults };

    ghost opened = { λ k. k.name };

    ghost tables = { λ k. Some k.rows };

    fn open(&mut self, alloc: Global, name: &str) -> Result<(), KeeperError>
        ensures answer { FailsExactly self.old.calls result }
        ensures counted { self.new.calls ≡ begun self.old.calls }
        ensures cause { HasCause self.old.calls.faults self.new.calls.faults result }
        ensures named { OnOk result (self.new.name ≡ Some name.now) }
        ensures shut { OnErr result (self.new.name ≡ None) }
        ensures same { Some self.new.rows ≡ Some self.old.rows }
    {
        self.name = None;
        self.calls.begin()?;
        self.name = Some(Text::from_str(alloc, name)?);
        Ok(())
    }

    fn load(&mut self, alloc: Global) -> Result<Rows, KeeperError>
        requires { self.old.name ≢ None }
        ensures answer { FailsExactly self.old.calls result }
        ensures counted { self.new.calls ≡ begun self.old.calls }
        ensures cause { HasCause self.old.calls.faults self.new.calls.faults result }
        ensures stays { self.new.name ≡ self.old.name }
        ensures same { Some self.new.rows ≡ Some self.old.rows }
        ensures told { IfOk result (λ rows. Agrees (Some self.old.rows) rows) }
    {
        self.calls.begin()?;
        Ok(copy_rows(alloc, &self.tables)?)
    }

    fn commit(&mut self, alloc: Global, change: &Change) -> Result<(), KeeperError>
        requires { self.old.name ≢ None }
        ensures answer { FailsExactly self.old.calls result }
        ensures counted { self.new.calls ≡ begun self.old.calls }
        ensures cause { HasCause self.old.calls.faults self.new.calls.faults result }
        ensures stays { self.new.name ≡ self.old.name }
        ensures made { OnOk result (Some self.new.rows ≡ option_map (made change.now) (Some self.old.rows)) }
        ensures same { OnErr result (Some self.new.rows ≡ Some self.old.rows) }
    {
        self.calls.begin()?;
        let change = copy_change(alloc, change)?;
        make(alloc, &mut self.tables, change)?;
        Ok(())
    }
}
