//! Keepers over databases hold what the keeper in memory holds, which is proved to make each change.

use crate::asserting::holds;
use crate::changes::{changes, no_rows, refused};
use desk_keeper::{Keeper, KeeperError, MemKeeper};
use desk_tables::Rows;
use review_rules::Change;
use sql_keeper::{AdoptedKeeper, SqlKeeper};
use sqlite::Connection;
use std::alloc::{AllocError, Global};
use std::fs;
use std::test::Fail;

const NAME: &str = "desk.db";

// The log that stands beside the file.
const LOG: &str = "desk.db-wal";

// Opens the tables of a name, and makes changes.
fn keep<K: Keeper>(
    alloc: Global,
    keeper: &mut K,
    name: &str,
    changes: &[Change],
) -> Result<(), KeeperError> {
    keeper.open(alloc, name)?;
    for change in changes {
        keeper.commit(alloc, change)?;
    }
    Ok(())
}

// Opens the tables of a name, and says whether each of these changes is refused by a fault.
fn are_refused<K: Keeper>(
    alloc: Global,
    keeper: &mut K,
    name: &str,
    changes: &[Change],
) -> Result<bool, KeeperError> {
    keeper.open(alloc, name)?;
    let mut all = true;
    for change in changes {
        all = all && matches!(keeper.commit(alloc, change), Err(KeeperError::Failed));
    }
    Ok(all)
}

// The tables of a name.
fn loaded<K: Keeper>(alloc: Global, keeper: &mut K, name: &str) -> Result<Rows, KeeperError> {
    keeper.open(alloc, name)?;
    keeper.load(alloc)
}

fn shown(alloc: Global, rows: &Rows) -> Result<String, AllocError> {
    format!(in alloc; "{rows:?}")
}

// Makes the changes over a keeper, and says whether it refuses those that are to be refused.
fn fill<K: Keeper>(alloc: Global, keeper: &mut K) -> Result<bool, Fail> {
    keep(alloc, keeper, NAME, &changes(alloc)?)?;
    Ok(are_refused(alloc, keeper, NAME, &refused(alloc)?)?)
}

// The tables that a keeper finds, shown.
fn found<K: Keeper>(alloc: Global, keeper: &mut K) -> Result<String, Fail> {
    let rows = loaded(alloc, keeper, NAME)?;
    Ok(shown(alloc, &rows)?)
}

// The tables that the changes make, shown.
fn wanted(alloc: Global) -> Result<String, Fail> {
    let mut keeper = MemKeeper::new(alloc, no_rows(alloc), &[])?;
    keep(alloc, &mut keeper, NAME, &changes(alloc)?)?;
    Ok(shown(alloc, &keeper.rows(alloc)?)?)
}

fn filled_file(rt: &HostRuntime) -> Result<bool, Fail> {
    let mut keeper = SqlKeeper::new(rt.clone()?);
    fill(rt.alloc(), &mut keeper)
}

fn found_in_file(rt: &HostRuntime) -> Result<String, Fail> {
    let mut keeper = SqlKeeper::new(rt.clone()?);
    found(rt.alloc(), &mut keeper)
}

#[test]
fn changes_over_a_file(rt: HostRuntime) -> Result<(), Fail> {
    // Of an earlier run.
    let _ = fs::remove_file(&rt, NAME);
    let _ = fs::remove_file(&rt, LOG);
    holds(&rt, filled_file(&rt)?);
    let wanted = wanted(rt.alloc())?;
    holds(&rt, found_in_file(&rt)? == wanted);
    Ok(())
}

#[test]
fn changes_over_a_connection(rt: HostRuntime) -> Result<(), Fail> {
    let alloc = rt.alloc();
    let wanted = wanted(alloc)?;
    let mut first = AdoptedKeeper::adopt(Connection::open_in_memory(alloc)?);
    holds(&rt, fill(alloc, &mut first)?);
    let mut second = AdoptedKeeper::adopt(first.release());
    holds(&rt, found(alloc, &mut second)? == wanted);
    Ok(())
}
