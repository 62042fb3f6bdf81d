//! The tables, and the version of their form.

use sqlite::{Alter, Connection, Error, ErrorCode, Row, Transaction, params};

// The version of the tables.
const VERSION: i64 = 1;

// Each table with its key, made where it is missing. `missing` is -1 where no property is.
const TABLES: &str = "CREATE TABLE IF NOT EXISTS schema (
    version INTEGER NOT NULL PRIMARY KEY
) STRICT;
CREATE TABLE IF NOT EXISTS policy (
    version INTEGER NOT NULL PRIMARY KEY,
    approvals INTEGER NOT NULL,
    book BLOB NOT NULL
) STRICT;
CREATE TABLE IF NOT EXISTS review (
    id INTEGER NOT NULL PRIMARY KEY,
    author TEXT NOT NULL,
    title TEXT NOT NULL,
    base INTEGER NOT NULL,
    state INTEGER NOT NULL,
    head INTEGER NOT NULL
) STRICT;
CREATE TABLE IF NOT EXISTS file (
    review INTEGER NOT NULL,
    name TEXT NOT NULL,
    body BLOB NOT NULL,
    PRIMARY KEY (review, name)
) STRICT;
CREATE TABLE IF NOT EXISTS approval (
    review INTEGER NOT NULL,
    user TEXT NOT NULL,
    PRIMARY KEY (review, user)
) STRICT;
CREATE TABLE IF NOT EXISTS certificate (
    review INTEGER NOT NULL PRIMARY KEY,
    policy INTEGER NOT NULL,
    missing INTEGER NOT NULL,
    report BLOB NOT NULL
) STRICT;
CREATE TABLE IF NOT EXISTS kept (
    user TEXT NOT NULL,
    \"key\" TEXT NOT NULL,
    kind INTEGER NOT NULL,
    target INTEGER NOT NULL,
    reply BLOB NOT NULL,
    PRIMARY KEY (user, \"key\")
) STRICT;
";

/// A transaction, where none is begun.
pub fn begun<S: Alter>(connection: &mut Connection<S>) -> Result<Transaction<'_, S>, Error> {
    if connection.is_autocommit() {
        return Ok(connection.transaction());
    }
    Err(Error::SqliteFailure(ErrorCode::TransactionState))
}

/// Makes the tables that are missing, all or none.
pub fn make_tables<S: Alter>(connection: &mut Connection<S>) -> Result<(), Error> {
    let mut tx = begun(connection)?;
    tx.execute_batch(TABLES)?;
    note_version(&mut tx)?;
    tx.commit()
}

// Notes the version in a database that has none yet; another version than the present one does not fit.
fn note_version<S: Alter>(tx: &mut Transaction<'_, S>) -> Result<(), Error> {
    let rows = tx.query_all("SELECT version FROM schema", &[])?;
    if rows.is_empty() {
        tx.execute("INSERT INTO schema (version) VALUES (?1)", params![VERSION])?;
        return Ok(());
    }
    if rows.len() == 1 && is_present(&rows[0])? {
        return Ok(());
    }
    Err(Error::IntegralValueOutOfRange(0))
}

fn is_present(row: &Row) -> Result<bool, Error> {
    let version: i64 = row.get(0)?;
    Ok(version == VERSION)
}
