//! A desk is made of stored rows.

ghost use Rattle.std.specs.Prelude.{◌≡◌, None, Err, IfOk, OnErr};
ghost use Rattle.desk_tables.specs.Valid.{IsValid};
ghost use Rattle.stored_rows.specs.Stored.{first_bad_row};
ghost use Rattle.review_rules.specs.Restoring.{Restores};

use crate::Desk;
use desk_tables::{KeptTable, Rows, User};
use net_types::{List, NoMemory};
use std::alloc::Global;
use stored_rows::{bytes_of, first_bad_row, index_of};

/// Why stored rows make no desk.
#[derive(Clone, Copy, PartialEq, Eq, Debug)]
pub enum RestoreRefusal {
    /// This row is not valid, the first in the first table that has one: the number of the table, and its own from 1.
    BadRow(u64, u64),
    /// There was no memory.
    NoMemory,
}

// The desk of valid rows.
fn valid_desk(alloc: Global, users: List<User>, rows: Rows) -> Result<Desk, NoMemory>
    requires { IsValid rows }
    ensures { IfOk result (λ desk. desk.state ≡ record { users = users; tables = rows }) }
{
    let bytes = bytes_of(&rows);
    let heads = index_of(alloc, rows.reviews.as_slice())?;
    let kept = KeptTable::of(alloc, rows.kept)?;
    Ok(Desk {
        users: users.into_vec(),
        policies: rows.policies.into_vec(),
        reviews: rows.reviews.into_vec(),
        files: rows.files.into_vec(),
        approvals: rows.approvals.into_vec(),
        certificates: rows.certificates.into_vec(),
        kept,
        heads,
        bytes,
        spare: 0,
    })
}

/// The desk of these users and rows. It goes once through each table.
///
/// # Errors
/// `BadRow` with the first row that is not valid, where there is one; `NoMemory` at any time.
pub fn restore(alloc: Global, users: List<User>, rows: Rows) -> Result<Desk, RestoreRefusal>
    ensures { Restores users rows result }
{
    match first_bad_row(alloc, &rows) {
        Ok(None) => match valid_desk(alloc, users, rows) {
            Ok(desk) => Ok(desk),
            Err(_) => Err(RestoreRefusal::NoMemory),
        },
        Ok(Some(bad)) => Err(RestoreRefusal::BadRow(bad.table, bad.row)),
        Err(_) => Err(RestoreRefusal::NoMemory),
    }
}
