//! The rows of the tables, each table in the order of its keys.

use desk_tables::{ApprovalRow, CertificateRow, FileRow, KeptRow, PolicyRow, ReviewRow, Rows};
use net_types::{List, Text};
use sqlite::{Alter, Connection, Error, Row};
use std::alloc::Global;

/// All tables.
pub fn load<S: Alter>(alloc: Global, connection: &mut Connection<S>) -> Result<Rows, Error> {
    Ok(Rows {
        policies: policies(alloc, connection)?,
        reviews: reviews(alloc, connection)?,
        files: files(alloc, connection)?,
        approvals: approvals(alloc, connection)?,
        certificates: certificates(alloc, connection)?,
        kept: kept(alloc, connection)?,
    })
}

// ---- Values. One that does not fit is an error.

fn text(row: &Row, at: usize) -> Result<Text, Error> {
    Ok(Text::from_string(row.get(at)?))
}

fn bytes(row: &Row, at: usize) -> Result<List<u8>, Error> {
    Ok(List::from_vec(row.get(at)?))
}

fn small(number: i64, at: usize) -> Result<u8, Error> {
    match u8::try_from(number) {
        Ok(small) => Ok(small),
        Err(_) => Err(Error::IntegralValueOutOfRange(at)),
    }
}

fn byte(row: &Row, at: usize) -> Result<u8, Error> {
    let number: i64 = row.get(at)?;
    small(number, at)
}

// The position of a property, or -1 for none.
fn position(row: &Row, at: usize) -> Result<Option<u8>, Error> {
    let number: i64 = row.get(at)?;
    if number == -1 {
        return Ok(None);
    }
    Ok(Some(small(number, at)?))
}

// ---- Rows.

fn policy_of(row: &Row) -> Result<PolicyRow, Error> {
    Ok(PolicyRow {
        version: row.get(0)?,
        approvals: row.get(1)?,
        book: bytes(row, 2)?,
    })
}

fn review_of(row: &Row) -> Result<ReviewRow, Error> {
    Ok(ReviewRow {
        id: row.get(0)?,
        author: text(row, 1)?,
        title: text(row, 2)?,
        base: row.get(3)?,
        state: byte(row, 4)?,
        head: row.get(5)?,
    })
}

fn file_of(row: &Row) -> Result<FileRow, Error> {
    Ok(FileRow {
        review: row.get(0)?,
        name: text(row, 1)?,
        body: bytes(row, 2)?,
    })
}

fn approval_of(row: &Row) -> Result<ApprovalRow, Error> {
    Ok(ApprovalRow {
        review: row.get(0)?,
        user: text(row, 1)?,
    })
}

fn certificate_of(row: &Row) -> Result<CertificateRow, Error> {
    Ok(CertificateRow {
        review: row.get(0)?,
        policy: row.get(1)?,
        missing: position(row, 2)?,
        report: bytes(row, 3)?,
    })
}

fn kept_of(row: &Row) -> Result<KeptRow, Error> {
    Ok(KeptRow {
        user: text(row, 0)?,
        key: text(row, 1)?,
        kind: byte(row, 2)?,
        target: row.get(3)?,
        reply: bytes(row, 4)?,
    })
}

// ---- Tables.

fn policies<S: Alter>(
    alloc: Global,
    connection: &mut Connection<S>,
) -> Result<List<PolicyRow>, Error> {
    let mut all = List::new(alloc);
    let sql = "SELECT version, approvals, book FROM policy ORDER BY version";
    for row in &connection.query_all(sql, &[])? {
        all.push(policy_of(row)?)?;
    }
    Ok(all)
}

fn reviews<S: Alter>(
    alloc: Global,
    connection: &mut Connection<S>,
) -> Result<List<ReviewRow>, Error> {
    let mut all = List::new(alloc);
    let sql = "SELECT id, author, title, base, state, head FROM review ORDER BY id";
    for row in &connection.query_all(sql, &[])? {
        all.push(review_of(row)?)?;
    }
    Ok(all)
}

fn files<S: Alter>(alloc: Global, connection: &mut Connection<S>) -> Result<List<FileRow>, Error> {
    let mut all = List::new(alloc);
    let sql = "SELECT review, name, body FROM file ORDER BY review, name";
    for row in &connection.query_all(sql, &[])? {
        all.push(file_of(row)?)?;
    }
    Ok(all)
}

fn approvals<S: Alter>(
    alloc: Global,
    connection: &mut Connection<S>,
) -> Result<List<ApprovalRow>, Error> {
    let mut all = List::new(alloc);
    let sql = "SELECT review, user FROM approval ORDER BY review, user";
    for row in &connection.query_all(sql, &[])? {
        all.push(approval_of(row)?)?;
    }
    Ok(all)
}

fn certificates<S: Alter>(
    alloc: Global,
    connection: &mut Connection<S>,
) -> Result<List<CertificateRow>, Error> {
    let mut all = List::new(alloc);
    let sql = "SELECT review, policy, missing, report FROM certificate ORDER BY review";
    for row in &connection.query_all(sql, &[])? {
        all.push(certificate_of(row)?)?;
    }
    Ok(all)
}

fn kept<S: Alter>(alloc: Global, connection: &mut Connection<S>) -> Result<List<KeptRow>, Error> {
    let mut all = List::new(alloc);
    let sql = "SELECT user, \"key\", kind, target, reply FROM kept ORDER BY user, \"key\"";
    for row in &connection.query_all(sql, &[])? {
        all.push(kept_of(row)?)?;
    }
    Ok(all)
}
