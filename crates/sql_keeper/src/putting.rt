//! A change as statements.

use crate::tables::begun;
use desk_tables::{ApprovalRow, CertificateRow, FileRow, KeptRow, PolicyRow, ReviewRow};
use net_types::List;
use review_rules::{Change, ChangeKind};
use sqlite::{Alter, Connection, Error, Transaction, params};

/// Makes a change with what is kept of it, wholly or not at all.
pub fn commit<S: Alter>(connection: &mut Connection<S>, change: &Change) -> Result<(), Error> {
    let mut tx = begun(connection)?;
    put(&mut tx, &change.kind)?;
    put_kept(&mut tx, &change.kept)?;
    tx.commit()
}

fn put<S: Alter>(tx: &mut Transaction<'_, S>, kind: &ChangeKind) -> Result<(), Error> {
    match kind {
        ChangeKind::Policy(row) => put_policy(tx, row),
        ChangeKind::Review(row, files) => put_review(tx, row, files),
        ChangeKind::Certificate(row) => put_certificate(tx, row),
        ChangeKind::Approval(row) => put_approval(tx, row),
        ChangeKind::Merge { review, head } => merge(tx, *review, *head),
        ChangeKind::Withdraw { review } => withdraw(tx, *review),
    }
}

// The number as a column holds it. One past its greatest does not fit.
fn number(value: u64) -> Result<i64, Error> {
    match i64::try_from(value) {
        Ok(number) => Ok(number),
        Err(_) => Err(Error::IntegralValueOutOfRange(0)),
    }
}

fn put_policy<S: Alter>(tx: &mut Transaction<'_, S>, row: &PolicyRow) -> Result<(), Error> {
    let (version, approvals) = (number(row.version)?, number(row.approvals)?);
    tx.execute(
        "INSERT INTO policy (version, approvals, book) VALUES (?1, ?2, ?3)",
        params![version, approvals, row.book.as_slice()],
    )?;
    Ok(())
}

fn put_review<S: Alter>(
    tx: &mut Transaction<'_, S>,
    row: &ReviewRow,
    files: &List<FileRow>,
) -> Result<(), Error> {
    let (id, base, head) = (number(row.id)?, number(row.base)?, number(row.head)?);
    let (author, title) = (row.author.as_str(), row.title.as_str());
    tx.execute(
        "INSERT INTO review (id, author, title, base, state, head) VALUES (?1, ?2, ?3, ?4, ?5, ?6)",
        params![id, author, title, base, i64::from(row.state), head],
    )?;
    for file in files.as_slice() {
        put_file(tx, file)?;
    }
    Ok(())
}

fn put_file<S: Alter>(tx: &mut Transaction<'_, S>, row: &FileRow) -> Result<(), Error> {
    let review = number(row.review)?;
    tx.execute(
        "INSERT INTO file (review, name, body) VALUES (?1, ?2, ?3)",
        params![review, row.name.as_str(), row.body.as_slice()],
    )?;
    Ok(())
}

// In place of one of the same review.
fn put_certificate<S: Alter>(
    tx: &mut Transaction<'_, S>,
    row: &CertificateRow,
) -> Result<(), Error> {
    let (review, policy) = (number(row.review)?, number(row.policy)?);
    let missing = match row.missing {
        Some(position) => i64::from(position),
        None => -1,
    };
    tx.execute(
        "INSERT OR REPLACE INTO certificate (review, policy, missing, report) VALUES (?1, ?2, ?3, ?4)",
        params![review, policy, missing, row.report.as_slice()],
    )?;
    Ok(())
}

fn put_approval<S: Alter>(tx: &mut Transaction<'_, S>, row: &ApprovalRow) -> Result<(), Error> {
    let review = number(row.review)?;
    tx.execute(
        "INSERT INTO approval (review, user) VALUES (?1, ?2)",
        params![review, row.user.as_str()],
    )?;
    Ok(())
}

fn merge<S: Alter>(tx: &mut Transaction<'_, S>, review: u64, head: u64) -> Result<(), Error> {
    let (review, head) = (number(review)?, number(head)?);
    let changed = tx.execute(
        "UPDATE review SET state = 1, head = ?2 WHERE id = ?1",
        params![review, head],
    )?;
    just_one(changed)
}

fn withdraw<S: Alter>(tx: &mut Transaction<'_, S>, review: u64) -> Result<(), Error> {
    let review = number(review)?;
    let changed = tx.execute("UPDATE review SET state = 2 WHERE id = ?1", params![review])?;
    just_one(changed)
}

// A review that is not there is not changed.
fn just_one(changed: usize) -> Result<(), Error> {
    if changed == 1 {
        return Ok(());
    }
    Err(Error::QueryReturnedNoRows)
}

fn put_kept<S: Alter>(tx: &mut Transaction<'_, S>, row: &KeptRow) -> Result<(), Error> {
    let (kind, target) = (i64::from(row.kind), number(row.target)?);
    tx.execute(
        "INSERT INTO kept (user, \"key\", kind, target, reply) VALUES (?1, ?2, ?3, ?4, ?5)",
        params![
            row.user.as_str(),
            row.key.as_str(),
            kind,
            target,
            row.reply.as_slice()
        ],
    )?;
    Ok(())
}
