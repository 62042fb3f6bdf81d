//! Changes of each kind, and changes that are to be refused.

ghost use Rattle.desk_keeper.specs.Memory.{AreInOrder};

use desk_tables::{ApprovalRow, CertificateRow, FileRow, KeptRow, PolicyRow, ReviewRow, Rows};
use net_types::{List, Text};
use review_rules::{Change, ChangeKind};
use std::alloc::{AllocError, Global};

/// Tables without rows.
pub fn no_rows(alloc: Global) -> Rows
    ensures { AreInOrder result }
{
    Rows {
        policies: List::new(alloc),
        reviews: List::new(alloc),
        files: List::new(alloc),
        approvals: List::new(alloc),
        certificates: List::new(alloc),
        kept: List::new(alloc),
    }
}

fn bytes(alloc: Global, text: &str) -> Result<List<u8>, AllocError> {
    List::from_slice(alloc, text.as_bytes())
}

fn policy(alloc: Global, version: u64) -> Result<ChangeKind, AllocError> {
    Ok(ChangeKind::Policy(PolicyRow {
        version,
        approvals: 2,
        book: bytes(alloc, "# nothing\n")?,
    }))
}

fn file(alloc: Global, review: u64, name: &str, body: &str) -> Result<FileRow, AllocError> {
    Ok(FileRow {
        review,
        name: Text::from_str(alloc, name)?,
        body: bytes(alloc, body)?,
    })
}

// A review with two files.
fn review(alloc: Global, id: u64) -> Result<ChangeKind, AllocError> {
    let mut files = List::new(alloc);
    files.push(file(alloc, id, "r1", "hostname r1\n")?)?;
    files.push(file(alloc, id, "r2", "")?)?;
    let row = ReviewRow {
        id,
        author: Text::from_str(alloc, "ann")?,
        title: Text::from_str(alloc, "a 'ü' title")?,
        base: 0,
        state: 0,
        head: 0,
    };
    Ok(ChangeKind::Review(row, files))
}

fn certificate(
    alloc: Global,
    review: u64,
    missing: Option<u8>,
    report: &str,
) -> Result<ChangeKind, AllocError> {
    Ok(ChangeKind::Certificate(CertificateRow {
        review,
        policy: 1,
        missing,
        report: bytes(alloc, report)?,
    }))
}

fn approval(alloc: Global, review: u64, user: &str) -> Result<ChangeKind, AllocError> {
    Ok(ChangeKind::Approval(ApprovalRow {
        review,
        user: Text::from_str(alloc, user)?,
    }))
}

// The change with what is kept of it.
fn change(
    alloc: Global,
    kind: ChangeKind,
    (user, key): (&str, &str),
    (number, target): (u8, u64),
) -> Result<Change, AllocError> {
    let kept = KeptRow {
        user: Text::from_str(alloc, user)?,
        key: Text::from_str(alloc, key)?,
        kind: number,
        target,
        reply: bytes(alloc, "{}")?,
    };
    Ok(Change { kind, kept })
}

// Puts a change behind the others.
fn add(
    alloc: Global,
    all: &mut Vec<Change>,
    kind: ChangeKind,
    asked: (&str, &str),
    named: (u8, u64),
) -> Result<(), AllocError> {
    all.push(change(alloc, kind, asked, named)?)?;
    Ok(())
}

// The policy, and two reviews with their certificates; one is in place of another.
fn add_reviews(alloc: Global, all: &mut Vec<Change>) -> Result<(), AllocError> {
    add(alloc, all, policy(alloc, 1)?, ("root", "p"), (1, 1))?;
    add(alloc, all, review(alloc, 1)?, ("ann", "s2"), (2, 1))?;
    add(alloc, all, review(alloc, 2)?, ("ann", "s1"), (2, 2))?;
    let last = certificate(alloc, 2, Some(63), "first")?;
    add(alloc, all, last, ("ann", "c2"), (3, 2))?;
    let old = certificate(alloc, 1, Some(0), "old")?;
    add(alloc, all, old, ("ann", "c1"), (3, 1))?;
    let new = certificate(alloc, 1, None, "new")?;
    add(alloc, all, new, ("ann", "c3"), (3, 1))
}

// What becomes of the reviews.
fn add_ends(alloc: Global, all: &mut Vec<Change>) -> Result<(), AllocError> {
    add(
        alloc,
        all,
        approval(alloc, 1, "carl")?,
        ("carl", "a"),
        (4, 1),
    )?;
    add(alloc, all, approval(alloc, 1, "bob")?, ("bob", "a"), (4, 1))?;
    let merge = ChangeKind::Merge { review: 1, head: 1 };
    add(alloc, all, merge, ("ann", "m"), (5, 1))?;
    let withdraw = ChangeKind::Withdraw { review: 2 };
    add(alloc, all, withdraw, ("ann", "w"), (6, 2))
}

/// Changes of each kind, not all in the order of the keys of their tables.
pub fn changes(alloc: Global) -> Result<Vec<Change>, AllocError> {
    let mut all = Vec::new(alloc);
    add_reviews(alloc, &mut all)?;
    add_ends(alloc, &mut all)?;
    Ok(all)
}

/// Changes that no database takes that holds the others: a version that is there, a number that fits no column, reviews
/// that are not there, and a key that is kept, where nothing of the change stays.
pub fn refused(alloc: Global) -> Result<Vec<Change>, AllocError> {
    let mut all = Vec::new(alloc);
    add(alloc, &mut all, policy(alloc, 1)?, ("root", "q"), (1, 1))?;
    add(
        alloc,
        &mut all,
        policy(alloc, 1 << 63)?,
        ("root", "q"),
        (1, 1),
    )?;
    let merge = ChangeKind::Merge { review: 3, head: 2 };
    add(alloc, &mut all, merge, ("ann", "x"), (5, 3))?;
    let withdraw = ChangeKind::Withdraw { review: 3 };
    add(alloc, &mut all, withdraw, ("ann", "x"), (6, 3))?;
    add(alloc, &mut all, policy(alloc, 2)?, ("root", "p"), (1, 2))?;
    Ok(all)
}
