//! Stored rows of a case.

use crate::words::{Numbered, cut_number, cut_word};
use desk_tables::{ApprovalRow, CertificateRow, FileRow, KeptRow, PolicyRow, ReviewRow, Rows};
use net_types::{List, NoMemory, Text};
use std::alloc::Global;

/// Tables without rows.
pub fn no_rows(alloc: Global) -> Rows {
    Rows {
        policies: List::new(alloc),
        reviews: List::new(alloc),
        files: List::new(alloc),
        approvals: List::new(alloc),
        certificates: List::new(alloc),
        kept: List::new(alloc),
    }
}

fn text(alloc: Global, text: &str) -> Result<Text, NoMemory> {
    Ok(Text::from_str(alloc, text)?)
}

fn bytes(alloc: Global, text: &str) -> Result<List<u8>, NoMemory> {
    Ok(List::from_slice(alloc, text.as_bytes())?)
}

// A number of 8 bits, and the rest.
fn cut_byte(line: &str) -> Option<(u8, &str)> {
    let (number, rest) = cut_number(line)?;
    Some((u8::try_from(number).ok()?, rest))
}

/// The position of a missing property, or `-`, and the rest.
pub fn cut_missing(line: &str) -> Option<(Option<u8>, &str)> {
    match cut_word(line) {
        ("-", rest) => Some((None, rest)),
        _ => {
            let (missing, rest) = cut_byte(line)?;
            Some((Some(missing), rest))
        }
    }
}

fn policy(alloc: Global, line: &str) -> Result<Option<PolicyRow>, NoMemory> {
    let Some((version, rest)) = cut_number(line) else {
        return Ok(None);
    };
    let Some((approvals, book)) = cut_number(rest) else {
        return Ok(None);
    };
    let book = bytes(alloc, book)?;
    Ok(Some(PolicyRow {
        version,
        approvals,
        book,
    }))
}

// Base, state, head and title of a review.
fn review_by(
    alloc: Global,
    id: u64,
    author: &str,
    line: &str,
) -> Result<Option<ReviewRow>, NoMemory> {
    let Some((base, rest)) = cut_number(line) else {
        return Ok(None);
    };
    let Some((state, rest)) = cut_byte(rest) else {
        return Ok(None);
    };
    let Some((head, title)) = cut_number(rest) else {
        return Ok(None);
    };
    Ok(Some(ReviewRow {
        id,
        author: text(alloc, author)?,
        title: text(alloc, title)?,
        base,
        state,
        head,
    }))
}

fn review(alloc: Global, line: &str) -> Result<Option<ReviewRow>, NoMemory> {
    let Some((id, rest)) = cut_number(line) else {
        return Ok(None);
    };
    let (author, rest) = cut_word(rest);
    review_by(alloc, id, author, rest)
}

fn file(alloc: Global, line: &str) -> Result<Option<FileRow>, NoMemory> {
    let Some((review, rest)) = cut_number(line) else {
        return Ok(None);
    };
    let (name, body) = cut_word(rest);
    Ok(Some(FileRow {
        review,
        name: text(alloc, name)?,
        body: bytes(alloc, body)?,
    }))
}

fn approval(alloc: Global, line: &str) -> Result<Option<ApprovalRow>, NoMemory> {
    let Some((review, user)) = cut_number(line) else {
        return Ok(None);
    };
    let user = text(alloc, user)?;
    Ok(Some(ApprovalRow { review, user }))
}

fn certificate(alloc: Global, line: &str) -> Result<Option<CertificateRow>, NoMemory> {
    let Some((review, rest)) = cut_number(line) else {
        return Ok(None);
    };
    let Some((policy, rest)) = cut_number(rest) else {
        return Ok(None);
    };
    let Some((missing, report)) = cut_missing(rest) else {
        return Ok(None);
    };
    let report = bytes(alloc, report)?;
    Ok(Some(CertificateRow {
        review,
        policy,
        missing,
        report,
    }))
}

// Kind, target and reply of what is kept.
fn kept_for(alloc: Global, user: &str, key: &str, line: &str) -> Result<Option<KeptRow>, NoMemory> {
    let Some((kind, rest)) = cut_byte(line) else {
        return Ok(None);
    };
    let Some((target, reply)) = cut_number(rest) else {
        return Ok(None);
    };
    Ok(Some(KeptRow {
        user: text(alloc, user)?,
        key: text(alloc, key)?,
        kind,
        target,
        reply: bytes(alloc, reply)?,
    }))
}

fn kept(alloc: Global, line: &str) -> Result<Option<KeptRow>, NoMemory> {
    let (user, rest) = cut_word(line);
    let (key, rest) = cut_word(rest);
    kept_for(alloc, user, key, rest)
}

// Puts the row behind the others, if there is one; answers whether there is.
fn add<X: Drop>(rows: &mut List<X>, row: Option<X>) -> Result<bool, NoMemory> {
    match row {
        Some(row) => {
            rows.push(row)?;
            Ok(true)
        }
        None => Ok(false),
    }
}

/// Adds the row of a line; answers whether it is one.
pub fn add_row(alloc: Global, rows: &mut Rows, line: &str) -> Result<bool, NoMemory> {
    match cut_word(line) {
        ("policy", rest) => add(&mut rows.policies, policy(alloc, rest)?),
        ("review", rest) => add(&mut rows.reviews, review(alloc, rest)?),
        ("file", rest) => add(&mut rows.files, file(alloc, rest)?),
        ("approval", rest) => add(&mut rows.approvals, approval(alloc, rest)?),
        ("certificate", rest) => add(&mut rows.certificates, certificate(alloc, rest)?),
        ("kept", rest) => add(&mut rows.kept, kept(alloc, rest)?),
        _ => Ok(false),
    }
}

/// Adds the row of each number; answers whether all are rows.
pub fn add_rows(alloc: Global, rows: &mut Rows, asked: Numbered<'_>) -> Result<bool, NoMemory> {
    for at in 0..asked.count {
        let line = asked.line(alloc, at)?;
        if !add_row(alloc, rows, line.as_str())? {
            return Ok(false);
        }
    }
    Ok(true)
}
