//! What the readers of a desk find, in the words of the rows of a setting.

use crate::words::{cut_number, number_of};
use desk_tables::{CertificateRow, FileRow, KeptRow, PolicyRow, ReviewRow};
use net_types::{List, NoMemory, Text};
use review_rules::Desk;
use std::alloc::Global;

fn bytes_text(alloc: Global, bytes: &List<u8>) -> Result<String, NoMemory> {
    let text = String::from_utf8_lossy(alloc, bytes.as_slice())?;
    Ok(String::from_str(alloc, text.as_str())?)
}

fn policy_text(alloc: Global, row: &PolicyRow) -> Result<String, NoMemory> {
    let (version, approvals) = (row.version, row.approvals);
    let book = bytes_text(alloc, &row.book)?;
    Ok(format!(in alloc; "policy {version} {approvals} {book}")?)
}

fn review_text(alloc: Global, row: &ReviewRow) -> Result<String, NoMemory> {
    let (id, author, base) = (row.id, row.author.as_str(), row.base);
    let (state, head, title) = (row.state, row.head, row.title.as_str());
    Ok(format!(in alloc; "review {id} {author} {base} {state} {head} {title}")?)
}

fn file_text(alloc: Global, row: &FileRow) -> Result<String, NoMemory> {
    let (review, name) = (row.review, row.name.as_str());
    let body = bytes_text(alloc, &row.body)?;
    Ok(format!(in alloc; "file {review} {name} {body}")?)
}

// The position of a missing property, or `-`.
fn missing_text(alloc: Global, missing: Option<u8>) -> Result<String, NoMemory> {
    match missing {
        Some(at) => Ok(format!(in alloc; "{at}")?),
        None => Ok(String::from_str(alloc, "-")?),
    }
}

fn certificate_text(alloc: Global, row: &CertificateRow) -> Result<String, NoMemory> {
    let (review, policy) = (row.review, row.policy);
    let missing = missing_text(alloc, row.missing)?;
    let report = bytes_text(alloc, &row.report)?;
    Ok(format!(in alloc; "certificate {review} {policy} {missing} {report}")?)
}

fn kept_text(alloc: Global, row: &KeptRow) -> Result<String, NoMemory> {
    let (user, key) = (row.user.as_str(), row.key.as_str());
    let (kind, target) = (row.kind, row.target);
    let reply = bytes_text(alloc, &row.reply)?;
    Ok(format!(in alloc; "kept {user} {key} {kind} {target} {reply}")?)
}

fn name_text(alloc: Global, name: &Text) -> Result<String, NoMemory> {
    Ok(String::from_str(alloc, name.as_str())?)
}

fn number_text(alloc: Global, number: u64) -> Result<String, NoMemory> {
    Ok(format!(in alloc; "{number}")?)
}

// What the reader of this name finds of a number, and of a position where it asks for one.
fn find(
    alloc: Global,
    desk: &Desk,
    reader: &str,
    number: u64,
    at: u64,
) -> Option<Result<String, NoMemory>> {
    match reader {
        "policy" => Some(policy_text(alloc, desk.policy_row(number)?)),
        "review" => Some(review_text(alloc, desk.review(number)?)),
        "merged" => Some(number_text(alloc, desk.merged_as(number)?)),
        "certificate" => Some(certificate_text(alloc, desk.certificate(number)?)),
        "approver" => Some(name_text(alloc, desk.approver(number, at)?)),
        "file" => Some(file_text(alloc, desk.file(number, at)?)),
        "kept" => Some(kept_text(alloc, desk.kept(number)?)),
        _ => Some(no_question(alloc)),
    }
}

// That a question is none.
fn no_question(alloc: Global) -> Result<String, NoMemory> {
    Ok(String::from_str(alloc, "no question")?)
}

/// What the reader of this name finds of a number, and of a position behind it, from 0.
pub fn read(alloc: Global, desk: &Desk, reader: &str, numbers: &str) -> Result<String, NoMemory> {
    let Some((number, at)) = cut_number(numbers) else {
        return no_question(alloc);
    };
    match find(alloc, desk, reader, number, number_of(at).unwrap_or(0)) {
        Some(text) => text,
        None => Ok(String::from_str(alloc, "nothing")?),
    }
}
