//! Copies of rows and of changes.

ghost use Rattle.std.specs.Prelude.{◌≡◌, ◌+◌, ◌++◌, IfOk, OnOk, drop};

use crate::tables::Tables;
use desk_tables::{
    ApprovalRow, CertificateRow, FileRow, KeptRow, KeptTable, PolicyRow, ReviewRow, Rows, copy,
    copy_text,
};
use net_types::{List, NoMemory};
use review_rules::{Change, ChangeKind};
use std::alloc::Global;

fn copy_policy(alloc: Global, row: &PolicyRow) -> Result<PolicyRow, NoMemory>
    ensures { IfOk result (λ r. r ≡ row.now) }
{
    Ok(PolicyRow {
        version: row.version,
        approvals: row.approvals,
        book: copy(alloc, row.book.as_slice())?,
    })
}

fn copy_policies(alloc: Global, rows: &[PolicyRow]) -> Result<List<PolicyRow>, NoMemory>
    ensures { IfOk result (λ r. r ≡ rows.now) }
{
    let mut all = List::new(alloc);
    for row in rows {
        all.push(copy_policy(alloc, row)?)?;
    }
    Ok(all)
}

fn copy_review(alloc: Global, row: &ReviewRow) -> Result<ReviewRow, NoMemory>
    ensures { IfOk result (λ r. r ≡ row.now) }
{
    Ok(ReviewRow {
        id: row.id,
        author: copy_text(alloc, &row.author)?,
        title: copy_text(alloc, &row.title)?,
        base: row.base,
        state: row.state,
        head: row.head,
    })
}

fn copy_reviews(alloc: Global, rows: &[ReviewRow]) -> Result<List<ReviewRow>, NoMemory>
    ensures { IfOk result (λ r. r ≡ rows.now) }
{
    let mut all = List::new(alloc);
    for row in rows {
        all.push(copy_review(alloc, row)?)?;
    }
    Ok(all)
}

fn copy_file(alloc: Global, row: &FileRow) -> Result<FileRow, NoMemory>
    ensures { IfOk result (λ r. r ≡ row.now) }
{
    Ok(FileRow {
        review: row.review,
        name: copy_text(alloc, &row.name)?,
        body: copy(alloc, row.body.as_slice())?,
    })
}

fn copy_files(alloc: Global, rows: &[FileRow]) -> Result<List<FileRow>, NoMemory>
    ensures { IfOk result (λ r. r ≡ rows.now) }
{
    let mut all = List::new(alloc);
    for row in rows {
        all.push(copy_file(alloc, row)?)?;
    }
    Ok(all)
}

fn copy_approval(alloc: Global, row: &ApprovalRow) -> Result<ApprovalRow, NoMemory>
    ensures { IfOk result (λ r. r ≡ row.now) }
{
    Ok(ApprovalRow {
        review: row.review,
        user: copy_text(alloc, &row.user)?,
    })
}

fn copy_approvals(alloc: Global, rows: &[ApprovalRow]) -> Result<List<ApprovalRow>, NoMemory>
    ensures { IfOk result (λ r. r ≡ rows.now) }
{
    let mut all = List::new(alloc);
    for row in rows {
        all.push(copy_approval(alloc, row)?)?;
    }
    Ok(all)
}

fn copy_certificate(alloc: Global, row: &CertificateRow) -> Result<CertificateRow, NoMemory>
    ensures { IfOk result (λ r. r ≡ row.now) }
{
    Ok(CertificateRow {
        review: row.review,
        policy: row.policy,
        missing: row.missing,
        report: copy(alloc, row.report.as_slice())?,
    })
}

fn copy_certificates(
    alloc: Global,
    rows: &[CertificateRow],
) -> Result<List<CertificateRow>, NoMemory>
    ensures { IfOk result (λ r. r ≡ rows.now) }
{
    let mut all = List::new(alloc);
    for row in rows {
        all.push(copy_certificate(alloc, row)?)?;
    }
    Ok(all)
}

fn copy_kept(alloc: Global, row: &KeptRow) -> Result<KeptRow, NoMemory>
    ensures { IfOk result (λ r. r ≡ row.now) }
{
    Ok(KeptRow {
        user: copy_text(alloc, &row.user)?,
        key: copy_text(alloc, &row.key)?,
        kind: row.kind,
        target: row.target,
        reply: copy(alloc, row.reply.as_slice())?,
    })
}

// Copies the row at a place behind the others.
#[tactic(auto, using(crate::proofs::CopyLemmas::copied, crate::proofs::CopyLemmas::past))]
fn copy_next(
    alloc: Global,
    table: &KeptTable,
    place: usize,
    all: &mut List<KeptRow>,
) -> Result<(), NoMemory>
    ensures { OnOk result (all.new ++ drop (place + 1) table.now.items ≡ all.old ++ drop place table.now.items) }
{
    if let Some(row) = table.row(place) {
        all.push(copy_kept(alloc, row)?)?;
    }
    Ok(())
}

fn copy_keeps(alloc: Global, table: &KeptTable) -> Result<List<KeptRow>, NoMemory>
    ensures { IfOk result (λ r. r ≡ table.now.items) }
{
    let mut all = List::new(alloc);
    for i in 0..table.len() {
        copy_next(alloc, table, i, &mut all)?;
    }
    Ok(all)
}

/// The rows of the tables once more.
pub(crate) fn copy_rows(alloc: Global, tables: &Tables) -> Result<Rows, NoMemory>
    ensures { IfOk result (λ r. r ≡ tables.now) }
{
    Ok(Rows {
        policies: copy_policies(alloc, tables.policies.as_slice())?,
        reviews: copy_reviews(alloc, tables.reviews.as_slice())?,
        files: copy_files(alloc, tables.files.as_slice())?,
        approvals: copy_approvals(alloc, tables.approvals.as_slice())?,
        certificates: copy_certificates(alloc, tables.certificates.as_slice())?,
        kept: copy_keeps(alloc, &tables.kept)?,
    })
}

fn copy_kind(alloc: Global, kind: &ChangeKind) -> Result<ChangeKind, NoMemory>
    ensures { IfOk result (λ k. k ≡ kind.now) }
{
    match kind {
        ChangeKind::Policy(row) => Ok(ChangeKind::Policy(copy_policy(alloc, row)?)),
        ChangeKind::Review(row, files) => Ok(ChangeKind::Review(
            copy_review(alloc, row)?,
            copy_files(alloc, files.as_slice())?,
        )),
        ChangeKind::Certificate(row) => Ok(ChangeKind::Certificate(copy_certificate(alloc, row)?)),
        ChangeKind::Approval(row) => Ok(ChangeKind::Approval(copy_approval(alloc, row)?)),
        ChangeKind::Merge { review, head } => Ok(ChangeKind::Merge {
            review: *review,
            head: *head,
        }),
        ChangeKind::Withdraw { review } => Ok(ChangeKind::Withdraw { review: *review }),
    }
}

/// The same change once more.
pub(crate) fn copy_change(alloc: Global, change: &Change) -> Result<Change, NoMemory>
    ensures { IfOk result (λ c. c ≡ change.now) }
{
    Ok(Change {
        kind: copy_kind(alloc, &change.kind)?,
        kept: copy_kept(alloc, &change.kept)?,
    })
}
