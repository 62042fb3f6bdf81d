//! A change is made in tables, wholly or not at all.

ghost use Rattle.std.specs.Prelude.{◌≡◌, ◌+◌, ◌≤◌, IfOk, OnOk, OnErr, length, map, vec_len, vec_capacity};
ghost use Rattle.desk_tables.specs.Order.{Ascends, numbered_cmp};
ghost use Rattle.desk_tables.specs.Tables.{at_review, file_key, merged, withdrawn};
ghost use Rattle.review_rules.specs.Changes.{made, put_all};
ghost use Rattle.desk_keeper.specs.Memory.{AreInOrder};

use crate::puts::{put_approval, put_file, put_policy, put_review};
use crate::tables::Tables;
use desk_tables::{
    ApprovalRow, CertificateRow, FileRow, KeptRow, PolicyRow, ReviewRow, put_certificate,
};
use net_types::{List, NoMemory};
use review_rules::{Change, ChangeKind};
use std::alloc::Global;
use std::mem;

// The rows of a list, with room for so many more. Without memory the list stays as it was.
fn roomy<T: Drop>(alloc: Global, list: &mut List<T>, more: usize) -> Result<Vec<T>, NoMemory>
    ensures taken { IfOk result (λ rows. rows.items ≡ list.old) }
    ensures room { IfOk result (λ rows. vec_len rows + more ≤ vec_capacity rows) }
    ensures same { OnErr result (list.new ≡ list.old) }
{
    let mut rows = mem::replace(list, List::new(alloc)).into_vec();
    if rows.reserve(more).is_err() {
        *list = List::from_vec(rows);
        return Err(NoMemory);
    }
    Ok(rows)
}

// The rows of a list, which takes no memory.
fn taken<T: Drop>(alloc: Global, list: &mut List<T>) -> Vec<T>
    ensures { result.items ≡ list.old }
{
    mem::replace(list, List::new(alloc)).into_vec()
}

// Puts each file in its place, where there is room for all.
#[tactic(auto, using(crate::proofs::FileLemmas::files_ascend))]
fn put_files(rows: &mut Vec<FileRow>, files: List<FileRow>)
    requires room { vec_len rows.old + length files ≤ vec_capacity rows.old }
    requires sorted { Ascends numbered_cmp file_key rows.old.items }
    ensures { rows.new.items ≡ put_all files rows.old.items }
{
    for file in files.into_vec() {
        put_file(rows, file);
    }
}

// Merges the review of the number as this head, if it is the row's.
fn merge_if(row: &mut ReviewRow, id: u64, head: u64)
    ensures { row.new ≡ at_review id (merged head) row.old }
{
    if row.id == id {
        row.state = 1;
        row.head = head;
    }
}

// Merges the review of the number as this head.
fn merge_in(rows: &mut [ReviewRow], id: u64, head: u64)
    ensures { rows.new ≡ map (at_review id (merged head)) rows.old }
{
    for i in 0..rows.len() {
        merge_if(&mut rows[i], id, head);
    }
}

// Withdraws the review of the number, if it is the row's.
fn withdraw_if(row: &mut ReviewRow, id: u64)
    ensures { row.new ≡ at_review id withdrawn row.old }
{
    if row.id == id {
        row.state = 2;
    }
}

// Withdraws the review of the number.
fn withdraw_in(rows: &mut [ReviewRow], id: u64)
    ensures { rows.new ≡ map (at_review id withdrawn) rows.old }
{
    for i in 0..rows.len() {
        withdraw_if(&mut rows[i], id);
    }
}

fn make_policy(
    alloc: Global,
    rows: &mut Tables,
    row: PolicyRow,
    kept: KeptRow,
) -> Result<(), NoMemory>
    requires { AreInOrder rows.old }
    ensures made { OnOk result (rows.new ≡ made (record { kind = ChangeKind.Policy row; kept = kept }) rows.old) }
    ensures same { OnErr result (rows.new ≡ rows.old) }
{
    rows.kept.reserve(1)?;
    let mut policies = roomy(alloc, &mut rows.policies, 1)?;
    put_policy(&mut policies, row);
    rows.kept.put(kept);
    rows.policies = List::from_vec(policies);
    Ok(())
}

fn make_certificate(
    alloc: Global,
    rows: &mut Tables,
    row: CertificateRow,
    kept: KeptRow,
) -> Result<(), NoMemory>
    requires { AreInOrder rows.old }
    ensures made { OnOk result (rows.new ≡ made (record { kind = ChangeKind.Certificate row; kept = kept }) rows.old) }
    ensures same { OnErr result (rows.new ≡ rows.old) }
{
    rows.kept.reserve(1)?;
    let mut certificates = roomy(alloc, &mut rows.certificates, 1)?;
    put_certificate(&mut certificates, row);
    rows.kept.put(kept);
    rows.certificates = List::from_vec(certificates);
    Ok(())
}

fn make_approval(
    alloc: Global,
    rows: &mut Tables,
    row: ApprovalRow,
    kept: KeptRow,
) -> Result<(), NoMemory>
    requires { AreInOrder rows.old }
    ensures made { OnOk result (rows.new ≡ made (record { kind = ChangeKind.Approval row; kept = kept }) rows.old) }
    ensures same { OnErr result (rows.new ≡ rows.old) }
{
    rows.kept.reserve(1)?;
    let mut approvals = roomy(alloc, &mut rows.approvals, 1)?;
    put_approval(&mut approvals, row);
    rows.kept.put(kept);
    rows.approvals = List::from_vec(approvals);
    Ok(())
}

fn make_merge(
    alloc: Global,
    rows: &mut Tables,
    review: u64,
    head: u64,
    kept: KeptRow,
) -> Result<(), NoMemory>
    requires { AreInOrder rows.old }
    ensures made { OnOk result (rows.new ≡ made (record { kind = ChangeKind.Merge review head; kept = kept }) rows.old) }
    ensures same { OnErr result (rows.new ≡ rows.old) }
{
    rows.kept.reserve(1)?;
    let mut reviews = taken(alloc, &mut rows.reviews);
    merge_in(reviews.as_mut_slice(), review, head);
    rows.kept.put(kept);
    rows.reviews = List::from_vec(reviews);
    Ok(())
}

fn make_withdrawal(
    alloc: Global,
    rows: &mut Tables,
    review: u64,
    kept: KeptRow,
) -> Result<(), NoMemory>
    requires { AreInOrder rows.old }
    ensures made { OnOk result (rows.new ≡ made (record { kind = ChangeKind.Withdraw review; kept = kept }) rows.old) }
    ensures same { OnErr result (rows.new ≡ rows.old) }
{
    rows.kept.reserve(1)?;
    let mut reviews = taken(alloc, &mut rows.reviews);
    withdraw_in(reviews.as_mut_slice(), review);
    rows.kept.put(kept);
    rows.reviews = List::from_vec(reviews);
    Ok(())
}

fn make_review(
    alloc: Global,
    rows: &mut Tables,
    row: ReviewRow,
    files: List<FileRow>,
    kept: KeptRow,
) -> Result<(), NoMemory>
    requires { AreInOrder rows.old }
    ensures made { OnOk result (rows.new ≡ made (record { kind = ChangeKind.Review row files; kept = kept }) rows.old) }
    ensures same { OnErr result (rows.new ≡ rows.old) }
{
    rows.kept.reserve(1)?;
    let mut reviews = roomy(alloc, &mut rows.reviews, 1)?;
    let Ok(mut bodies) = roomy(alloc, &mut rows.files, files.len()) else {
        rows.reviews = List::from_vec(reviews);
        return Err(NoMemory);
    };
    put_review(&mut reviews, row);
    put_files(&mut bodies, files);
    rows.kept.put(kept);
    rows.reviews = List::from_vec(reviews);
    rows.files = List::from_vec(bodies);
    Ok(())
}

// Makes a change, by its kind.
fn make_kind(alloc: Global, rows: &mut Tables, change: Change) -> Result<(), NoMemory>
    requires { AreInOrder rows.old }
    ensures made { OnOk result (rows.new ≡ made change rows.old) }
    ensures same { OnErr result (rows.new ≡ rows.old) }
{
    let Change { kind, kept } = change;
    match kind {
        ChangeKind::Policy(row) => make_policy(alloc, rows, row, kept),
        ChangeKind::Review(row, files) => make_review(alloc, rows, row, files, kept),
        ChangeKind::Certificate(row) => make_certificate(alloc, rows, row, kept),
        ChangeKind::Approval(row) => make_approval(alloc, rows, row, kept),
        ChangeKind::Merge { review, head } => make_merge(alloc, rows, review, head, kept),
        ChangeKind::Withdraw { review } => make_withdrawal(alloc, rows, review, kept),
    }
}

/// Makes a change in tables that are in key order, wholly or not at all; they stay so.
///
/// # Errors
/// `NoMemory` at any time. The tables are then as before.
#[tactic(auto, using(crate::proofs::OrderLemmas::made_or_same))]
pub(crate) fn make(alloc: Global, rows: &mut Tables, change: Change) -> Result<(), NoMemory>
    requires { AreInOrder rows.old }
    ensures made { OnOk result (rows.new ≡ made change rows.old) }
    ensures same { OnErr result (rows.new ≡ rows.old) }
    ensures order { AreInOrder rows.new }
{
    make_kind(alloc, rows, change)
}
