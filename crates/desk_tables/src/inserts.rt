//! Rows put into tables that are in key order, where there is room.

ghost use Rattle.std.specs.Prelude.{◌≡◌, ◌+◌, ◌++◌, ◌∷◌, [], ◌≤◌, ◌<◌, ◌&&◌, ◌==◌, IfOk, None, true, false, slice_index_or, slice_get, length, map, vec_len, vec_capacity};
ghost use Rattle.std.specs.Str.{bytes_eq};
ghost use Rattle.std.specs.List.{list_any, insert};
ghost use Rattle.std.specs.Ordering.{nat_cmp};
ghost use Rattle.desk_tables.specs.Order.{put, passing, Ascends, Counts, numbered_cmp};
ghost use Rattle.desk_tables.specs.Tables.{approval_key, certificate_key, file_row, source_of, at_review, merged, withdrawn};
ghost use Rattle.desk_tables.specs.Valid.{IsUpTo};
ghost use Rattle.desk_tables.specs.declared.rows.CertificateRow.{CertificateRow};

use crate::places::{approval_place, certificate_place};
use crate::{ApprovalRow, CertificateRow, FileRow, PolicyRow, ReviewRow};
use net_types::{List, NoMemory, SourceFile, Text};
use std::alloc::Global;

/// The same bytes once more.
pub fn copy(alloc: Global, bytes: &[u8]) -> Result<List<u8>, NoMemory>
    ensures { IfOk result (λ l. l ≡ bytes.now) }
{
    Ok(List::from_slice(alloc, bytes)?)
}

/// The same text once more.
pub fn copy_text(alloc: Global, text: &Text) -> Result<Text, NoMemory>
    ensures { IfOk result (λ t. t ≡ text.now) }
{
    Ok(Text::from_str(alloc, text.as_str())?)
}

/// The rows of a review's files.
pub fn file_rows(
    alloc: Global,
    review: u64,
    files: &[SourceFile],
) -> Result<List<FileRow>, NoMemory>
    ensures { IfOk result (λ rows. rows ≡ map (file_row review) files.now) }
{
    let mut rows = List::new(alloc);
    for file in files {
        let name = copy_text(alloc, &file.name)?;
        let body = copy(alloc, file.text.as_slice())?;
        rows.push(FileRow { review, name, body })?;
    }
    Ok(rows)
}

/// The files of these rows.
pub fn source_files(alloc: Global, rows: &[FileRow]) -> Result<List<SourceFile>, NoMemory>
    ensures { IfOk result (λ files. files ≡ map source_of rows.now) }
{
    let mut files = List::new(alloc);
    for row in rows {
        let name = copy_text(alloc, &row.name)?;
        let text = copy(alloc, row.body.as_slice())?;
        files.push(SourceFile { name, text })?;
    }
    Ok(files)
}

/// Puts a version of the policy behind the others, where there is room.
pub fn add_policy(rows: &mut Vec<PolicyRow>, row: PolicyRow)
    requires { vec_len rows.old < vec_capacity rows.old }
    ensures { rows.new.items ≡ rows.old.items ++ row ∷ [] }
{
    let added = rows.push(row);
    prove!(added.is_ok());
}

/// Puts a review behind the others, where there is room.
pub fn add_review(rows: &mut Vec<ReviewRow>, row: ReviewRow)
    requires { vec_len rows.old < vec_capacity rows.old }
    ensures { rows.new.items ≡ rows.old.items ++ row ∷ [] }
{
    let added = rows.push(row);
    prove!(added.is_ok());
}

/// Puts files behind the others, where there is room.
pub fn add_files(rows: &mut Vec<FileRow>, files: List<FileRow>)
    requires { vec_len rows.old + length files ≤ vec_capacity rows.old }
    ensures { rows.new.items ≡ rows.old.items ++ files }
{
    let mut more = files.into_vec();
    let added = rows.append(&mut more);
    prove!(added.is_ok());
}

/// Puts an approval that is not there in its place, where there is room.
pub fn add_approval(rows: &mut Vec<ApprovalRow>, row: ApprovalRow)
    requires room { vec_len rows.old < vec_capacity rows.old }
    requires sorted { Ascends numbered_cmp approval_key rows.old.items }
    requires fresh { list_any (λ a. a.review == row.review && bytes_eq a.user row.user) rows.old.items ≡ false }
    ensures { rows.new.items ≡ put numbered_cmp approval_key row rows.old.items }
{
    let place = approval_place(rows.as_slice(), row.review, row.user.as_bytes());
    let added = rows.insert(place, row);
    prove!(added.is_ok());
}

/// Puts a certificate in its place, instead of the one of the same review, where there is room.
pub fn put_certificate(rows: &mut Vec<CertificateRow>, row: CertificateRow)
    requires room { vec_len rows.old < vec_capacity rows.old }
    requires sorted { Ascends nat_cmp certificate_key rows.old.items }
    ensures { rows.new.items ≡ put nat_cmp certificate_key row rows.old.items }
{
    let place = certificate_place(rows.as_slice(), row.review);
    if is_at(rows.as_slice(), place, row.review) {
        rows[place] = row;
    } else {
        insert_certificate(rows, place, row);
    }
}

/// Whether the certificate of the review is at the place.
fn is_at(rows: &[CertificateRow], place: usize, review: u64) -> bool
    ensures within { result ≡ true → place < length rows.now }
    ensures here { (d : CertificateRow) → result ≡ true → ((slice_index_or rows.now place d).review == review) ≡ true }
    ensures other { result ≡ false → passing (λ c. c.review == review) (slice_get rows.now place) ≡ None }
{
    place < rows.len() && rows[place].review == review
}

/// Inserts a certificate at a place, where there is room.
fn insert_certificate(rows: &mut Vec<CertificateRow>, place: usize, row: CertificateRow)
    requires room { vec_len rows.old < vec_capacity rows.old }
    requires within { place ≤ vec_len rows.old }
    ensures { rows.new.items ≡ insert rows.old.items place row }
{
    let added = rows.insert(place, row);
    prove!(added.is_ok());
}

/// Merges the review of the number as this head.
fn merge_in(rows: &mut [ReviewRow], review: u64, head: u64)
    requires numbered { Counts (λ r. r.id) 1 rows.old }
    requires there { IsUpTo (length rows.old) review }
    ensures { rows.new ≡ map (at_review review (merged head)) rows.old }
{
    let row = &mut rows[(review - 1) as usize];
    row.state = 1;
    row.head = head;
}

/// Merges the review of the number as this head, in the table.
pub fn merge_review(rows: &mut Vec<ReviewRow>, review: u64, head: u64)
    requires numbered { Counts (λ r. r.id) 1 rows.old.items }
    requires there { IsUpTo (length rows.old.items) review }
    ensures { rows.new.items ≡ map (at_review review (merged head)) rows.old.items }
{
    merge_in(rows.as_mut_slice(), review, head);
}

/// Withdraws the review of the number.
fn withdraw_in(rows: &mut [ReviewRow], review: u64)
    requires numbered { Counts (λ r. r.id) 1 rows.old }
    requires there { IsUpTo (length rows.old) review }
    ensures { rows.new ≡ map (at_review review withdrawn) rows.old }
{
    let row = &mut rows[(review - 1) as usize];
    row.state = 2;
}

/// Withdraws the review of the number, in the table.
pub fn withdraw_review(rows: &mut Vec<ReviewRow>, review: u64)
    requires numbered { Counts (λ r. r.id) 1 rows.old.items }
    requires there { IsUpTo (length rows.old.items) review }
    ensures { rows.new.items ≡ map (at_review review withdrawn) rows.old.items }
{
    withdraw_in(rows.as_mut_slice(), review);
}
