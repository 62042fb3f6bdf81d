//! What a desk has to know of its tables: which review is merged as which head, and the bytes kept.

ghost use Rattle.std.specs.Prelude.{◌≡◌, ◌+◌, ◌-◌, ◌^◌, ◌<◌, ◌∷◌, List, IfOk, count_by, length, min, sum_by};
ghost use Rattle.desk_tables.specs.Tables.{bytes_of, is_merged};
ghost use Rattle.desk_tables.specs.declared.rows.ReviewRow.{ReviewRow};
ghost use Rattle.stored_rows.specs.Index.{Indexes, file_size, book_size, report_size};

use crate::rows::merged;
use desk_tables::{CertificateRow, FileRow, PolicyRow, ReviewRow, Rows};
use net_types::NoMemory;
use std::alloc::Global;

// Puts the review's number at its head, where it is merged.
fn put_at_head(numbers: &mut [u64], row: &ReviewRow)
    ensures long { length numbers.new ≡ length numbers.old }
    ensures index { (rows : List ReviewRow) → Indexes numbers.old rows → Indexes numbers.new (row.now ∷ rows) }
{
    if row.state == 1 && 1 <= row.head && row.head <= numbers.len() as u64 {
        numbers[(row.head - 1) as usize] = row.id;
    }
}

// The same in a table.
fn put(numbers: &mut Vec<u64>, row: &ReviewRow)
    ensures long { length numbers.new.items ≡ length numbers.old.items }
    ensures index { (rows : List ReviewRow) → Indexes numbers.old.items rows → Indexes numbers.new.items (row.now ∷ rows) }
{
    put_at_head(numbers.as_mut_slice(), row);
}

/// At each place the number of the first review that is merged as the head one above the place, and 0 where there is
/// none; for as many heads as reviews are merged.
///
/// # Errors
/// `NoMemory` at any time.
pub fn index_of(alloc: Global, rows: &[ReviewRow]) -> Result<Vec<u64>, NoMemory>
    ensures long { IfOk result (λ numbers. length numbers.items ≡ count_by is_merged rows.now) }
    ensures index { IfOk result (λ numbers. Indexes numbers.items rows.now) }
{
    let mut numbers = vec![in alloc; 0u64; merged(rows) as usize]?;
    // From the last row to the first, so that of two rows with one head the first stays.
    for i in 0..rows.len() {
        put(&mut numbers, &rows[rows.len() - 1 - i]);
    }
    Ok(numbers)
}

// The bytes of names and bodies. The number stops at the end of its type.
fn file_bytes(files: &[FileRow]) -> u128
    ensures { result ≡ min (sum_by file_size files.now) (2 ^ 128 - 1) }
{
    let mut size: u128 = 0;
    for file in files {
        size = size
            .saturating_add(file.name.len() as u128)
            .saturating_add(file.body.len() as u128);
    }
    size
}

// The bytes of books. The number stops at the end of its type.
fn book_bytes(policies: &[PolicyRow]) -> u128
    ensures { result ≡ min (sum_by book_size policies.now) (2 ^ 128 - 1) }
{
    let mut size: u128 = 0;
    for policy in policies {
        size = size.saturating_add(policy.book.len() as u128);
    }
    size
}

// The bytes of reports. The number stops at the end of its type.
fn report_bytes(certificates: &[CertificateRow]) -> u128
    ensures { result ≡ min (sum_by report_size certificates.now) (2 ^ 128 - 1) }
{
    let mut size: u128 = 0;
    for certificate in certificates {
        size = size.saturating_add(certificate.report.len() as u128);
    }
    size
}

// How many rows count for themselves.
fn counted(rows: &Rows) -> u128
    ensures value { result ≡ length rows.now.policies + (length rows.now.reviews + (length rows.now.approvals + (length rows.now.certificates + length rows.now.kept))) }
    ensures small { result < 2 ^ 70 }
{
    rows.policies.len() as u128
        + (rows.reviews.len() as u128
            + (rows.approvals.len() as u128
                + (rows.certificates.len() as u128 + rows.kept.len() as u128)))
}

/// The bytes kept. The number stops at the end of its type.
pub fn bytes_of(rows: &Rows) -> u128
    ensures { result ≡ min (bytes_of rows.now) (2 ^ 128 - 1) }
{
    let files = file_bytes(rows.files.as_slice());
    let books = book_bytes(rows.policies.as_slice());
    let reports = report_bytes(rows.certificates.as_slice());
    files
        .saturating_add(books)
        .saturating_add(reports)
        .saturating_add(256 * counted(rows))
}
