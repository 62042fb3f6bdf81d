//! What stands in tables that are in key order.

ghost use Rattle.std.specs.Prelude.{◌≡◌, ◌≤◌, ◌&&◌, ◌==◌, Some, length, filter, find, count_by, slice_get, nat_le, is_some};
ghost use Rattle.std.specs.Option.{option_copied};
ghost use Rattle.std.specs.List.{list_any};
ghost use Rattle.std.specs.Ordering.{nat_cmp};
ghost use Rattle.std.specs.Str.{bytes_eq};
ghost use Rattle.desk_tables.specs.Order.{numbered_cmp, Ascends, Counts, passing};
ghost use Rattle.desk_tables.specs.Tables.{approval_key, file_key, certificate_key, user_of, same_files};

use crate::places::{
    approval_place, certificate_place, first_approval, first_file, is_same, past_approval,
    past_file,
};
use crate::{ApprovalRow, CertificateRow, FileRow, PolicyRow, ReviewRow, User};
use net_types::SourceFile;

/// The user with the token.
pub fn user_with<'a>(users: &'a [User], token: &[u8]) -> Option<&'a User>
    ensures { option_copied result ≡ user_of users.now token.now }
{
    for user in users {
        if is_same(user.token.as_bytes(), token) {
            return Some(user);
        }
    }
    None
}

/// The row at a place, if there is one.
pub fn item<T>(rows: &[T], place: usize) -> Option<&T>
    ensures { option_copied result ≡ slice_get rows.now place }
{
    if place < rows.len() {
        Some(&rows[place])
    } else {
        None
    }
}

/// The review of the number.
pub fn review_in(rows: &[ReviewRow], id: u64) -> Option<&ReviewRow>
    requires { Counts (λ r. r.id) 1 rows.now }
    ensures { option_copied result ≡ find (λ r. r.id == id) rows.now }
{
    if id == 0 {
        return None;
    }
    item(rows, (id - 1) as usize)
}

/// The policy's row of the version.
pub fn policy_in(rows: &[PolicyRow], version: u64) -> Option<&PolicyRow>
    requires { Counts (λ p. p.version) 1 rows.now }
    ensures { option_copied result ≡ find (λ p. p.version == version) rows.now }
{
    if version == 0 {
        return None;
    }
    item(rows, (version - 1) as usize)
}

/// The certificate of the review.
pub fn certificate_in(rows: &[CertificateRow], review: u64) -> Option<&CertificateRow>
    requires { Ascends nat_cmp certificate_key rows.now }
    ensures { option_copied result ≡ find (λ c. c.review == review) rows.now }
{
    certificate_if(item(rows, certificate_place(rows, review)), review)
}

/// The certificate, if it is of the review.
fn certificate_if(row: Option<&CertificateRow>, review: u64) -> Option<&CertificateRow>
    ensures { option_copied result ≡ passing (λ c. c.review == review) (option_copied row.entry) }
{
    match row {
        Some(row) if row.review == review => Some(row),
        _ => None,
    }
}

/// Whether the user has approved the review.
pub fn is_approved_by(rows: &[ApprovalRow], review: u64, user: &[u8]) -> bool
    requires { Ascends numbered_cmp approval_key rows.now }
    ensures { result ≡ list_any (λ a. a.review == review && bytes_eq a.user user.now) rows.now }
{
    is_approval(item(rows, approval_place(rows, review, user)), review, user)
}

/// Whether there is a row, and it is the user's approval of the review.
fn is_approval(row: Option<&ApprovalRow>, review: u64, user: &[u8]) -> bool
    ensures { result ≡ is_some (passing (λ a. a.review == review && bytes_eq a.user user.now) (option_copied row.entry)) }
{
    match row {
        Some(row) => row.review == review && is_same(row.user.as_bytes(), user),
        None => false,
    }
}

/// How many have approved the review.
pub fn approvals_in(rows: &[ApprovalRow], review: u64) -> usize
    requires { Ascends numbered_cmp approval_key rows.now }
    ensures { result ≡ count_by (λ a. a.review == review) rows.now }
{
    past_approval(rows, review) - first_approval(rows, review)
}

/// The files of the review.
pub fn files_in(rows: &[FileRow], review: u64) -> &[FileRow]
    requires { Ascends numbered_cmp file_key rows.now }
    ensures { result.now ≡ filter (λ f. f.review == review) rows.now }
{
    let first = first_file(rows, review);
    let past = past_file(rows, review);
    &rows[first..past]
}

/// The approvals of the review.
pub fn approvals_to(rows: &[ApprovalRow], review: u64) -> &[ApprovalRow]
    requires { Ascends numbered_cmp approval_key rows.now }
    ensures { result.now ≡ filter (λ a. a.review == review) rows.now }
{
    let first = first_approval(rows, review);
    let past = past_approval(rows, review);
    &rows[first..past]
}

/// Whether a row is a file of a command.
fn is_same_file(row: &FileRow, file: &SourceFile) -> bool
    ensures { result ≡ (bytes_eq row.now.name file.now.name && bytes_eq row.now.body file.now.text) }
{
    is_same(row.name.as_bytes(), file.name.as_bytes())
        && is_same(row.body.as_slice(), file.text.as_slice())
}

/// Whether rows are the files of a command.
pub fn is_same_files(rows: &[FileRow], files: &[SourceFile]) -> bool
    ensures { result ≡ same_files rows.now files.now }
{
    if rows.len() != files.len() {
        return false;
    }
    for i in 0..rows.len() {
        if !is_same_file(&rows[i], &files[i]) {
            return false;
        }
    }
    true
}
