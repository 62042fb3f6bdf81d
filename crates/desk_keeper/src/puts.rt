//! Rows put into tables that are in key order, in place of one of the same key, where there is room.

ghost use Rattle.std.specs.Prelude.{◌≡◌, ◌+◌, ◌≤◌, ◌<◌, ◌&&◌, ◌==◌, None, true, false, slice_index_or, slice_get, length, vec_len, vec_capacity};
ghost use Rattle.std.specs.Str.{bytes_eq};
ghost use Rattle.std.specs.List.{insert};
ghost use Rattle.std.specs.Ordering.{nat_cmp};
ghost use Rattle.desk_tables.specs.Order.{put, passing, before, Ascends, Splits, numbered_cmp};
ghost use Rattle.desk_tables.specs.Tables.{policy_key, review_key, file_key, approval_key};
ghost use Rattle.desk_tables.specs.declared.rows.PolicyRow.{PolicyRow};
ghost use Rattle.desk_tables.specs.declared.rows.ReviewRow.{ReviewRow};
ghost use Rattle.desk_tables.specs.declared.rows.FileRow.{FileRow};
ghost use Rattle.desk_tables.specs.declared.rows.ApprovalRow.{ApprovalRow};

use desk_tables::{ApprovalRow, FileRow, PolicyRow, ReviewRow, is_same, numbered_order};

// How many versions come before this one.
fn policy_place(rows: &[PolicyRow], version: u64) -> usize
    requires { Ascends nat_cmp policy_key rows.now }
    ensures { Splits (before nat_cmp policy_key version) rows.now result }
{
    rows.partition_point(|p| p.version.cmp(&version).is_lt())
}

// How many reviews come before the one of this number.
fn review_place(rows: &[ReviewRow], id: u64) -> usize
    requires { Ascends nat_cmp review_key rows.now }
    ensures { Splits (before nat_cmp review_key id) rows.now result }
{
    rows.partition_point(|r| r.id.cmp(&id).is_lt())
}

// How many files come before the review's file of this name.
fn file_place(rows: &[FileRow], review: u64, name: &[u8]) -> usize
    requires { Ascends numbered_cmp file_key rows.now }
    ensures { Splits (before numbered_cmp file_key (review, name.now)) rows.now result }
{
    rows.partition_point(|f| numbered_order(f.review, f.name.as_bytes(), review, name).is_lt())
}

// How many approvals come before the review's by this user.
fn approval_place(rows: &[ApprovalRow], review: u64, user: &[u8]) -> usize
    requires { Ascends numbered_cmp approval_key rows.now }
    ensures { Splits (before numbered_cmp approval_key (review, user.now)) rows.now result }
{
    rows.partition_point(|a| numbered_order(a.review, a.user.as_bytes(), review, user).is_lt())
}

/// Puts a version of the policy in its place.
pub(crate) fn put_policy(rows: &mut Vec<PolicyRow>, row: PolicyRow)
    requires room { vec_len rows.old < vec_capacity rows.old }
    requires sorted { Ascends nat_cmp policy_key rows.old.items }
    ensures { rows.new.items ≡ put nat_cmp policy_key row rows.old.items }
{
    let place = policy_place(rows.as_slice(), row.version);
    if is_policy_at(rows.as_slice(), place, &row) {
        rows[place] = row;
    } else {
        insert_policy(rows, place, row);
    }
}

// Whether the row at the place has the key of this one.
fn is_policy_at(rows: &[PolicyRow], place: usize, row: &PolicyRow) -> bool
    ensures within { result ≡ true → place < length rows.now }
    ensures here { (d : PolicyRow) → result ≡ true → ((slice_index_or rows.now place d).version == row.now.version) ≡ true }
    ensures other { result ≡ false → passing (λ (x : PolicyRow). x.version == row.now.version) (slice_get rows.now place) ≡ None }
{
    place < rows.len() && rows[place].version == row.version
}

// Inserts the row at the place.
fn insert_policy(rows: &mut Vec<PolicyRow>, place: usize, row: PolicyRow)
    requires room { vec_len rows.old < vec_capacity rows.old }
    requires within { place ≤ vec_len rows.old }
    ensures { rows.new.items ≡ insert rows.old.items place row }
{
    let added = rows.insert(place, row);
    prove!(added.is_ok());
}

/// Puts a review in its place.
pub(crate) fn put_review(rows: &mut Vec<ReviewRow>, row: ReviewRow)
    requires room { vec_len rows.old < vec_capacity rows.old }
    requires sorted { Ascends nat_cmp review_key rows.old.items }
    ensures { rows.new.items ≡ put nat_cmp review_key row rows.old.items }
{
    let place = review_place(rows.as_slice(), row.id);
    if is_review_at(rows.as_slice(), place, &row) {
        rows[place] = row;
    } else {
        insert_review(rows, place, row);
    }
}

// Whether the row at the place has the key of this one.
fn is_review_at(rows: &[ReviewRow], place: usize, row: &ReviewRow) -> bool
    ensures within { result ≡ true → place < length rows.now }
    ensures here { (d : ReviewRow) → result ≡ true → ((slice_index_or rows.now place d).id == row.now.id) ≡ true }
    ensures other { result ≡ false → passing (λ (x : ReviewRow). x.id == row.now.id) (slice_get rows.now place) ≡ None }
{
    place < rows.len() && rows[place].id == row.id
}

// Inserts the row at the place.
fn insert_review(rows: &mut Vec<ReviewRow>, place: usize, row: ReviewRow)
    requires room { vec_len rows.old < vec_capacity rows.old }
    requires within { place ≤ vec_len rows.old }
    ensures { rows.new.items ≡ insert rows.old.items place row }
{
    let added = rows.insert(place, row);
    prove!(added.is_ok());
}

/// Puts a file in its place.
pub(crate) fn put_file(rows: &mut Vec<FileRow>, row: FileRow)
    requires room { vec_len rows.old < vec_capacity rows.old }
    requires sorted { Ascends numbered_cmp file_key rows.old.items }
    ensures put { rows.new.items ≡ put numbered_cmp file_key row rows.old.items }
    ensures long { vec_len rows.new ≤ vec_len rows.old + 1 }
    ensures capacity { vec_capacity rows.old ≤ vec_capacity rows.new }
{
    let place = file_place(rows.as_slice(), row.review, row.name.as_bytes());
    if is_file_at(rows.as_slice(), place, &row) {
        rows[place] = row;
    } else {
        insert_file(rows, place, row);
    }
}

// Whether the row at the place has the key of this one.
fn is_file_at(rows: &[FileRow], place: usize, row: &FileRow) -> bool
    ensures within { result ≡ true → place < length rows.now }
    ensures here { (d : FileRow) → result ≡ true → ((slice_index_or rows.now place d).review == row.now.review && bytes_eq (slice_index_or rows.now place d).name row.now.name) ≡ true }
    ensures other { result ≡ false → passing (λ (x : FileRow). x.review == row.now.review && bytes_eq x.name row.now.name) (slice_get rows.now place) ≡ None }
{
    place < rows.len()
        && rows[place].review == row.review
        && is_same(rows[place].name.as_bytes(), row.name.as_bytes())
}

// Inserts the row at the place.
fn insert_file(rows: &mut Vec<FileRow>, place: usize, row: FileRow)
    requires room { vec_len rows.old < vec_capacity rows.old }
    requires within { place ≤ vec_len rows.old }
    ensures put { rows.new.items ≡ insert rows.old.items place row }
    ensures long { vec_len rows.new ≤ vec_len rows.old + 1 }
    ensures capacity { vec_capacity rows.old ≤ vec_capacity rows.new }
{
    let added = rows.insert(place, row);
    prove!(added.is_ok());
}

/// Puts an approval in its place.
pub(crate) fn put_approval(rows: &mut Vec<ApprovalRow>, row: ApprovalRow)
    requires room { vec_len rows.old < vec_capacity rows.old }
    requires sorted { Ascends numbered_cmp approval_key rows.old.items }
    ensures { rows.new.items ≡ put numbered_cmp approval_key row rows.old.items }
{
    let place = approval_place(rows.as_slice(), row.review, row.user.as_bytes());
    if is_approval_at(rows.as_slice(), place, &row) {
        rows[place] = row;
    } else {
        insert_approval(rows, place, row);
    }
}

// Whether the row at the place has the key of this one.
fn is_approval_at(rows: &[ApprovalRow], place: usize, row: &ApprovalRow) -> bool
    ensures within { result ≡ true → place < length rows.now }
    ensures here { (d : ApprovalRow) → result ≡ true → ((slice_index_or rows.now place d).review == row.now.review && bytes_eq (slice_index_or rows.now place d).user row.now.user) ≡ true }
    ensures other { result ≡ false → passing (λ (x : ApprovalRow). x.review == row.now.review && bytes_eq x.user row.now.user) (slice_get rows.now place) ≡ None }
{
    place < rows.len()
        && rows[place].review == row.review
        && is_same(rows[place].user.as_bytes(), row.user.as_bytes())
}

// Inserts the row at the place.
fn insert_approval(rows: &mut Vec<ApprovalRow>, place: usize, row: ApprovalRow)
    requires room { vec_len rows.old < vec_capacity rows.old }
    requires within { place ≤ vec_len rows.old }
    ensures { rows.new.items ≡ insert rows.old.items place row }
{
    let added = rows.insert(place, row);
    prove!(added.is_ok());
}
