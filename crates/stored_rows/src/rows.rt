//! Which stored row is the first that is not valid.

ghost use Rattle.std.specs.Prelude.{◌≡◌, ◌+◌, ◌≤◌, ◌++◌, ◌∷◌, [], false, None, List, IfOk, length, option_map, if◌then◌else◌, ◌==◌};
ghost use Rattle.std.specs.Option.{option_copied};
ghost use Rattle.std.specs.Ordering.{nat_cmp};
ghost use Rattle.desk_tables.specs.Order.{numbered_cmp, texts_cmp};
ghost use Rattle.desk_tables.specs.Tables.{head_of, is_merged, file_key, approval_key, certificate_key, kept_key};
ghost use Rattle.desk_tables.specs.declared.rows.PolicyRow.{PolicyRow};
ghost use Rattle.desk_tables.specs.declared.rows.ReviewRow.{ReviewRow};
ghost use Rattle.stored_rows.specs.Stored.{first_bad, first_out, follows, is_up_to, bad_policy, bad_merged, bad_open, bad_head, bad_review, good_file, bad_file, good_approval, bad_approval, good_certificate, bad_certificate, has_target, good_kept, bad_kept, bad_in_policies, bad_in_reviews, bad_in_files, bad_in_approvals, bad_in_certificates, bad_in_kept, first_bad_row, in_table, pair_of, bad_behind, Marks};
ghost use Rattle.std.specs.Prelude.{count_by};

use desk_tables::{
    ApprovalRow, CertificateRow, FileRow, KeptRow, PolicyRow, ReviewRow, Rows, numbered_order,
    texts_order,
};
use net_types::{NoMemory, is_host};
use std::alloc::Global;

/// A row that is not valid: the number of its table, and its own from 1.
#[derive(Clone, Copy, PartialEq, Eq, Debug)]
pub struct BadRow {
    /// 1 policy, 2 review, 3 file, 4 approval, 5 certificate, 6 kept.
    pub table: u64,
    /// The row in key order, from 1.
    pub row: u64,
}

/// Whether a number is from 1 to n.
fn is_up_to(n: u64, id: u64) -> bool
    ensures { result ≡ is_up_to n id }
{
    1 <= id && id <= n
}

// Whether the version of this number breaks the validity.
#[tactic(auto, unfolding(crate::specs::Stored::bad_policy))]
fn is_bad_policy(row: &PolicyRow, number: u64) -> bool
    ensures { (past : List PolicyRow) → number ≡ length past + 1 → result ≡ bad_policy past row.now }
{
    row.version != number || !is_up_to(16, row.approvals)
}

// The number of the first version that is not valid.
fn first_bad_policy(rows: &[PolicyRow]) -> Option<u64>
    ensures { result ≡ first_bad bad_policy [] rows.now }
{
    for i in 0..rows.len() {
        let number = i as u64 + 1;
        if is_bad_policy(&rows[i], number) {
            return Some(number);
        }
    }
    None
}

// How many reviews are merged.
pub(crate) fn merged(rows: &[ReviewRow]) -> u64
    ensures value { result ≡ count_by is_merged rows.now }
    ensures few { result ≤ length rows.now }
{
    rows.iter().filter(|row| row.state == 1).count() as u64
}

// The number of the first review that is not valid, where so many are merged.
fn first_bad_review(alloc: Global, rows: &[ReviewRow], heads: u64) -> Result<Option<u64>, NoMemory>
    requires { heads ≤ length rows.now }
    ensures { IfOk result (λ bad. bad ≡ first_bad (bad_review heads) [] rows.now) }
{
    let mut seen = vec![in alloc; false; heads as usize + 1]?;
    for i in 0..rows.len() {
        let number = i as u64 + 1;
        if is_bad_review(&rows[i], number, heads, seen.as_slice()) {
            return Ok(Some(number));
        }
        mark(seen.as_mut_slice(), &rows[i], heads);
    }
    Ok(None)
}

// Marks the head of a merged review that is not bad.
fn mark(seen: &mut [bool], row: &ReviewRow, heads: u64)
    requires { length seen.old ≡ heads + 1 }
    ensures { (past : List ReviewRow) → Marks heads past seen.old → bad_review heads past row.now ≡ false → Marks heads (past ++ row.now ∷ []) seen.new }
{
    if row.state == 1 && row.head <= heads {
        seen[row.head as usize] = true;
    }
}

// Whether the review of this number breaks the validity, behind rows with these heads.
#[tactic(auto, unfolding(crate::specs::Stored::bad_review))]
fn is_bad_review(row: &ReviewRow, number: u64, heads: u64, seen: &[bool]) -> bool
    requires { length seen.now ≡ heads + 1 }
    ensures { (past : List ReviewRow) → number ≡ length past + 1 → Marks heads past seen.now → result ≡ bad_review heads past row.now }
{
    row.id != number || row.id > 10000 || row.state > 2 || is_bad_head(row, heads, seen)
}

// Whether the head or the base of a review is wrong.
fn is_bad_head(row: &ReviewRow, heads: u64, seen: &[bool]) -> bool
    requires { length seen.now ≡ heads + 1 }
    ensures { (past : List ReviewRow) → Marks heads past seen.now → result ≡ bad_head heads past row.now }
{
    if row.state == 1 {
        is_bad_merged(row, heads, seen)
    } else {
        is_bad_open(row, heads)
    }
}

// Whether the head or the base of a merged review is wrong.
fn is_bad_merged(row: &ReviewRow, heads: u64, seen: &[bool]) -> bool
    requires { length seen.now ≡ heads + 1 }
    ensures { (past : List ReviewRow) → Marks heads past seen.now → result ≡ bad_merged heads past row.now }
{
    row.head == 0 || row.head > heads || seen[row.head as usize] || row.head <= row.base
}

// Whether the head or the base of another review is wrong.
fn is_bad_open(row: &ReviewRow, heads: u64) -> bool
    ensures { result ≡ bad_open heads row.now }
{
    row.head != 0 || row.base > heads
}

// Whether a file is of a review and has the name of a host.
fn is_good_file(row: &FileRow, reviews: u64) -> bool
    ensures { result ≡ good_file reviews row.now }
{
    is_up_to(reviews, row.review) && is_host(row.name.as_bytes())
}

// Whether the key is greater than the one before it.
fn file_follows(last: Option<&FileRow>, row: &FileRow) -> bool
    ensures { result ≡ follows numbered_cmp file_key (option_copied last.entry) row.now }
{
    match last {
        Some(last) => numbered_order(
            last.review,
            last.name.as_bytes(),
            row.review,
            row.name.as_bytes(),
        )
        .is_lt(),
        None => true,
    }
}

// Whether the row breaks the validity behind the row before it.
#[tactic(auto, unfolding(crate::specs::Stored::bad_file))]
fn is_bad_file(last: Option<&FileRow>, row: &FileRow, reviews: u64) -> bool
    ensures { result ≡ bad_file reviews (option_copied last.entry) row.now }
{
    !file_follows(last, row) || !is_good_file(row, reviews)
}

// The number of the first row that is not valid.
fn first_bad_file(rows: &[FileRow], reviews: u64) -> Option<u64>
    ensures { result ≡ first_out (bad_file reviews) 1 None rows.now }
{
    let mut last: Option<&FileRow> = None;
    for (i, row) in rows.iter().enumerate() {
        if is_bad_file(last, row, reviews) {
            return Some(i as u64 + 1);
        }
        last = Some(row);
    }
    None
}

// Whether an approval is of a review.
fn is_good_approval(row: &ApprovalRow, reviews: u64) -> bool
    ensures { result ≡ good_approval reviews row.now }
{
    is_up_to(reviews, row.review)
}

// Whether the key is greater than the one before it.
fn approval_follows(last: Option<&ApprovalRow>, row: &ApprovalRow) -> bool
    ensures { result ≡ follows numbered_cmp approval_key (option_copied last.entry) row.now }
{
    match last {
        Some(last) => numbered_order(
            last.review,
            last.user.as_bytes(),
            row.review,
            row.user.as_bytes(),
        )
        .is_lt(),
        None => true,
    }
}

// Whether the row breaks the validity behind the row before it.
#[tactic(auto, unfolding(crate::specs::Stored::bad_approval))]
fn is_bad_approval(last: Option<&ApprovalRow>, row: &ApprovalRow, reviews: u64) -> bool
    ensures { result ≡ bad_approval reviews (option_copied last.entry) row.now }
{
    !approval_follows(last, row) || !is_good_approval(row, reviews)
}

// The number of the first row that is not valid.
fn first_bad_approval(rows: &[ApprovalRow], reviews: u64) -> Option<u64>
    ensures { result ≡ first_out (bad_approval reviews) 1 None rows.now }
{
    let mut last: Option<&ApprovalRow> = None;
    for (i, row) in rows.iter().enumerate() {
        if is_bad_approval(last, row, reviews) {
            return Some(i as u64 + 1);
        }
        last = Some(row);
    }
    None
}

// Whether a certificate is of a review and of a version of the policy.
fn is_good_certificate(row: &CertificateRow, reviews: u64, policies: u64) -> bool
    ensures { result ≡ good_certificate reviews policies row.now }
{
    is_up_to(reviews, row.review) && row.policy <= policies && row.missing.unwrap_or(0) < 64
}

// Whether the key is greater than the one before it.
fn certificate_follows(last: Option<&CertificateRow>, row: &CertificateRow) -> bool
    ensures { result ≡ follows nat_cmp certificate_key (option_copied last.entry) row.now }
{
    match last {
        Some(last) => last.review.cmp(&row.review).is_lt(),
        None => true,
    }
}

// Whether the row breaks the validity behind the row before it.
#[tactic(auto, unfolding(crate::specs::Stored::bad_certificate))]
fn is_bad_certificate(
    last: Option<&CertificateRow>,
    row: &CertificateRow,
    reviews: u64,
    policies: u64,
) -> bool
    ensures { result ≡ bad_certificate reviews policies (option_copied last.entry) row.now }
{
    !certificate_follows(last, row) || !is_good_certificate(row, reviews, policies)
}

// The number of the first row that is not valid.
fn first_bad_certificate(rows: &[CertificateRow], reviews: u64, policies: u64) -> Option<u64>
    ensures { result ≡ first_out (bad_certificate reviews policies) 1 None rows.now }
{
    let mut last: Option<&CertificateRow> = None;
    for (i, row) in rows.iter().enumerate() {
        if is_bad_certificate(last, row, reviews, policies) {
            return Some(i as u64 + 1);
        }
        last = Some(row);
    }
    None
}

// Whether what the row is about is there.
fn has_target(row: &KeptRow, reviews: u64, policies: u64) -> bool
    ensures { result ≡ has_target reviews policies row.now }
{
    is_up_to(if row.kind == 1 { policies } else { reviews }, row.target)
}

// Whether what is kept is of a kind and has its target.
fn is_good_kept(row: &KeptRow, reviews: u64, policies: u64) -> bool
    ensures { result ≡ good_kept reviews policies row.now }
{
    is_up_to(6, row.kind as u64) && has_target(row, reviews, policies)
}

// Whether the key is greater than the one before it.
fn kept_follows(last: Option<&KeptRow>, row: &KeptRow) -> bool
    ensures { result ≡ follows texts_cmp kept_key (option_copied last.entry) row.now }
{
    match last {
        Some(last) => texts_order(
            last.user.as_bytes(),
            last.key.as_bytes(),
            row.user.as_bytes(),
            row.key.as_bytes(),
        )
        .is_lt(),
        None => true,
    }
}

// Whether the row breaks the validity behind the row before it.
#[tactic(auto, unfolding(crate::specs::Stored::bad_kept))]
fn is_bad_kept(last: Option<&KeptRow>, row: &KeptRow, reviews: u64, policies: u64) -> bool
    ensures { result ≡ bad_kept reviews policies (option_copied last.entry) row.now }
{
    !kept_follows(last, row) || !is_good_kept(row, reviews, policies)
}

// The number of the first row that is not valid.
fn first_bad_kept(rows: &[KeptRow], reviews: u64, policies: u64) -> Option<u64>
    ensures { result ≡ first_out (bad_kept reviews policies) 1 None rows.now }
{
    let mut last: Option<&KeptRow> = None;
    for (i, row) in rows.iter().enumerate() {
        if is_bad_kept(last, row, reviews, policies) {
            return Some(i as u64 + 1);
        }
        last = Some(row);
    }
    None
}

// The first bad row of the tables behind those of reviews.
fn bad_behind(rows: &Rows) -> Option<BadRow>
    ensures { option_map pair_of result ≡ bad_behind rows.now }
{
    let reviews = rows.reviews.len() as u64;
    let policies = rows.policies.len() as u64;
    if let Some(row) = first_bad_file(rows.files.as_slice(), reviews) {
        return Some(BadRow { table: 3, row });
    }
    if let Some(row) = first_bad_approval(rows.approvals.as_slice(), reviews) {
        return Some(BadRow { table: 4, row });
    }
    if let Some(row) = first_bad_certificate(rows.certificates.as_slice(), reviews, policies) {
        return Some(BadRow { table: 5, row });
    }
    match first_bad_kept(rows.kept.as_slice(), reviews, policies) {
        Some(row) => Some(BadRow { table: 6, row }),
        None => None,
    }
}

/// The first row that is not valid, in the first table that has one.
///
/// # Errors
/// `NoMemory` at any time.
pub fn first_bad_row(alloc: Global, rows: &Rows) -> Result<Option<BadRow>, NoMemory>
    ensures { IfOk result (λ bad. option_map pair_of bad ≡ first_bad_row rows.now) }
{
    if let Some(row) = first_bad_policy(rows.policies.as_slice()) {
        return Ok(Some(BadRow { table: 1, row }));
    }
    let heads = merged(rows.reviews.as_slice());
    match first_bad_review(alloc, rows.reviews.as_slice(), heads)? {
        Some(row) => Ok(Some(BadRow { table: 2, row })),
        None => Ok(bad_behind(rows)),
    }
}
