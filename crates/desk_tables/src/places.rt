//! Places in tables that are in key order.

ghost use Rattle.std.specs.Prelude.{◌≡◌, ◌≤◌, ◌&&◌, ◌==◌, length, filter, take, drop, count_by, not, nat_lt, nat_le};
ghost use Rattle.std.specs.Ordering.{nat_cmp};
ghost use Rattle.std.specs.Str.{bytes_eq};
ghost use Rattle.desk_tables.specs.Order.{text_cmp, texts_cmp, numbered_cmp, before, Ascends, Splits};
ghost use Rattle.desk_tables.specs.Tables.{approval_key, file_key, certificate_key};

use crate::{ApprovalRow, CertificateRow, FileRow};
use std::cmp::Ordering;

/// Whether two texts have the same bytes.
pub fn is_same(a: &[u8], b: &[u8]) -> bool
    ensures { result ≡ bytes_eq a.now b.now }
{
    a == b
}

/// The order of two texts.
pub fn text_order(a: &[u8], b: &[u8]) -> Ordering
    ensures { result ≡ text_cmp a.now b.now }
{
    a.cmp(b)
}

/// The order of two pairs of texts.
pub fn texts_order(a: &[u8], b: &[u8], c: &[u8], d: &[u8]) -> Ordering
    ensures { result ≡ texts_cmp (a.now, b.now) (c.now, d.now) }
{
    text_order(a, c).then(text_order(b, d))
}

/// The order of two numbers with a text.
pub fn numbered_order(m: u64, a: &[u8], n: u64, b: &[u8]) -> Ordering
    ensures { result ≡ numbered_cmp (m, a.now) (n, b.now) }
{
    m.cmp(&n).then(text_order(a, b))
}

/// How many rows come before the review's approval by the user.
pub fn approval_place(rows: &[ApprovalRow], review: u64, user: &[u8]) -> usize
    requires { Ascends numbered_cmp approval_key rows.now }
    ensures { Splits (before numbered_cmp approval_key (review, user.now)) rows.now result }
{
    rows.partition_point(|a| numbered_order(a.review, a.user.as_bytes(), review, user).is_lt())
}

/// How many rows come before the certificate of the review.
pub fn certificate_place(rows: &[CertificateRow], review: u64) -> usize
    requires { Ascends nat_cmp certificate_key rows.now }
    ensures { Splits (before nat_cmp certificate_key review) rows.now result }
{
    rows.partition_point(|c| c.review.cmp(&review).is_lt())
}

/// How many approvals are of reviews before the review.
pub fn first_approval(rows: &[ApprovalRow], review: u64) -> usize
    requires { Ascends numbered_cmp approval_key rows.now }
    ensures { Splits (λ a. nat_lt a.review review) rows.now result }
{
    rows.partition_point(|a| a.review < review)
}

/// How many files are of reviews before the review.
pub fn first_file(rows: &[FileRow], review: u64) -> usize
    requires { Ascends numbered_cmp file_key rows.now }
    ensures { Splits (λ f. nat_lt f.review review) rows.now result }
{
    rows.partition_point(|f| f.review < review)
}

/// How many approvals are of reviews up to the review.
pub fn past_approval(rows: &[ApprovalRow], review: u64) -> usize
    requires { Ascends numbered_cmp approval_key rows.now }
    ensures { Splits (λ a. nat_le a.review review) rows.now result }
{
    rows.partition_point(|a| a.review <= review)
}

/// How many files are of reviews up to the review.
pub fn past_file(rows: &[FileRow], review: u64) -> usize
    requires { Ascends numbered_cmp file_key rows.now }
    ensures { Splits (λ f. nat_le f.review review) rows.now result }
{
    rows.partition_point(|f| f.review <= review)
}
