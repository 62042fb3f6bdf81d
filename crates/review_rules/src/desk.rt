//! The desk: the users and the six tables, in memory.

ghost use Rattle.std.specs.Prelude.{◌≡◌, ◌+◌, ◌-◌, ◌^◌, ◌<◌, ℕ, Some, length, min, slice_get};
ghost use Rattle.std.specs.Option.{option_copied, option_map};
ghost use Rattle.desk_tables.specs.Tables.{user_of, review_of, policy_of, certificate_of, kept_of, files_of, approvals_of, approvals_to, has_approved, head_of, merged_of, version_of, needed, number_of, kept_at, book_of, bytes_of};
ghost use Rattle.desk_tables.specs.Valid.{IsValid};
ghost use Rattle.review_rules.specs.Rules.{kept_under};

use crate::Request;
use desk_tables::{
    ApprovalRow, CertificateRow, FileRow, KeptRow, KeptTable, PolicyRow, ReviewRow, User,
    approvals_in, approvals_to, certificate_in, files_in, is_approved_by, item, policy_in,
    review_in, user_with,
};
use net_types::Text;
use std::marker::Model;

/// The users and the six tables. It keeps in mind which review is merged as which head, and the bytes kept.
#[derive(Debug, Drop)]
pub struct Desk {
    pub(crate) users: Vec<User>,
    pub(crate) policies: Vec<PolicyRow>,
    pub(crate) reviews: Vec<ReviewRow>,
    pub(crate) files: Vec<FileRow>,
    pub(crate) approvals: Vec<ApprovalRow>,
    pub(crate) certificates: Vec<CertificateRow>,
    pub(crate) kept: KeptTable,
    // The numbers of the merged reviews, in the order of their heads.
    pub(crate) heads: Vec<u64>,
    pub(crate) bytes: u128,
    pub(crate) spare: usize,
}

impl Model for Desk {
    ghost use Rattle.std.specs.Prelude.{◌+◌, ◌≤◌, vec_len, vec_capacity};
    ghost use Rattle.desk_tables.specs.Valid.{IsDesk};
    ghost use Rattle.review_rules.specs.State.{Held};

    ghost Value = { Held };

    ghost view = { λ d. record { state = record { users = d.users.items; tables = record { policies = d.policies.items; reviews = d.reviews.items; files = d.files.items; approvals = d.approvals.items; certificates = d.certificates.items; kept = d.kept.items } }; spare = d.spare } };

    ghost invariant = { λ d. IsDesk (record { policies = d.policies.items; reviews = d.reviews.items; files = d.files.items; approvals = d.approvals.items; certificates = d.certificates.items; kept = d.kept.items }) d.heads.items d.bytes
        × (vec_len d.policies + d.spare ≤ vec_capacity d.policies)
        × (vec_len d.reviews + d.spare ≤ vec_capacity d.reviews)
        × (vec_len d.files + d.spare ≤ vec_capacity d.files)
        × (vec_len d.approvals + d.spare ≤ vec_capacity d.approvals)
        × (vec_len d.certificates + d.spare ≤ vec_capacity d.certificates)
        × (d.spare ≤ d.kept.room)
        × (vec_len d.heads + d.spare ≤ vec_capacity d.heads) };
}

impl Desk {
    /// What every desk keeps: its tables are valid. It does nothing.
    pub fn check(&self)
        ensures { IsValid self.now.state.tables }
    {
        let _ = &self.users;
    }

    /// The user with the token.
    pub fn user(&self, token: &[u8]) -> Option<&User>
        ensures { option_copied result ≡ user_of self.now.state.users token.now }
    {
        user_with(self.users.as_slice(), token)
    }

    /// The head: how many reviews are merged.
    pub fn head(&self) -> u64
        ensures { result ≡ head_of self.now.state.tables }
    {
        self.heads.len() as u64
    }

    /// The number of the present version of the policy, or 0.
    pub fn policy(&self) -> u64
        ensures { result ≡ version_of self.now.state.tables }
    {
        self.policies.len() as u64
    }

    /// The row of the policy's version.
    pub fn policy_row(&self, version: u64) -> Option<&PolicyRow>
        ensures { option_copied result ≡ policy_of self.now.state.tables version }
    {
        policy_in(self.policies.as_slice(), version)
    }

    /// The kept row of this number, counted from 1, as `Decision::Repeated` names it.
    pub fn kept(&self, row: u64) -> Option<&KeptRow>
        ensures { option_copied result ≡ kept_at self.now.state.tables row }
    {
        if row == 0 {
            return None;
        }
        self.kept.row((row - 1) as usize)
    }

    /// The review of the number.
    pub fn review(&self, id: u64) -> Option<&ReviewRow>
        ensures { option_copied result ≡ review_of self.now.state.tables id }
    {
        review_in(self.reviews.as_slice(), id)
    }

    /// How many reviews there are.
    pub fn reviews(&self) -> u64
        ensures { result ≡ length self.now.state.tables.reviews }
    {
        self.reviews.len() as u64
    }

    /// The number of the review that is merged as this head.
    pub fn merged_as(&self, head: u64) -> Option<u64>
        ensures { result ≡ merged_of self.now.state.tables head }
    {
        let numbers = self.merges();
        if head == 0 {
            return None;
        }
        number_at(numbers, (head - 1) as usize)
    }

    /// The numbers of the merged reviews, in the order of their heads.
    fn merges(&self) -> &[u64]
        ensures valid { IsValid self.now.state.tables }
        ensures heads { (at : ℕ) → slice_get result.now at ≡ merged_of self.now.state.tables (at + 1) }
    {
        self.heads.as_slice()
    }

    /// The certificate of the review.
    pub fn certificate(&self, review: u64) -> Option<&CertificateRow>
        ensures { option_copied result ≡ certificate_of self.now.state.tables review }
    {
        certificate_in(self.certificates.as_slice(), review)
    }

    /// The name of the approver of the review at this position, from 0, in byte order of the names.
    pub fn approver(&self, review: u64, at: u64) -> Option<&Text>
        ensures { option_copied result ≡ option_map (λ a. a.user) (slice_get (approvals_to self.now.state.tables review) at) }
    {
        match item(approvals_to(self.approvals.as_slice(), review), at as usize) {
            Some(row) => Some(&row.user),
            None => None,
        }
    }

    /// The file of the review at this position, from 0, in byte order of the names.
    pub fn file(&self, review: u64, at: u64) -> Option<&FileRow>
        ensures { option_copied result ≡ slice_get (files_of self.now.state.tables review) at }
    {
        item(self.files_of(review), at as usize)
    }

    /// The files of the review, in byte order of their names.
    pub fn files_of(&self, review: u64) -> &[FileRow]
        ensures value { result.now ≡ files_of self.now.state.tables review }
        ensures valid { IsValid self.now.state.tables }
    {
        files_in(self.files.as_slice(), review)
    }

    /// How many have approved the review.
    pub fn approvals(&self, id: u64) -> u64
        ensures { result ≡ approvals_of self.now.state.tables id }
    {
        approvals_in(self.approvals.as_slice(), id) as u64
    }

    /// Whether the user has approved the review.
    pub fn has_approved(&self, id: u64, user: &[u8]) -> bool
        ensures { result ≡ has_approved self.now.state.tables id user.now }
    {
        is_approved_by(self.approvals.as_slice(), id, user)
    }

    /// The approvals that the policy asks for.
    pub fn needed(&self) -> u64
        ensures { result ≡ needed self.now.state.tables }
    {
        match self.policy_row(self.policy()) {
            Some(policy) => policy.approvals,
            None => 1,
        }
    }

    /// The property file of the policy, without bytes where there is none yet.
    pub fn book(&self) -> &[u8]
        ensures { result.now ≡ book_of self.now.state.tables }
    {
        match self.policy_row(self.policy()) {
            Some(policy) => policy.book.as_slice(),
            None => &[],
        }
    }

    /// The number of the next version of the policy.
    pub(crate) fn next_version(&self) -> u64
        ensures { result ≡ version_of self.now.state.tables + 1 }
    {
        self.policies.len() as u64 + 1
    }

    /// The number of the next review.
    pub(crate) fn next_review(&self) -> u64
        ensures { result ≡ length self.now.state.tables.reviews + 1 }
    {
        self.reviews.len() as u64 + 1
    }

    /// The head after one more merge.
    pub(crate) fn next_head(&self) -> u64
        ensures { result ≡ head_of self.now.state.tables + 1 }
    {
        self.heads.len() as u64 + 1
    }

    /// How many have approved the review after one more.
    pub(crate) fn approvals_after(&self, id: u64) -> u64
        ensures { result ≡ approvals_of self.now.state.tables id + 1 }
    {
        approvals_in(self.approvals.as_slice(), id) as u64 + 1
    }

    /// What is kept for the user's key.
    pub fn kept_by(&self, user: &[u8], key: &[u8]) -> Option<&KeptRow>
        ensures { option_copied result ≡ kept_of self.now.state.tables user.now key.now }
    {
        self.kept.find(user, key)
    }

    /// The bytes kept where so many are taken away and so many added. The number stops at the end of its type; where
    /// few are taken away, it is exact up to 64 bits.
    pub(crate) fn bytes_after(&self, freed: u128, cost: u128) -> u128
        requires { freed < 2 ^ 65 }
        ensures bytes { (n : ℕ) → cost ≡ min n (2 ^ 128 - 1) → min result (2 ^ 64 - 1) ≡ min (bytes_of self.now.state.tables - freed + n) (2 ^ 64 - 1) }
        ensures valid { IsValid self.now.state.tables }
    {
        let _bytes = self.bytes;
        self.bytes.saturating_sub(freed).saturating_add(cost)
    }

    /// What is kept under the request's key by its user.
    pub fn kept_under(&self, request: &Request) -> Option<&KeptRow>
        ensures { option_copied result ≡ kept_under self.now.state request.now }
    {
        match self.user(request.token.as_bytes()) {
            Some(user) => self.kept_by(user.name.as_bytes(), request.key.as_bytes()),
            None => None,
        }
    }

    /// The number of a kept row, from 1.
    pub fn number(&self, row: &KeptRow) -> u64
        ensures { result ≡ number_of self.now.state.tables row.now }
    {
        self.kept.place(row.user.as_bytes(), row.key.as_bytes()) as u64 + 1
    }
}

// The number at a place, if there is one.
fn number_at(numbers: &[u64], at: usize) -> Option<u64>
    ensures { result ≡ slice_get numbers.now at }
{
    if at < numbers.len() {
        Some(numbers[at])
    } else {
        None
    }
}
