//! The rows of the six tables, and a user.

use net_types::{List, Text};

/// Somebody who may send commands.
#[derive(Debug, Drop)]
pub struct User {
    /// The name, by which reviews, approvals and keys know the user.
    pub name: Text,
    /// The secret that tells who asks.
    pub token: Text,
    /// May submit, certify, merge and withdraw.
    pub author: bool,
    /// May certify and approve.
    pub approver: bool,
    /// May set the policy.
    pub admin: bool,
}

/// The six tables, each in the order of its keys.
#[derive(Debug, Drop)]
pub struct Rows {
    /// The versions of the policy.
    pub policies: List<PolicyRow>,
    /// The reviews.
    pub reviews: List<ReviewRow>,
    /// The files of their bundles.
    pub files: List<FileRow>,
    /// The approvals.
    pub approvals: List<ApprovalRow>,
    /// The certificates.
    pub certificates: List<CertificateRow>,
    /// What was answered under the users' keys.
    pub kept: List<KeptRow>,
}

/// A version of the policy.
#[derive(Debug, Drop)]
pub struct PolicyRow {
    /// The key: 1, 2, 3 and so on.
    pub version: u64,
    /// How many approvals a merge needs.
    pub approvals: u64,
    /// The property file.
    pub book: List<u8>,
}

/// A review.
#[derive(Debug, Drop)]
pub struct ReviewRow {
    /// The key: 1, 2, 3 and so on.
    pub id: u64,
    /// The name of the user who submitted it.
    pub author: Text,
    /// What its author called it.
    pub title: Text,
    /// The head on which it was made.
    pub base: u64,
    /// 0 open, 1 merged, 2 withdrawn.
    pub state: u8,
    /// The head as which it is merged, else 0.
    pub head: u64,
}

/// A file of a review's bundle; review and name are the key.
#[derive(Debug, Drop)]
pub struct FileRow {
    /// The review's number.
    pub review: u64,
    /// The file's name.
    pub name: Text,
    /// The file's bytes.
    pub body: List<u8>,
}

/// An approval of a review by a user; both are the key.
#[derive(Debug, Drop)]
pub struct ApprovalRow {
    /// The review's number.
    pub review: u64,
    /// The user's name.
    pub user: Text,
}

/// A review's certificate, made under a version of the policy; the review is the key.
#[derive(Debug, Drop)]
pub struct CertificateRow {
    /// The review's number.
    pub review: u64,
    /// The policy's version, or 0 where there was none yet.
    pub policy: u64,
    /// The position in the book of the first property that is not certified.
    pub missing: Option<u8>,
    /// The report.
    pub report: List<u8>,
}

/// What was answered to a command of a user under a key; user and key are the key of the table.
#[derive(Debug, Drop)]
pub struct KeptRow {
    /// The user's name.
    pub user: Text,
    /// The key that the user gave the command.
    pub key: Text,
    /// Which command: 1 set policy, 2 submit, 3 certify, 4 approve, 5 merge, 6 withdraw.
    pub kind: u8,
    /// The policy's version for kind 1, else the review's number.
    pub target: u64,
    /// The reply.
    pub reply: List<u8>,
}
