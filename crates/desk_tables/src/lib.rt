//! The six tables of the desk: their rows, the order of their keys, and what is looked up and put there.
//!
//! Decides: what a row is, which rows come first, when tables are valid, where a key stands and what a new
//! row makes of a table. Which rows a command changes, `review_rules` decides.
//! Stands on: `net_types` alone.
//! Promises: each look-up and each insertion is the one of `specs/`, for every table in key order, by halves:
//! no table is walked.
#![tactic(auto)]

mod inserts;
mod kept;
mod lookups;
mod places;
mod rows;

pub use inserts::{
    add_approval, add_files, add_policy, add_review, copy, copy_text, file_rows, merge_review,
    put_certificate, source_files, withdraw_review,
};
pub use kept::KeptTable;
pub use lookups::{
    approvals_in, approvals_to, certificate_in, files_in, is_approved_by, is_same_files, item,
    policy_in, review_in, user_with,
};
pub use places::{is_same, numbered_order, texts_order};
pub use rows::{ApprovalRow, CertificateRow, FileRow, KeptRow, PolicyRow, ReviewRow, Rows, User};
