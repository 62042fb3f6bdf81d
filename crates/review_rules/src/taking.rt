//! A change is made in the desk: room for its rows first, then the rows.

ghost use Rattle.std.specs.Prelude.{◌≡◌, ◌+◌, ◌-◌, ◌^◌, ◌<◌, ◌≤◌, ◌++◌, ◌∷◌, [], OnOk, length, sum_by, min, vec_len, vec_capacity};
ghost use Rattle.desk_tables.specs.Tables.{bytes_of};
ghost use Rattle.desk_tables.specs.Valid.{IsValid};
ghost use Rattle.review_rules.specs.Changes.{rows_of, heads_of, made, CanBeMade, file_size, kind_cost, kind_freed};

use crate::{Change, ChangeKind, Desk};
use desk_tables::{
    ApprovalRow, CertificateRow, FileRow, KeptRow, PolicyRow, ReviewRow, add_approval, add_files,
    add_policy, add_review, merge_review, put_certificate, withdraw_review,
};
use net_types::{List, NoMemory};
use std::alloc::Global;

impl Desk {
    /// Makes room for the rows of a change, and leaves users and rows as they were.
    ///
    /// # Errors
    /// `NoMemory` at any time.
    pub fn reserve(&mut self, _alloc: Global, change: &Change) -> Result<(), NoMemory>
        ensures same { self.new.state ≡ self.old.state }
        ensures room { OnOk result (rows_of change.now.kind ≤ self.new.spare) }
    {
        self.spare = 0;
        let rows = rows_in(&change.kind);
        self.policies.reserve(rows)?;
        self.reviews.reserve(rows)?;
        self.files.reserve(rows)?;
        self.approvals.reserve(rows)?;
        self.certificates.reserve(rows)?;
        self.kept.reserve(rows)?;
        self.heads.reserve(rows)?;
        self.spare = rows;
        Ok(())
    }

    /// Makes a change, in the room that is reserved. It takes no memory and cannot fail.
    pub fn take(&mut self, change: Change)
        requires room { rows_of change.kind ≤ self.old.spare }
        requires can { CanBeMade change self.old.state.tables }
        ensures users { self.new.state.users ≡ self.old.state.users }
        ensures tables { self.new.state.tables ≡ made change self.old.state.tables }
    {
        let bytes = self.bytes_with(&change);
        let Change { kind, kept } = change;
        match kind {
            ChangeKind::Policy(row) => self.take_policy(row, kept, bytes),
            ChangeKind::Review(row, files) => self.take_review(row, files, kept, bytes),
            ChangeKind::Certificate(row) => self.take_certificate(row, kept, bytes),
            ChangeKind::Approval(row) => self.take_approval(row, kept, bytes),
            ChangeKind::Merge { review, head } => self.take_merge(review, head, kept, bytes),
            ChangeKind::Withdraw { review } => self.take_withdrawal(review, kept, bytes),
        }
    }

    // The bytes kept with a change.
    fn bytes_with(&self, change: &Change) -> u128
        requires { CanBeMade change.now self.now.state.tables }
        ensures { result ≡ bytes_of (made change.now self.now.state.tables) }
    {
        self.bytes_after(self.freed_by(&change.kind), cost_of(&change.kind))
    }

    // The bytes of what the change replaces.
    fn freed_by(&self, kind: &ChangeKind) -> u128
        ensures value { result ≡ kind_freed self.now.state.tables kind.now }
        ensures small { result < 2 ^ 65 }
    {
        match kind {
            ChangeKind::Certificate(row) => match self.certificate(row.review) {
                Some(certificate) => certificate.report.len() as u128 + 256,
                None => 0,
            },
            _ => 0,
        }
    }

    // Makes the change of a new policy.
    fn take_policy(&mut self, row: PolicyRow, kept: KeptRow, bytes: u128)
        requires room { 1 ≤ self.old.spare }
        requires can { CanBeMade (record { kind = ChangeKind.Policy row; kept = kept }) self.old.state.tables }
        requires sum { bytes ≡ bytes_of (made (record { kind = ChangeKind.Policy row; kept = kept }) self.old.state.tables) }
        ensures users { self.new.state.users ≡ self.old.state.users }
        ensures tables { self.new.state.tables ≡ made (record { kind = ChangeKind.Policy row; kept = kept }) self.old.state.tables }
    {
        self.spare = 0;
        self.bytes = bytes;
        add_policy(&mut self.policies, row);
        self.kept.put(kept);
    }

    // Makes the change of a submission.
    fn take_review(&mut self, row: ReviewRow, files: List<FileRow>, kept: KeptRow, bytes: u128)
        requires room { length files + 1 ≤ self.old.spare }
        requires can { CanBeMade (record { kind = ChangeKind.Review row files; kept = kept }) self.old.state.tables }
        requires sum { bytes ≡ bytes_of (made (record { kind = ChangeKind.Review row files; kept = kept }) self.old.state.tables) }
        ensures users { self.new.state.users ≡ self.old.state.users }
        ensures tables { self.new.state.tables ≡ made (record { kind = ChangeKind.Review row files; kept = kept }) self.old.state.tables }
    {
        self.spare = 0;
        self.bytes = bytes;
        add_review(&mut self.reviews, row);
        add_files(&mut self.files, files);
        self.kept.put(kept);
    }

    // Makes the change of a command to certify.
    fn take_certificate(&mut self, row: CertificateRow, kept: KeptRow, bytes: u128)
        requires room { 1 ≤ self.old.spare }
        requires can { CanBeMade (record { kind = ChangeKind.Certificate row; kept = kept }) self.old.state.tables }
        requires sum { bytes ≡ bytes_of (made (record { kind = ChangeKind.Certificate row; kept = kept }) self.old.state.tables) }
        ensures users { self.new.state.users ≡ self.old.state.users }
        ensures tables { self.new.state.tables ≡ made (record { kind = ChangeKind.Certificate row; kept = kept }) self.old.state.tables }
    {
        self.spare = 0;
        self.bytes = bytes;
        put_certificate(&mut self.certificates, row);
        self.kept.put(kept);
    }

    // Makes the change of an approval.
    fn take_approval(&mut self, row: ApprovalRow, kept: KeptRow, bytes: u128)
        requires room { 1 ≤ self.old.spare }
        requires can { CanBeMade (record { kind = ChangeKind.Approval row; kept = kept }) self.old.state.tables }
        requires sum { bytes ≡ bytes_of (made (record { kind = ChangeKind.Approval row; kept = kept }) self.old.state.tables) }
        ensures users { self.new.state.users ≡ self.old.state.users }
        ensures tables { self.new.state.tables ≡ made (record { kind = ChangeKind.Approval row; kept = kept }) self.old.state.tables }
    {
        self.spare = 0;
        self.bytes = bytes;
        add_approval(&mut self.approvals, row);
        self.kept.put(kept);
    }

    // Makes the change of a merge.
    fn take_merge(&mut self, review: u64, head: u64, kept: KeptRow, bytes: u128)
        requires room { 1 ≤ self.old.spare }
        requires can { CanBeMade (record { kind = ChangeKind.Merge review head; kept = kept }) self.old.state.tables }
        requires sum { bytes ≡ bytes_of (made (record { kind = ChangeKind.Merge review head; kept = kept }) self.old.state.tables) }
        ensures users { self.new.state.users ≡ self.old.state.users }
        ensures tables { self.new.state.tables ≡ made (record { kind = ChangeKind.Merge review head; kept = kept }) self.old.state.tables }
    {
        self.spare = 0;
        self.bytes = bytes;
        merge_review(&mut self.reviews, review, head);
        add_head(&mut self.heads, review);
        self.kept.put(kept);
    }

    // Makes the change of a withdrawal.
    fn take_withdrawal(&mut self, review: u64, kept: KeptRow, bytes: u128)
        requires room { 1 ≤ self.old.spare }
        requires can { CanBeMade (record { kind = ChangeKind.Withdraw review; kept = kept }) self.old.state.tables }
        requires sum { bytes ≡ bytes_of (made (record { kind = ChangeKind.Withdraw review; kept = kept }) self.old.state.tables) }
        ensures users { self.new.state.users ≡ self.old.state.users }
        ensures tables { self.new.state.tables ≡ made (record { kind = ChangeKind.Withdraw review; kept = kept }) self.old.state.tables }
    {
        self.spare = 0;
        self.bytes = bytes;
        withdraw_review(&mut self.reviews, review);
        self.kept.put(kept);
    }
}

// How many bytes the rows of files have. The number stops at the end of its type.
fn size_of_rows(files: &[FileRow]) -> u128
    ensures { result ≡ min (sum_by file_size files.now) (2 ^ 128 - 1) }
{
    let mut size: u128 = 0;
    for file in files {
        size = size
            .saturating_add(file.name.len() as u128)
            .saturating_add(file.body.len() as u128);
    }
    size
}

// How many bytes more a change keeps. The number stops at the end of its type.
fn cost_of(kind: &ChangeKind) -> u128
    ensures { result ≡ min (kind_cost kind.now) (2 ^ 128 - 1) }
{
    match kind {
        ChangeKind::Policy(row) => row.book.len() as u128 + 512,
        ChangeKind::Review(_, files) => size_of_rows(files.as_slice()).saturating_add(512),
        ChangeKind::Certificate(row) => row.report.len() as u128 + 512,
        ChangeKind::Approval(_) => 512,
        ChangeKind::Merge { .. } => 256,
        ChangeKind::Withdraw { .. } => 256,
    }
}

// How many rows a change adds to a table at most.
fn rows_in(kind: &ChangeKind) -> usize
    ensures { result ≡ rows_of kind.now }
{
    match kind {
        ChangeKind::Review(_, files) => files.as_slice().len() + 1,
        _ => 1,
    }
}

// Puts the number of a merged review behind the others, where there is room.
fn add_head(heads: &mut Vec<u64>, review: u64)
    requires { vec_len heads.old < vec_capacity heads.old }
    ensures { heads.new.items ≡ heads.old.items ++ review ∷ [] }
{
    let added = heads.push(review);
    prove!(added.is_ok());
}
