//! The six tables in memory.

ghost use Rattle.std.specs.Prelude.{◌≡◌, IfOk};
ghost use Rattle.desk_tables.specs.Order.{Ascends, texts_cmp};
ghost use Rattle.desk_tables.specs.Tables.{kept_key};

use desk_tables::{ApprovalRow, CertificateRow, FileRow, KeptTable, PolicyRow, ReviewRow, Rows};
use net_types::{List, NoMemory};
use std::alloc::Global;
use std::marker::Model;

/// The six tables, in which a kept row is put without moving others. Contracts see the rows.
#[derive(Debug, Drop)]
pub(crate) struct Tables {
    pub(crate) policies: List<PolicyRow>,
    pub(crate) reviews: List<ReviewRow>,
    pub(crate) files: List<FileRow>,
    pub(crate) approvals: List<ApprovalRow>,
    pub(crate) certificates: List<CertificateRow>,
    pub(crate) kept: KeptTable,
}

impl Model for Tables {
    ghost use Rattle.desk_tables.specs.declared.rows.Rows.{Rows};

    ghost Value = { Rows };

    ghost view = { λ t. record { policies = t.policies; reviews = t.reviews; files = t.files; approvals = t.approvals; certificates = t.certificates; kept = t.kept.items } };
}

impl Tables {
    /// The tables of these rows.
    pub(crate) fn of(alloc: Global, rows: Rows) -> Result<Tables, NoMemory>
        requires { Ascends texts_cmp kept_key rows.kept }
        ensures { IfOk result (λ tables. tables ≡ rows) }
    {
        let kept = KeptTable::of(alloc, rows.kept)?;
        Ok(Tables {
            policies: rows.policies,
            reviews: rows.reviews,
            files: rows.files,
            approvals: rows.approvals,
            certificates: rows.certificates,
            kept,
        })
    }
}
