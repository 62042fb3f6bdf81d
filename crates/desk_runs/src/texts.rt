//! Answers in words.

use desk_tables::{Rows, User};
use net_types::{BundleRefusal, NoMemory};
use refusal_texts::{bundle_text, form_text};
use review_rules::{BundleSide, Lack, PolicyFault, Rule};
use std::alloc::Global;

/// What a file of users says: name, token and roles of each.
pub fn users_text(alloc: Global, users: &[User]) -> Result<String, NoMemory> {
    let mut text = String::from_str(alloc, "users:")?;
    for user in users {
        let (author, approver, admin) = roles_of(user);
        let (name, token) = (user.name.as_str(), user.token.as_str());
        let one = format!(in alloc; " {name} {token}{author}{approver}{admin};")?;
        text.push_str(one.as_str())?;
    }
    Ok(text)
}

fn roles_of(user: &User) -> (&str, &str, &str) {
    (
        if user.author { " author" } else { "" },
        if user.approver { " approver" } else { "" },
        if user.admin { " admin" } else { "" },
    )
}

/// How many rows each table has.
pub fn tables_text(alloc: Global, rows: &Rows) -> Result<String, NoMemory> {
    let (policies, reviews, files) = (rows.policies.len(), rows.reviews.len(), rows.files.len());
    let (approvals, certificates) = (rows.approvals.len(), rows.certificates.len());
    let kept = rows.kept.len();
    Ok(format!(in alloc; "{policies} {reviews} {files} {approvals} {certificates} {kept}")?)
}

fn bundle_rule(
    alloc: Global,
    side: BundleSide,
    refusal: BundleRefusal,
) -> Result<String, NoMemory> {
    let cause = bundle_text(alloc, &[], refusal)?;
    let side = match side {
        BundleSide::Base => "base",
        BundleSide::New => "new",
    };
    Ok(format!(in alloc; "7 BundleRefused {side}: {cause}")?)
}

fn lack_rule(alloc: Global, lack: Lack) -> Result<String, NoMemory> {
    match lack {
        Lack::NotRun => Ok(String::from_str(alloc, "10 NotCertified not run")?),
        Lack::Property(at) => {
            let number = u64::from(at) + 1;
            Ok(format!(in alloc; "10 NotCertified property {number}")?)
        }
    }
}

fn policy_rule(alloc: Global, fault: PolicyFault) -> Result<String, NoMemory> {
    match fault {
        PolicyFault::Approvals => Ok(String::from_str(alloc, "14 PolicyRefused approvals")?),
        PolicyFault::Book(refusal) => {
            let cause = form_text(alloc, refusal)?;
            Ok(format!(in alloc; "14 PolicyRefused {cause}")?)
        }
    }
}

fn numbered_rule(alloc: Global, rule: &str, number: u64) -> Result<String, NoMemory> {
    Ok(format!(in alloc; "{rule} {number}")?)
}

/// The number and the name of a rule that is broken, and what its refusal names.
pub fn rule_text(alloc: Global, rule: Rule) -> Result<String, NoMemory> {
    let bare = match rule {
        Rule::UnknownUser => "1 UnknownUser",
        Rule::KeyReused => "2 KeyReused",
        Rule::WrongRole => "3 WrongRole",
        Rule::NoSuchReview => "4 NoSuchReview",
        Rule::Closed => "5 Closed",
        Rule::TooManyReviews => "9 TooManyReviews 10000",
        Rule::OwnReview => "11 OwnReview",
        Rule::AlreadyApproved => "12 AlreadyApproved",
        Rule::Stale(head) => return numbered_rule(alloc, "6 Stale", head),
        Rule::BundleRefused(side, refusal) => return bundle_rule(alloc, side, refusal),
        Rule::CasesLimit(cases) => return numbered_rule(alloc, "8 CasesLimit", cases),
        Rule::NotCertified(lack) => return lack_rule(alloc, lack),
        Rule::TooFewApprovals { have, need } => {
            return Ok(format!(in alloc; "13 TooFewApprovals {have} of {need}")?);
        }
        Rule::PolicyRefused(fault) => return policy_rule(alloc, fault),
        Rule::DeskFull(bytes) => return numbered_rule(alloc, "15 DeskFull", bytes),
    };
    Ok(String::from_str(alloc, bare)?)
}
