//! The replies where a rule of the desk breaks.

ghost use Rattle.std.specs.Prelude.{◌≡◌, ◌+◌, IfOk, codes, string_bytes};
ghost use Rattle.std.specs.Fmt.{decimal};
ghost use Rattle.http.specs.StatusCode.{IsStatusCode};
ghost use Rattle.net_types.specs.Then.{◌then◌};
ghost use Rattle.refusal_texts.specs.Texts.{bundle_text};
ghost use Rattle.desk_replies.specs.RuleWords.{rule_code, rule_name, rule_number, rule_value, rule_body, side_word, lack_text, fault_text};

use crate::bodies::refusal_body;
use net_types::{BundleRefusal, NoMemory, SourceFile};
use refusal_texts::{bundle_text, form_text};
use review_rules::{BundleSide, Lack, PolicyFault, Rule};
use std::alloc::Global;

/// The code of a broken rule.
#[tactic(auto, unfolding(crate::specs::RuleWords::rule_code))]
pub fn rule_code(rule: Rule) -> u16
    ensures code { result ≡ rule_code rule }
    ensures valid { IsStatusCode result }
{
    match rule {
        Rule::UnknownUser => 401,
        Rule::KeyReused => 409,
        Rule::WrongRole => 403,
        Rule::NoSuchReview => 404,
        Rule::Closed => 409,
        Rule::Stale(_) => 409,
        Rule::BundleRefused(_, _) => 422,
        Rule::CasesLimit(_) => 422,
        Rule::TooManyReviews => 409,
        Rule::NotCertified(_) => 422,
        Rule::OwnReview => 403,
        Rule::AlreadyApproved => 409,
        Rule::TooFewApprovals { .. } => 409,
        Rule::PolicyRefused(_) => 422,
        Rule::DeskFull(_) => 409,
    }
}

#[tactic(auto, unfolding(crate::specs::RuleWords::rule_name))]
fn rule_name(rule: &Rule) -> &'static str
    ensures { result.now ≡ rule_name rule.now }
{
    match rule {
        Rule::UnknownUser => "UnknownUser",
        Rule::KeyReused => "KeyReused",
        Rule::WrongRole => "WrongRole",
        Rule::NoSuchReview => "NoSuchReview",
        Rule::Closed => "Closed",
        Rule::Stale(_) => "Stale",
        Rule::BundleRefused(_, _) => "BundleRefused",
        Rule::CasesLimit(_) => "CasesLimit",
        Rule::TooManyReviews => "TooManyReviews",
        Rule::NotCertified(_) => "NotCertified",
        Rule::OwnReview => "OwnReview",
        Rule::AlreadyApproved => "AlreadyApproved",
        Rule::TooFewApprovals { .. } => "TooFewApprovals",
        Rule::PolicyRefused(_) => "PolicyRefused",
        Rule::DeskFull(_) => "DeskFull",
    }
}

#[tactic(auto, unfolding(crate::specs::RuleWords::rule_number))]
fn rule_number(rule: &Rule) -> u64
    ensures { result ≡ rule_number rule.now }
{
    match rule {
        Rule::UnknownUser => 1,
        Rule::KeyReused => 2,
        Rule::WrongRole => 3,
        Rule::NoSuchReview => 4,
        Rule::Closed => 5,
        Rule::Stale(_) => 6,
        Rule::BundleRefused(_, _) => 7,
        Rule::CasesLimit(_) => 8,
        Rule::TooManyReviews => 9,
        Rule::NotCertified(_) => 10,
        Rule::OwnReview => 11,
        Rule::AlreadyApproved => 12,
        Rule::TooFewApprovals { .. } => 13,
        Rule::PolicyRefused(_) => 14,
        Rule::DeskFull(_) => 15,
    }
}

fn side_word(side: BundleSide) -> &'static str
    ensures { result.now ≡ side_word side }
{
    match side {
        BundleSide::Base => "base",
        BundleSide::New => "new",
    }
}

fn side_text(
    alloc: Global,
    files: &[SourceFile],
    side: BundleSide,
    refusal: BundleRefusal,
) -> Result<String, NoMemory>
    ensures { IfOk result (λ text. string_bytes text ≡ (side_word side then codes ": " then bundle_text files.now refusal)) }
{
    let word = side_word(side);
    let cause = bundle_text(alloc, files, refusal)?;
    Ok(format!(in alloc; "{word}: {cause}")?)
}

fn lack_text(alloc: Global, lack: Lack) -> Result<String, NoMemory>
    ensures { IfOk result (λ text. string_bytes text ≡ lack_text lack) }
{
    match lack {
        Lack::NotRun => Ok(String::from_str(alloc, "not run")?),
        Lack::Property(at) => {
            let place = u64::from(at) + 1;
            Ok(format!(in alloc; "property {place}")?)
        }
    }
}

fn fault_text(alloc: Global, fault: PolicyFault) -> Result<String, NoMemory>
    ensures { IfOk result (λ text. string_bytes text ≡ fault_text fault) }
{
    match fault {
        PolicyFault::Approvals => Ok(String::from_str(alloc, "approvals")?),
        PolicyFault::Book(refusal) => form_text(alloc, refusal),
    }
}

fn number_text(alloc: Global, number: u64) -> Result<String, NoMemory>
    ensures { IfOk result (λ text. string_bytes text ≡ decimal number) }
{
    Ok(format!(in alloc; "{number}")?)
}

fn counts_text(alloc: Global, have: u64, need: u64) -> Result<String, NoMemory>
    ensures { IfOk result (λ text. string_bytes text ≡ (decimal have then codes " of " then decimal need)) }
{
    Ok(format!(in alloc; "{have} of {need}")?)
}

// What goes with a broken rule.
#[tactic(auto, unfolding(crate::specs::RuleWords::rule_value))]
fn rule_value(alloc: Global, files: &[SourceFile], rule: Rule) -> Result<String, NoMemory>
    ensures { IfOk result (λ text. string_bytes text ≡ rule_value files.now rule) }
{
    match rule {
        Rule::UnknownUser => Ok(String::new(alloc)),
        Rule::KeyReused => Ok(String::new(alloc)),
        Rule::WrongRole => Ok(String::new(alloc)),
        Rule::NoSuchReview => Ok(String::new(alloc)),
        Rule::Closed => Ok(String::new(alloc)),
        Rule::Stale(head) => number_text(alloc, head),
        Rule::BundleRefused(side, refusal) => side_text(alloc, files, side, refusal),
        Rule::CasesLimit(n) => number_text(alloc, n),
        Rule::TooManyReviews => Ok(String::from_str(alloc, "10000")?),
        Rule::NotCertified(lack) => lack_text(alloc, lack),
        Rule::OwnReview => Ok(String::new(alloc)),
        Rule::AlreadyApproved => Ok(String::new(alloc)),
        Rule::TooFewApprovals { have, need } => counts_text(alloc, have, need),
        Rule::PolicyRefused(fault) => fault_text(alloc, fault),
        Rule::DeskFull(bytes) => number_text(alloc, bytes),
    }
}

/// The body of a broken rule. The files are those of the side that is refused, if one is, by which they are named.
///
/// # Errors
/// [`NoMemory`] where there was none for the text, or where that is what is refused.
pub fn rule_body(alloc: Global, files: &[SourceFile], rule: Rule) -> Result<String, NoMemory>
    ensures { IfOk result (λ text. string_bytes text ≡ rule_body files.now rule) }
{
    let number = rule_number(&rule);
    let name = rule_name(&rule);
    let value = rule_value(alloc, files, rule)?;
    refusal_body(alloc, name, number, value.as_str())
}
