//! The rules, each as what is broken of it, if it is.

ghost use Rattle.std.specs.Prelude.{◌≡◌, ◌-◌, ◌^◌, ℕ, IfNone, false, Some, min};
ghost use Rattle.desk_tables.specs.Tables.{has_approved};
ghost use Rattle.review_rules.specs.Rules.{no_admin, no_author, no_approver, no_certifier, no_such_review, closed, stale_base, stale, refused_bundle, over_cases, bad_approvals, refused_book, too_many_reviews, missing_in, not_certified, own_review, already_approved, too_few_approvals, over};

use crate::{BundleSide, Desk, JudgeAnswer, Lack, PolicyFault, Rule};
use desk_tables::{User, is_same};

/// The most reviews that a desk has.
pub const MOST_REVIEWS: usize = 10000;

/// The most bytes that a desk keeps.
pub const MOST_BYTES: u128 = 268435456;

/// The user may not set the policy.
pub(crate) fn no_admin(user: &User) -> Option<Rule>
    ensures { result ≡ no_admin (Some user.now) }
{
    if user.admin {
        None
    } else {
        Some(Rule::WrongRole)
    }
}

/// The user is no author.
pub(crate) fn no_author(user: &User) -> Option<Rule>
    ensures { result ≡ no_author (Some user.now) }
{
    if user.author {
        None
    } else {
        Some(Rule::WrongRole)
    }
}

/// The user is no approver.
pub(crate) fn no_approver(user: &User) -> Option<Rule>
    ensures { result ≡ no_approver (Some user.now) }
{
    if user.approver {
        None
    } else {
        Some(Rule::WrongRole)
    }
}

/// The user may not certify.
pub(crate) fn no_certifier(user: &User) -> Option<Rule>
    ensures { result ≡ no_certifier (Some user.now) }
{
    if user.author || user.approver {
        None
    } else {
        Some(Rule::WrongRole)
    }
}

/// No review has the number.
#[tactic(auto, unfolding(crate::specs::Rules::no_such_review))]
pub(crate) fn no_such_review(desk: &Desk, id: u64) -> Option<Rule>
    ensures { result ≡ no_such_review id desk.now.state.tables }
{
    match desk.review(id) {
        Some(_) => None,
        None => Some(Rule::NoSuchReview),
    }
}

/// The review is merged or withdrawn.
#[tactic(auto, unfolding(crate::specs::Rules::closed))]
pub(crate) fn closed(desk: &Desk, id: u64) -> Option<Rule>
    ensures { result ≡ closed id desk.now.state.tables }
{
    match desk.review(id) {
        Some(review) if review.state != 0 => Some(Rule::Closed),
        _ => None,
    }
}

/// The base is not the head.
#[tactic(auto, unfolding(crate::specs::Rules::stale_base))]
pub(crate) fn stale_base(desk: &Desk, base: u64) -> Option<Rule>
    ensures { result ≡ stale_base base desk.now.state.tables }
{
    let head = desk.head();
    if base != head {
        Some(Rule::Stale(head))
    } else {
        None
    }
}

/// The review's base is not the head.
#[tactic(auto, unfolding(crate::specs::Rules::stale))]
pub(crate) fn stale(desk: &Desk, id: u64) -> Option<Rule>
    ensures { result ≡ stale id desk.now.state.tables }
{
    let head = desk.head();
    match desk.review(id) {
        Some(review) if review.base != head => Some(Rule::Stale(head)),
        _ => None,
    }
}

/// The judge refuses the bundle.
pub(crate) fn refused_bundle(answer: &JudgeAnswer) -> Option<Rule>
    ensures { result ≡ refused_bundle answer.now }
{
    match answer {
        JudgeAnswer::Refused(side, refusal) => Some(Rule::BundleRefused(*side, *refusal)),
        _ => None,
    }
}

/// The judge came to its limit of cases.
pub(crate) fn over_cases(answer: &JudgeAnswer) -> Option<Rule>
    ensures { result ≡ over_cases answer.now }
{
    match answer {
        JudgeAnswer::Limit(n) => Some(Rule::CasesLimit(*n)),
        _ => None,
    }
}

/// The approvals are not 1 to 16.
#[tactic(auto, unfolding(crate::specs::Rules::bad_approvals))]
pub(crate) fn bad_approvals(approvals: u64) -> Option<Rule>
    ensures { result ≡ bad_approvals approvals }
{
    if 1 <= approvals && approvals <= 16 {
        None
    } else {
        Some(Rule::PolicyRefused(PolicyFault::Approvals))
    }
}

/// The judge refuses the book.
pub(crate) fn refused_book(answer: &JudgeAnswer) -> Option<Rule>
    ensures { result ≡ refused_book answer.now }
{
    match answer {
        JudgeAnswer::BookRefused(refusal) => {
            Some(Rule::PolicyRefused(PolicyFault::Book(*refusal)))
        }
        _ => None,
    }
}

/// There are as many reviews as there may be.
#[tactic(auto, unfolding(crate::specs::Rules::too_many_reviews))]
pub(crate) fn too_many_reviews(desk: &Desk) -> Option<Rule>
    ensures { result ≡ too_many_reviews desk.now.state.tables }
{
    if desk.reviews() >= MOST_REVIEWS as u64 {
        Some(Rule::TooManyReviews)
    } else {
        None
    }
}

/// A property is missing.
fn missing(property: Option<u8>) -> Option<Rule>
    ensures { result ≡ missing_in property }
{
    match property {
        Some(at) => Some(Rule::NotCertified(Lack::Property(at))),
        None => None,
    }
}

/// The review has no certificate of the policy's version, or one in which a property is missing.
#[tactic(auto, unfolding(crate::specs::Rules::not_certified))]
pub(crate) fn not_certified(desk: &Desk, id: u64) -> Option<Rule>
    ensures { result ≡ not_certified id desk.now.state.tables }
{
    let version = desk.policy();
    match desk.certificate(id) {
        Some(certificate) if certificate.policy == version => missing(certificate.missing),
        _ => Some(Rule::NotCertified(Lack::NotRun)),
    }
}

/// The user is the review's author.
#[tactic(auto, unfolding(crate::specs::Rules::own_review))]
pub(crate) fn own_review(desk: &Desk, id: u64, user: &User) -> Option<Rule>
    ensures { result ≡ own_review id (Some user.now) desk.now.state.tables }
{
    match desk.review(id) {
        Some(review) if is_same(review.author.as_bytes(), user.name.as_bytes()) => {
            Some(Rule::OwnReview)
        }
        _ => None,
    }
}

/// The user has approved the review.
#[tactic(auto, unfolding(crate::specs::Rules::already_approved))]
pub(crate) fn already_approved(desk: &Desk, id: u64, user: &User) -> Option<Rule>
    ensures rule { result ≡ already_approved id (Some user.now) desk.now.state.tables }
    ensures first { IfNone result (has_approved desk.now.state.tables id user.now.name ≡ false) }
{
    if desk.has_approved(id, user.name.as_bytes()) {
        Some(Rule::AlreadyApproved)
    } else {
        None
    }
}

/// The review has fewer approvals than the policy asks for.
#[tactic(auto, unfolding(crate::specs::Rules::too_few_approvals))]
pub(crate) fn too_few_approvals(desk: &Desk, id: u64) -> Option<Rule>
    ensures { result ≡ too_few_approvals id desk.now.state.tables }
{
    let have = desk.approvals(id);
    let need = desk.needed();
    if have < need {
        Some(Rule::TooFewApprovals { have, need })
    } else {
        None
    }
}

/// So many bytes would pass the limit. The number that is told stops at the greatest of 64 bits.
#[tactic(auto, unfolding(crate::specs::Rules::over))]
pub(crate) fn over(after: u128) -> Option<Rule>
    ensures { (n : ℕ) → min after (2 ^ 64 - 1) ≡ min n (2 ^ 64 - 1) → result ≡ over n }
{
    if after > MOST_BYTES {
        Some(Rule::DeskFull(after.min(18446744073709551615) as u64))
    } else {
        None
    }
}
