//! What is told of the desk as it is.

ghost use Rattle.std.specs.Prelude.{◌≡◌, IfOk, codes, string_bytes};
ghost use Rattle.serde_json.specs.Data.{object, member, no_members, number, unsigned};
ghost use Rattle.serde_json.specs.View.{view, items_view};
ghost use Rattle.desk_replies.specs.Views.{head_body, names_value, certificate_word, state_word, review_value, review_body};

use desk_tables::ReviewRow;
use net_types::NoMemory;
use review_rules::Desk;
use serde_json::{Value, json};
use std::alloc::{AllocError, Global};

fn head_value(alloc: Global, head: u64, policy: u64) -> Result<Value, AllocError>
    ensures { IfOk result (λ v. view v ≡ object (member (codes "head") (number (unsigned head)) (member (codes "policy") (number (unsigned policy)) no_members))) }
{
    json!(in alloc; {"head": head, "policy": policy})
}

/// The body of the head: its number, and the version of the policy.
#[tactic(auto, unfolding(crate::specs::Views::head_body))]
pub fn head_body(alloc: Global, desk: &Desk) -> Result<String, NoMemory>
    ensures { IfOk result (λ text. string_bytes text ≡ head_body desk.now.state.tables) }
{
    let value = head_value(alloc, desk.head(), desk.policy())?;
    Ok(value.to_string(alloc)?)
}

// The names of those who approved a review.
fn names(alloc: Global, desk: &Desk, id: u64) -> Result<Vec<Value>, NoMemory>
    ensures { IfOk result (λ all. items_view all.items ≡ names_value desk.now.state.tables id) }
{
    let mut all = Vec::new(alloc);
    for at in 0..desk.approvals(id) {
        if let Some(name) = desk.approver(id, at) {
            all.push(Value::try_from_str(alloc, name.as_str())?)?;
        }
    }
    Ok(all)
}

fn certificate_word(desk: &Desk, id: u64) -> &'static str
    ensures { result.now ≡ certificate_word desk.now.state.tables id }
{
    match desk.certificate(id) {
        None => "none",
        Some(certificate) => {
            if certificate.policy == desk.policy() {
                "current"
            } else {
                "old"
            }
        }
    }
}

fn state_word(state: u8) -> &'static str
    ensures { result.now ≡ state_word state }
{
    if state == 0 {
        "open"
    } else if state == 1 {
        "merged"
    } else {
        "withdrawn"
    }
}

fn review_value(alloc: Global, desk: &Desk, review: &ReviewRow) -> Result<Value, NoMemory>
    ensures { IfOk result (λ v. view v ≡ review_value desk.now.state.tables review.now) }
{
    let names = Value::Array(names(alloc, desk, review.id)?);
    let author = review.author.as_str();
    let title = review.title.as_str();
    let certificate = certificate_word(desk, review.id);
    let state = state_word(review.state);
    Ok(json!(in alloc; {
        "approvals": names,
        "author": author,
        "base": review.base,
        "certificate": certificate,
        "review": review.id,
        "state": state,
        "title": title
    })?)
}

/// The body of a review: who approved it, who made it, on which head, whether it is certified, and its state.
#[tactic(auto, unfolding(crate::specs::Views::review_body))]
pub fn review_body(alloc: Global, desk: &Desk, review: &ReviewRow) -> Result<String, NoMemory>
    ensures { IfOk result (λ text. string_bytes text ≡ review_body desk.now.state.tables review.now) }
{
    let value = review_value(alloc, desk, review)?;
    Ok(value.to_string(alloc)?)
}
