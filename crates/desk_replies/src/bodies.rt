//! The bodies of refusals.

ghost use Rattle.std.specs.Prelude.{◌≡◌, IfOk, codes, string_bytes};
ghost use Rattle.serde_json.specs.Data.{object, member, no_members, string, number, unsigned};
ghost use Rattle.serde_json.specs.View.{view};
ghost use Rattle.desk_replies.specs.Replies.{refusal_body};

use net_types::NoMemory;
use serde_json::{Value, json};
use std::alloc::{AllocError, Global};

fn refusal_value(alloc: Global, name: &str, rule: u64, value: &str) -> Result<Value, AllocError>
    ensures { IfOk result (λ v. view v ≡ object (member (codes "name") (string name.now) (member (codes "rule") (number (unsigned rule)) (member (codes "value") (string value.now) no_members)))) }
{
    json!(in alloc; {"name": name, "rule": rule, "value": value})
}

/// The body of a refusal: its name, the number of its rule, and what goes with it.
pub fn refusal_body(alloc: Global, name: &str, rule: u64, value: &str) -> Result<String, NoMemory>
    ensures { IfOk result (λ text. string_bytes text ≡ refusal_body name.now rule value.now) }
{
    let body = refusal_value(alloc, name, rule, value)?;
    Ok(body.to_string(alloc)?)
}
