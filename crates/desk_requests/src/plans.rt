//! What a head asks for.

ghost use Rattle.std.specs.Prelude.{◌≡◌, ◌≤◌, All, IfOk, true, option_map, map, length};
ghost use Rattle.std.specs.List.{list_all};
ghost use Rattle.httparse.specs.Spans.{IsHeaderWithin, header_bytes};
ghost use Rattle.net_types.specs.Names.{is_name_byte};
ghost use Rattle.review_rules.specs.Judging.{is_key};
ghost use Rattle.desk_requests.specs.Plans.{is_allowed, stand_once, size_in, size_of, body_of, is_token, token_in, key_in, plan_at, fields_plan, path_plan, plan_from, heard_with, heard_as, heard_from, IsSoundPlan, IsSoundHeard};

use crate::fields::{count_named, value_named};
use crate::numbers::{capped_value, is_length};
use crate::paths::{is_word, path_of};
use crate::{Form, Heard, HttpRefusal, Path, Plan};
use httparse::spans::HeaderSpan;
use net_types::{NoMemory, Text};
use std::alloc::Global;
use std::str;

// The most bytes of a body.
const MOST_BODY: u128 = 8388608;

fn is_allowed(method: &[u8], path: Path) -> bool
    ensures { result ≡ is_allowed method.now path }
{
    match path {
        Path::Get(_) => is_word(method, b"GET"),
        Path::Post(_) => is_word(method, b"POST"),
    }
}

fn size_in(text: &[u8]) -> Result<u64, HttpRefusal>
    ensures small { IfOk result (λ size. size ≤ 8388608) }
    ensures size { result ≡ size_in text.now }
{
    if !is_length(text) {
        return Err(HttpRefusal::BadRequest);
    }
    let size = capped_value(text);
    if MOST_BODY < size {
        Err(HttpRefusal::BodyTooLarge)
    } else {
        Ok(size as u64)
    }
}

fn size_of(text: Option<&[u8]>) -> Result<u64, HttpRefusal>
    ensures small { IfOk result (λ size. size ≤ 8388608) }
    ensures size { result ≡ size_of (option_map (λ t. t.now) text.entry) }
{
    match text {
        None => Err(HttpRefusal::NoLength),
        Some(text) => size_in(text),
    }
}

// The body of a command under this key.
fn body_of(key: &[u8], form: Form, size: Result<u64, HttpRefusal>) -> Result<Plan, HttpRefusal>
    requires key { is_key key.now ≡ true }
    requires small { IfOk size (λ size. size ≤ 8388608) }
    ensures sound { IfOk result (IsSoundPlan key.now) }
    ensures plan { result ≡ body_of form size }
{
    let _ = key;
    match size {
        Ok(size) => Ok(Plan::Body(form, size)),
        Err(refusal) => Err(refusal),
    }
}

fn are_visible(text: &[u8]) -> bool
    ensures { result ≡ list_all is_name_byte text.now }
{
    text.iter().all(|byte| 33 <= *byte && *byte <= 126)
}

fn is_key(text: &[u8]) -> bool
    ensures { result ≡ is_key text.now }
{
    1 <= text.len() && text.len() <= 64 && are_visible(text)
}

fn is_token(text: &[u8]) -> bool
    ensures { result ≡ is_token text.now }
{
    1 <= text.len() && text.len() <= 128 && are_visible(text)
}

fn plan_at(key: &[u8], buf: &[u8], fields: &[HeaderSpan], path: Path) -> Result<Plan, HttpRefusal>
    requires { All (IsHeaderWithin (length buf.now)) fields.now }
    ensures sound { IfOk result (IsSoundPlan key.now) }
    ensures plan { result ≡ plan_at key.now (map (header_bytes buf.now) fields.now) path }
{
    match path {
        Path::Get(query) => Ok(Plan::Now(query)),
        Path::Post(form) => {
            if is_key(key) {
                let size = size_of(value_named(buf, fields, b"content-length"));
                body_of(key, form, size)
            } else {
                Err(HttpRefusal::BadRequest)
            }
        }
    }
}

#[tactic(auto, unfolding(crate::specs::Plans::stand_once))]
fn stand_once(buf: &[u8], fields: &[HeaderSpan]) -> bool
    requires { All (IsHeaderWithin (length buf.now)) fields.now }
    ensures { result ≡ stand_once (map (header_bytes buf.now) fields.now) }
{
    let tokens = count_named(buf, fields, b"x-desk-token");
    let keys = count_named(buf, fields, b"x-desk-key");
    let lengths = count_named(buf, fields, b"content-length");
    !(1 < tokens) && !(1 < keys) && !(1 < lengths)
}

fn fields_plan(
    key: &[u8],
    buf: &[u8],
    fields: &[HeaderSpan],
    path: Path,
) -> Result<Plan, HttpRefusal>
    requires { All (IsHeaderWithin (length buf.now)) fields.now }
    ensures sound { IfOk result (IsSoundPlan key.now) }
    ensures plan { result ≡ fields_plan key.now (map (header_bytes buf.now) fields.now) path }
{
    if stand_once(buf, fields) {
        plan_at(key, buf, fields, path)
    } else {
        Err(HttpRefusal::BadRequest)
    }
}

fn path_plan(
    key: &[u8],
    method: &[u8],
    buf: &[u8],
    fields: &[HeaderSpan],
    path: Option<Path>,
) -> Result<Plan, HttpRefusal>
    requires { All (IsHeaderWithin (length buf.now)) fields.now }
    ensures sound { IfOk result (IsSoundPlan key.now) }
    ensures plan { result ≡ path_plan key.now method.now (map (header_bytes buf.now) fields.now) path }
{
    match path {
        None => Err(HttpRefusal::NotFound),
        Some(path) => {
            if is_allowed(method, path) {
                fields_plan(key, buf, fields, path)
            } else {
                Err(HttpRefusal::BadMethod)
            }
        }
    }
}

#[tactic(auto, unfolding(crate::specs::Plans::plan_from))]
fn plan_from(
    key: &[u8],
    method: &[u8],
    target: &[u8],
    buf: &[u8],
    fields: &[HeaderSpan],
) -> Result<Plan, HttpRefusal>
    requires { All (IsHeaderWithin (length buf.now)) fields.now }
    ensures sound { IfOk result (IsSoundPlan key.now) }
    ensures plan { result ≡ plan_from key.now method.now target.now (map (header_bytes buf.now) fields.now) }
{
    if 0 < count_named(buf, fields, b"transfer-encoding") {
        return Err(HttpRefusal::NoCoding);
    }
    path_plan(key, method, buf, fields, path_of(target))
}

// The text of bytes that are printed.
fn visible_text(alloc: Global, bytes: &[u8]) -> Result<Text, NoMemory>
    requires { list_all is_name_byte bytes.now ≡ true }
    ensures { IfOk result (λ text. text ≡ bytes.now) }
{
    match str::from_utf8(bytes) {
        Ok(text) => Ok(Text::from_str(alloc, text)?),
        Err(_error) => unreachable!(),
    }
}

fn token_in(alloc: Global, text: Option<&[u8]>) -> Result<Text, NoMemory>
    ensures { IfOk result (λ t. t ≡ token_in (option_map (λ t. t.now) text.entry)) }
{
    match text {
        None => visible_text(alloc, b""),
        Some(text) => {
            if is_token(text) {
                visible_text(alloc, text)
            } else {
                visible_text(alloc, b"")
            }
        }
    }
}

fn key_in(alloc: Global, text: Option<&[u8]>) -> Result<Text, NoMemory>
    ensures { IfOk result (λ t. t ≡ key_in (option_map (λ t. t.now) text.entry)) }
{
    match text {
        None => visible_text(alloc, b""),
        Some(text) => {
            if is_key(text) {
                visible_text(alloc, text)
            } else {
                visible_text(alloc, b"")
            }
        }
    }
}

fn heard_with(token: Text, key: Text, plan: Result<Plan, HttpRefusal>) -> Result<Heard, HttpRefusal>
    requires { IfOk plan (IsSoundPlan key) }
    ensures sound { IfOk result IsSoundHeard }
    ensures heard { result ≡ heard_with token key plan }
{
    match plan {
        Ok(plan) => Ok(Heard { token, key, plan }),
        Err(refusal) => Err(refusal),
    }
}

fn heard_as(
    token: Text,
    key: Text,
    method: &[u8],
    target: &[u8],
    buf: &[u8],
    fields: &[HeaderSpan],
) -> Result<Heard, HttpRefusal>
    requires { All (IsHeaderWithin (length buf.now)) fields.now }
    ensures sound { IfOk result IsSoundHeard }
    ensures heard { result ≡ heard_as token key method.now target.now (map (header_bytes buf.now) fields.now) }
{
    let plan = plan_from(key.as_bytes(), method, target, buf, fields);
    heard_with(token, key, plan)
}

/// What a head says, by its method, target and fields.
#[tactic(auto, unfolding(crate::specs::Plans::heard_from))]
pub fn heard_from(
    alloc: Global,
    method: &[u8],
    target: &[u8],
    buf: &[u8],
    fields: &[HeaderSpan],
) -> Result<Result<Heard, HttpRefusal>, NoMemory>
    requires { All (IsHeaderWithin (length buf.now)) fields.now }
    ensures sound { IfOk result (λ r. IfOk r IsSoundHeard) }
    ensures heard { IfOk result (λ r. r ≡ heard_from method.now target.now (map (header_bytes buf.now) fields.now)) }
{
    let token = token_in(alloc, value_named(buf, fields, b"x-desk-token"))?;
    let key = key_in(alloc, value_named(buf, fields, b"x-desk-key"))?;
    Ok(heard_as(token, key, method, target, buf, fields))
}
