//! What the body of a command says.

ghost use Rattle.std.specs.Prelude.{◌≡◌, IfOk, IsErrOf, option_map, Some, None, true};
ghost use Rattle.serde_json.specs.View.{view, members_view};
ghost use Rattle.serde_json.specs.Find.{as_str};
ghost use Rattle.serde_json.specs.Events.{members_len};
ghost use Rattle.review_rules.specs.Judging.{IsCommand};
ghost use Rattle.desk_requests.specs.Bodies.{data_of, members_of, number_at, text_at, file_with, files_in, files_at, AreFiles, if_count, policy_with, submit_with, policy_in, submit_in, plain_in, command_with, command_of};

use crate::{Form, HttpRefusal};
use net_types::{List, NoMemory, SourceFile, Text, is_host};
use review_rules::Command;
use serde_json::{Map, Value};
use std::alloc::Global;

// The most bytes of a title.
const MOST_TITLE: usize = 200;

// Why a text has no members.
#[derive(Clone, Copy, PartialEq, Eq, Debug)]
enum NoObject {
    Other,
    NoMemory,
}

// The value that a text is.
fn value_of(alloc: Global, text: &[u8]) -> Result<Value, NoObject>
    ensures ok { IfOk result (λ v. data_of text.now ≡ Some (view v)) }
    ensures other { IsErrOf result NoObject.Other → data_of text.now ≡ None }
{
    match Value::from_slice(alloc, text) {
        Ok(value) => Ok(value),
        Err(e) => {
            if e.is_memory() {
                Err(NoObject::NoMemory)
            } else {
                Err(NoObject::Other)
            }
        }
    }
}

// The members of a text that is one object.
#[tactic(auto, unfolding(crate::specs::Bodies::members_of))]
fn members_of(alloc: Global, text: &[u8]) -> Result<Map<String, Value>, NoObject>
    ensures ok { IfOk result (λ m. members_of text.now ≡ Some (members_view m.entries)) }
    ensures other { IsErrOf result NoObject.Other → members_of text.now ≡ None }
{
    let value = match value_of(alloc, text) {
        Ok(value) => value,
        Err(e) => return Err(e),
    };
    match value {
        Value::Object(map) => Ok(map),
        _other => Err(NoObject::Other),
    }
}

fn number_at(map: &Map<String, Value>, key: &str) -> Option<u64>
    ensures { result ≡ number_at key.now (members_view map.now.entries) }
{
    match map.get(key) {
        Some(value) => value.as_u64(),
        None => None,
    }
}

fn text_at<'m>(map: &'m Map<String, Value>, key: &str) -> Option<&'m str>
    ensures { option_map (λ t. t.now) result ≡ text_at key.now (members_view map.now.entries) }
{
    match map.get(key) {
        Some(value) => value.as_str(),
        None => None,
    }
}

fn file_with(alloc: Global, name: &str, text: Option<&str>) -> Result<Option<SourceFile>, NoMemory>
    ensures { IfOk result (λ f. f ≡ file_with name.now (option_map (λ t. t.now) text.entry)) }
{
    let Some(text) = text else {
        return Ok(None);
    };
    if !is_host(name.as_bytes()) {
        return Ok(None);
    }
    Ok(Some(SourceFile {
        name: Text::from_str(alloc, name)?,
        text: List::from_slice(alloc, text.as_bytes())?,
    }))
}

fn file_of(alloc: Global, name: &str, value: &Value) -> Result<Option<SourceFile>, NoMemory>
    ensures { IfOk result (λ f. f ≡ file_with name.now (as_str (view value.now))) }
{
    file_with(alloc, name, value.as_str())
}

// The files that the members are.
fn files_in(alloc: Global, map: &Map<String, Value>) -> Result<Option<List<SourceFile>>, NoMemory>
    ensures files { IfOk result (λ o. o ≡ files_in (members_view map.now.entries)) }
    ensures sound { IfOk result AreFiles }
{
    let mut all = List::new(alloc);
    for (name, value) in map.iter() {
        match file_of(alloc, name.as_str(), value)? {
            Some(file) => all.push(file)?,
            None => return Ok(None),
        }
    }
    Ok(Some(all))
}

#[tactic(auto, unfolding(crate::specs::Bodies::files_at))]
fn files_at(
    alloc: Global,
    map: &Map<String, Value>,
    key: &str,
) -> Result<Option<List<SourceFile>>, NoMemory>
    ensures files { IfOk result (λ o. o ≡ files_at key.now (members_view map.now.entries)) }
    ensures sound { IfOk result AreFiles }
{
    let Some(value) = map.get(key) else {
        return Ok(None);
    };
    match value.as_object() {
        Some(files) => files_in(alloc, files),
        None => Ok(None),
    }
}

// How many members there are.
fn count_of(map: &Map<String, Value>) -> usize
    ensures { result ≡ members_len (members_view map.now.entries) }
{
    map.len()
}

fn if_count(wanted: usize, count: usize, command: Command) -> Result<Command, HttpRefusal>
    requires { IsCommand command }
    ensures sound { IfOk result IsCommand }
    ensures command { result ≡ if_count wanted count command }
{
    if count == wanted {
        Ok(command)
    } else {
        Err(HttpRefusal::BadRequest)
    }
}

fn policy_with(
    alloc: Global,
    approvals: Option<u64>,
    book: Option<&str>,
    count: usize,
) -> Result<Result<Command, HttpRefusal>, NoMemory>
    ensures sound { IfOk result (λ r. IfOk r IsCommand) }
    ensures command { IfOk result (λ r. r ≡ policy_with approvals (option_map (λ t. t.now) book.entry) count) }
{
    let Some(approvals) = approvals else {
        return Ok(Err(HttpRefusal::BadRequest));
    };
    let Some(book) = book else {
        return Ok(Err(HttpRefusal::BadRequest));
    };
    let book = List::from_slice(alloc, book.as_bytes())?;
    Ok(if_count(2, count, Command::SetPolicy { approvals, book }))
}

fn submit_with(
    alloc: Global,
    base: Option<u64>,
    title: Option<&str>,
    files: Option<List<SourceFile>>,
    count: usize,
) -> Result<Result<Command, HttpRefusal>, NoMemory>
    requires { AreFiles files }
    ensures sound { IfOk result (λ r. IfOk r IsCommand) }
    ensures command { IfOk result (λ r. r ≡ submit_with base (option_map (λ t. t.now) title.entry) files count) }
{
    let Some(base) = base else {
        return Ok(Err(HttpRefusal::BadRequest));
    };
    let Some(title) = title else {
        return Ok(Err(HttpRefusal::BadRequest));
    };
    let Some(files) = files else {
        return Ok(Err(HttpRefusal::BadRequest));
    };
    if title.len() > MOST_TITLE {
        return Ok(Err(HttpRefusal::BadRequest));
    }
    let title = Text::from_str(alloc, title)?;
    Ok(if_count(3, count, Command::Submit { base, title, files }))
}

#[tactic(auto, unfolding(crate::specs::Bodies::policy_in))]
fn policy_in(
    alloc: Global,
    map: &Map<String, Value>,
) -> Result<Result<Command, HttpRefusal>, NoMemory>
    ensures sound { IfOk result (λ r. IfOk r IsCommand) }
    ensures command { IfOk result (λ r. r ≡ policy_in (members_view map.now.entries)) }
{
    let approvals = number_at(map, "approvals");
    let book = text_at(map, "properties");
    policy_with(alloc, approvals, book, count_of(map))
}

#[tactic(auto, unfolding(crate::specs::Bodies::submit_in))]
fn submit_in(
    alloc: Global,
    map: &Map<String, Value>,
) -> Result<Result<Command, HttpRefusal>, NoMemory>
    ensures sound { IfOk result (λ r. IfOk r IsCommand) }
    ensures command { IfOk result (λ r. r ≡ submit_in (members_view map.now.entries)) }
{
    let files = files_at(alloc, map, "files")?;
    let base = number_at(map, "base");
    let title = text_at(map, "title");
    submit_with(alloc, base, title, files, count_of(map))
}

// A command whose body has no field.
#[tactic(auto, unfolding(crate::specs::Bodies::plain_in))]
fn plain_in(map: &Map<String, Value>, command: Command) -> Result<Command, HttpRefusal>
    requires { IsCommand command }
    ensures sound { IfOk result IsCommand }
    ensures command { result ≡ plain_in command (members_view map.now.entries) }
{
    if_count(0, count_of(map), command)
}

fn command_with(
    alloc: Global,
    form: Form,
    map: &Map<String, Value>,
) -> Result<Result<Command, HttpRefusal>, NoMemory>
    ensures sound { IfOk result (λ r. IfOk r IsCommand) }
    ensures command { IfOk result (λ r. r ≡ command_with form (members_view map.now.entries)) }
{
    match form {
        Form::SetPolicy => policy_in(alloc, map),
        Form::Submit => submit_in(alloc, map),
        Form::Certify(id) => Ok(plain_in(map, Command::Certify(id))),
        Form::Approve(id) => Ok(plain_in(map, Command::Approve(id))),
        Form::Merge(id) => Ok(plain_in(map, Command::Merge(id))),
        Form::Withdraw(id) => Ok(plain_in(map, Command::Withdraw(id))),
    }
}

/// The command of a body.
pub fn command_of(
    alloc: Global,
    form: Form,
    body: &[u8],
) -> Result<Result<Command, HttpRefusal>, NoMemory>
    ensures sound { IfOk result (λ r. IfOk r IsCommand) }
    ensures command { IfOk result (λ r. r ≡ command_of form body.now) }
{
    match members_of(alloc, body) {
        Ok(map) => command_with(alloc, form, &map),
        Err(NoObject::Other) => Ok(Err(HttpRefusal::BadRequest)),
        Err(NoObject::NoMemory) => Err(NoMemory),
    }
}
