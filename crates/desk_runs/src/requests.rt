//! A request of a case, and whether the desk may be asked it.

ghost use Rattle.std.specs.Prelude.{◌≡◌, true, IfOk, IfSome};
ghost use Rattle.std.specs.List.{All, list_all};
ghost use Rattle.net_types.specs.Names.{is_name_byte};
ghost use Rattle.net_types.specs.declared.config.SourceFile.{SourceFile};
ghost use Rattle.desk_tables.specs.Order.{after, text_cmp};
ghost use Rattle.review_rules.specs.Judging.{HasHostName, IsCommand, IsRequest, NamesAscend, is_key};

use crate::words::{cut_number, cut_word};
use net_types::{List, NoMemory, SourceFile, Text, is_host};
use review_rules::{Command, Request};
use std::alloc::Global;

fn is_printed(byte: u8) -> bool
    ensures { result ≡ is_name_byte byte }
{
    33 <= byte && byte <= 126
}

fn are_printed(text: &[u8]) -> bool
    ensures { result ≡ list_all is_name_byte text.now }
{
    text.iter().all(|byte| is_printed(*byte))
}

// Whether the text may be a key.
fn is_key(text: &[u8]) -> bool
    ensures { result ≡ is_key text.now }
{
    1 <= text.len() && text.len() <= 64 && are_printed(text)
}

fn is_behind(name: &[u8], file: &SourceFile) -> bool
    ensures { result ≡ after text_cmp (λ (f : SourceFile). f.name) name.now file.now }
{
    name.cmp(file.name.as_bytes()).is_lt()
}

// Whether the names of all these files come behind this one.
fn are_behind(name: &[u8], files: &[SourceFile]) -> bool
    ensures { result ≡ list_all (after text_cmp (λ (f : SourceFile). f.name) name.now) files.now }
{
    files.iter().all(|file| is_behind(name, file))
}

// Whether the names of the files ascend.
#[tactic(auto, using(crate::proofs::RequestLemmas::no_names, crate::proofs::RequestLemmas::names_cons))]
fn names_ascend(files: &[SourceFile]) -> bool
    ensures { result ≡ true → NamesAscend files.now }
{
    match files.split_first() {
        Some((file, rest)) => are_behind(file.name.as_bytes(), rest) && names_ascend(rest),
        None => true,
    }
}

// Whether each file has the name of a host.
#[tactic(auto, using(crate::proofs::RequestLemmas::no_hosts, crate::proofs::RequestLemmas::hosts_cons))]
fn are_hosts(files: &[SourceFile]) -> bool
    ensures { result ≡ true → All HasHostName files.now }
{
    match files.split_first() {
        Some((file, rest)) => is_host(file.name.as_bytes()) && are_hosts(rest),
        None => true,
    }
}

// Whether the desk may be asked the command.
fn is_command(command: &Command) -> bool
    ensures { result ≡ true → IsCommand command.now }
{
    match command {
        Command::Submit { title, files, .. } => {
            title.len() <= 200 && names_ascend(files.as_slice()) && are_hosts(files.as_slice())
        }
        _ => true,
    }
}

/// Whether the desk may be asked the request.
pub fn is_request(request: &Request) -> bool
    ensures { result ≡ true → IsRequest request.now }
{
    is_key(request.key.as_bytes()) && is_command(&request.command)
}

// The files of words, each a name, `=` and a text.
fn files_of(alloc: Global, line: &str) -> Result<List<SourceFile>, NoMemory> {
    let mut files = List::new(alloc);
    for word in line.split(' ') {
        if let Some((name, text)) = word.split_once('=') {
            files.push(SourceFile {
                name: Text::from_str(alloc, name)?,
                text: List::from_slice(alloc, text.as_bytes())?,
            })?;
        }
    }
    Ok(files)
}

fn submission(alloc: Global, base: u64, line: &str) -> Result<Command, NoMemory> {
    let (title, files) = cut_word(line);
    let title = if title == "\"" { "" } else { title };
    Ok(Command::Submit {
        base,
        title: Text::from_str(alloc, title)?,
        files: files_of(alloc, files)?,
    })
}

// The command of a word and a number, and of what stands behind it.
fn command_of(
    alloc: Global,
    word: &str,
    number: u64,
    rest: &str,
) -> Result<Option<Command>, NoMemory> {
    Ok(match word {
        "policy" => Some(Command::SetPolicy {
            approvals: number,
            book: List::from_slice(alloc, rest.as_bytes())?,
        }),
        "submit" => Some(submission(alloc, number, rest)?),
        "certify" => Some(Command::Certify(number)),
        "approve" => Some(Command::Approve(number)),
        "merge" => Some(Command::Merge(number)),
        "withdraw" => Some(Command::Withdraw(number)),
        _ => None,
    })
}

/// The request of a line, if it is one that the desk may be asked.
pub fn request_of(alloc: Global, line: &str) -> Result<Option<Request>, NoMemory>
    ensures { IfOk result (λ request. IfSome request IsRequest) }
{
    let (token, rest) = cut_word(line);
    let (key, rest) = cut_word(rest);
    let (word, rest) = cut_word(rest);
    let Some((number, rest)) = cut_number(rest) else {
        return Ok(None);
    };
    let Some(command) = command_of(alloc, word, number, rest)? else {
        return Ok(None);
    };
    let request = Request {
        token: Text::from_str(alloc, token)?,
        key: Text::from_str(alloc, key)?,
        command,
    };
    if is_request(&request) {
        Ok(Some(request))
    } else {
        Ok(None)
    }
}
