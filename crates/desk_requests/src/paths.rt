//! The paths of the desk.

ghost use Rattle.std.specs.Prelude.{◌≡◌};
ghost use Rattle.std.specs.Str.{bytes_eq};
ghost use Rattle.net_types.specs.Cut.{parts};
ghost use Rattle.desk_requests.specs.Paths.{path_of, behind_first, behind_slash, behind_id, in_review, alone, with_word};

use crate::numbers::number_of;
use crate::{Form, Path, Query};
use net_types::cut;

const SLASH: u8 = b'/';

/// Whether two texts are the same.
pub fn is_word(text: &[u8], word: &[u8]) -> bool
    ensures { result ≡ bytes_eq text.now word.now }
{
    text == word
}

#[tactic(auto, unfolding(crate::specs::Paths::alone))]
fn alone(word: &[u8]) -> Option<Path>
    ensures { result ≡ alone word.now }
{
    if is_word(word, b"policy") {
        return Some(Path::Post(Form::SetPolicy));
    }
    if is_word(word, b"reviews") {
        return Some(Path::Post(Form::Submit));
    }
    if is_word(word, b"head") {
        return Some(Path::Get(Query::Head));
    }
    None
}

#[tactic(auto, unfolding(crate::specs::Paths::with_word))]
fn with_word(word: &[u8], id: u64) -> Option<Path>
    ensures { result ≡ with_word word.now id }
{
    if is_word(word, b"certify") {
        return Some(Path::Post(Form::Certify(id)));
    }
    if is_word(word, b"approve") {
        return Some(Path::Post(Form::Approve(id)));
    }
    if is_word(word, b"merge") {
        return Some(Path::Post(Form::Merge(id)));
    }
    if is_word(word, b"withdraw") {
        return Some(Path::Post(Form::Withdraw(id)));
    }
    if is_word(word, b"report") {
        return Some(Path::Get(Query::Report(id)));
    }
    None
}

// The path of a review's number and what stands behind the slash after it.
#[tactic(auto, using(crate::proofs::PathLemmas::no_path_behind))]
fn behind_id(id: &[u8], rest: &[u8]) -> Option<Path>
    ensures { result ≡ behind_id id.now (parts 47 rest.now) }
{
    match cut(rest, SLASH) {
        None => match number_of(id) {
            Some(id) => with_word(rest, id),
            None => None,
        },
        Some(_) => None,
    }
}

fn in_review(rest: &[u8]) -> Option<Path>
    ensures { result ≡ in_review (parts 47 rest.now) }
{
    match cut(rest, SLASH) {
        None => match number_of(rest) {
            Some(id) => Some(Path::Get(Query::Review(id))),
            None => None,
        },
        Some((id, more)) => behind_id(id, more),
    }
}

#[tactic(auto, using(crate::proofs::PathLemmas::path_behind_word))]
fn behind_slash(rest: &[u8]) -> Option<Path>
    ensures { result ≡ behind_slash (parts 47 rest.now) }
{
    match cut(rest, SLASH) {
        None => alone(rest),
        Some((word, more)) => {
            if is_word(word, b"reviews") {
                in_review(more)
            } else {
                None
            }
        }
    }
}

// The path that begins with a part and a slash.
fn behind_first(first: &[u8], rest: &[u8]) -> Option<Path>
    ensures { result ≡ behind_first first.now (parts 47 rest.now) }
{
    match first {
        [] => behind_slash(rest),
        [_, ..] => None,
    }
}

/// The path that a target is.
#[tactic(auto, using(crate::proofs::PathLemmas::no_path_alone), unfolding(crate::specs::Paths::path_of))]
pub fn path_of(target: &[u8]) -> Option<Path>
    ensures { result ≡ path_of target.now }
{
    match cut(target, SLASH) {
        Some((first, rest)) => behind_first(first, rest),
        None => None,
    }
}
