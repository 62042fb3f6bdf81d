//! The words that start the review desk.

ghost use Rattle.std.specs.Prelude.{◌≡◌, ◌∷◌, ℕ, List as Seq, Option, IfOk, IfSome, codes, map, option_map};
ghost use Rattle.net_types.specs.Order.{same_text};
ghost use Rattle.command_words.specs.Asked.{serving};
ghost use Rattle.command_words.specs.Given.{IsServe, last_of, workers_in};
ghost use Rattle.command_words.specs.Line.{line_of};
ghost use Rattle.command_words.specs.Serving.{CanServe, count_of, port_of, serve_of, serving_of, with_numbers};

use crate::numbers::{count_of, is_path, port_of, workers_in};
use crate::parses;
use clap::ArgMatches;
use net_types::{NoMemory, Text};
use std::alloc::Global;

/// What the words ask of the desk, with the paths as they stand there.
#[derive(Clone, Copy)]
pub struct ServeWords<'a> {
    /// The name under which the tables are kept.
    pub store: &'a str,
    /// The port.
    pub port: u16,
    /// How many conversations are served.
    pub count: u32,
    /// The file of users.
    pub users: &'a str,
    /// How many workers solve a case, 1 to 8.
    pub workers: u8,
}

fn is_serve(word: &Text) -> bool
    ensures { result ≡ same_text word.now (codes "serve") }
{
    word.as_bytes() == b"serve".as_slice()
}

// The words of `serve` by their names.
fn serve_given<'a>(given: &ArgMatches<'a>) -> Option<ServeWords<'a>>
    ensures value { (a b c d : Seq ℕ) (last : Option (Seq ℕ)) → IsServe a b c d last given.now → option_map serving result ≡ with_numbers a d (port_of b) (count_of c) (workers_in last) }
    ensures runs { IfSome result (λ words. CanServe (serving words)) }
{
    let store = given.get_str("DB")?;
    let port = port_of(given.get_str("PORT")?)?;
    let count = count_of(given.get_str("COUNT")?)?;
    let users = given.get_str("USERS")?;
    let workers = workers_in(given)?;
    Some(ServeWords {
        store,
        port,
        count,
        users,
        workers,
    })
}

// `serve DB PORT COUNT USERS [WORKERS]`
fn serve_of<'a>(
    alloc: Global,
    line: &'a [&'a str],
    word: &Text,
    store: &Text,
    port: &Text,
    count: &Text,
    users: &Text,
    last: Option<&Text>,
) -> Result<Option<ServeWords<'a>>, NoMemory>
    requires { map (λ s. s.now) line.now ≡ word.now ∷ codes "--" ∷ store.now ∷ port.now ∷ count.now ∷ users.now ∷ last_of (option_map (λ t. t.now) last) }
    ensures value { IfOk result (λ words. option_map serving words ≡ serve_of word.now store.now port.now count.now users.now (workers_in (option_map (λ t. t.now) last.entry))) }
    ensures runs { IfOk result (λ found. IfSome found (λ words. CanServe (serving words))) }
{
    if !(is_serve(word) && is_path(store) && is_path(users)) {
        return Ok(None);
    }
    match parses::serve_line(alloc, line) {
        Ok(given) => Ok(serve_given(&given)),
        Err(_) => Err(NoMemory),
    }
}

/// What the words after the program's name ask of the desk, or nothing; `line` is that of these words, by `line_of`.
///
/// # Errors
/// `NoMemory` alone.
pub fn serving_of<'a>(
    alloc: Global,
    words: &[Text],
    line: &'a [&'a str],
) -> Result<Option<ServeWords<'a>>, NoMemory>
    requires { map (λ s. s.now) line.now ≡ line_of words.now }
    ensures value { IfOk result (λ asked. option_map serving asked ≡ serving_of words.now) }
    ensures runs { IfOk result (λ found. IfSome found (λ asked. CanServe (serving asked))) }
{
    match words {
        [word, store, port, count, users, last] => {
            serve_of(alloc, line, word, store, port, count, users, Some(last))
        }
        [word, store, port, count, users] => {
            serve_of(alloc, line, word, store, port, count, users, None)
        }
        _ => Ok(None),
    }
}
