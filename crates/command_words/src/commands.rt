//! The commands that the program's words say, but for the review desk.

ghost use Rattle.std.specs.Prelude.{◌≡◌, ◌∷◌, ◌&&◌, [], ℕ, List as Seq, Option, IfOk, IfSome, codes, map, option_map};
ghost use Rattle.net_types.specs.Order.{same_text};
ghost use Rattle.command_words.specs.Asked.{asked};
ghost use Rattle.command_words.specs.Commands.{CanRun, Check, Stable, are_paths, check_of, columns_of, command_of, gen_of, gen_with, stable_of, two_behind};
ghost use Rattle.command_words.specs.Given.{IsCheck, IsGen, IsStable, last_of, workers_in};
ghost use Rattle.command_words.specs.Line.{line_of};

use crate::numbers::{columns_of, is_path, workers_in};
use crate::parses;
use clap::ArgMatches;
use net_types::{NoMemory, Text};
use std::alloc::Global;

/// What the words ask, with the paths as they stand there.
#[derive(Clone, Copy)]
pub enum Command<'a> {
    /// The report of a change of configurations.
    Check {
        /// The folder before the change.
        base: &'a str,
        /// The folder after it.
        new: &'a str,
        /// The property file.
        properties: &'a str,
        /// How many workers solve a case.
        workers: u8,
    },
    /// Whether a labelling is stable.
    Stable {
        /// The folder of configurations.
        bundle: &'a str,
        /// The label file.
        labels: &'a str,
    },
    /// The report of nothing before a change and a ladder after it.
    Gen {
        /// How many columns the ladder has.
        columns: u8,
        /// How many workers solve a case.
        workers: u8,
    },
}

fn are_paths(a: &Text, b: &Text, c: &Text) -> bool
    ensures { result ≡ are_paths a.now b.now c.now }
{
    is_path(a) && is_path(b) && is_path(c)
}

fn is_check(word: &Text) -> bool
    ensures { result ≡ same_text word.now (codes "check") }
{
    word.as_bytes() == b"check".as_slice()
}

fn is_stable(word: &Text) -> bool
    ensures { result ≡ same_text word.now (codes "stable") }
{
    word.as_bytes() == b"stable".as_slice()
}

fn is_gen(word: &Text) -> bool
    ensures { result ≡ same_text word.now (codes "gen") }
{
    word.as_bytes() == b"gen".as_slice()
}

// The words of `check` by their names.
fn check_given<'a>(given: &ArgMatches<'a>) -> Option<Command<'a>>
    ensures value { (a b c : Seq ℕ) (last : Option (Seq ℕ)) → IsCheck a b c last given.now → option_map asked result ≡ option_map (Check a b c) (workers_in last) }
    ensures runs { IfSome result (λ command. CanRun (asked command)) }
{
    let base = given.get_str("BASE")?;
    let new = given.get_str("NEW")?;
    let properties = given.get_str("PROPS")?;
    let workers = workers_in(given)?;
    Some(Command::Check {
        base,
        new,
        properties,
        workers,
    })
}

// The words of `stable` by their names.
fn stable_given<'a>(given: &ArgMatches<'a>) -> Option<Command<'a>>
    ensures value { (a b : Seq ℕ) → IsStable a b given.now → option_map asked result ≡ Some (Stable a b) }
    ensures runs { IfSome result (λ command. CanRun (asked command)) }
{
    let bundle = given.get_str("BUNDLE")?;
    let labels = given.get_str("LABELS")?;
    Some(Command::Stable { bundle, labels })
}

// The words of `gen` by their names.
fn gen_given<'a>(given: &ArgMatches<'a>) -> Option<Command<'a>>
    ensures value { (a : Seq ℕ) (last : Option (Seq ℕ)) → IsGen a last given.now → option_map asked result ≡ gen_with (columns_of a) (workers_in last) }
    ensures runs { IfSome result (λ command. CanRun (asked command)) }
{
    let columns = columns_of(given.get_str("N")?)?;
    let workers = workers_in(given)?;
    Some(Command::Gen { columns, workers })
}

// `check BASE NEW PROPS [WORKERS]`
fn check_of<'a>(
    alloc: Global,
    line: &'a [&'a str],
    word: &Text,
    a: &Text,
    b: &Text,
    c: &Text,
    last: Option<&Text>,
) -> Result<Option<Command<'a>>, NoMemory>
    requires { map (λ s. s.now) line.now ≡ word.now ∷ codes "--" ∷ a.now ∷ b.now ∷ c.now ∷ last_of (option_map (λ t. t.now) last) }
    ensures value { IfOk result (λ command. option_map asked command ≡ check_of word.now a.now b.now c.now (workers_in (option_map (λ t. t.now) last.entry))) }
    ensures runs { IfOk result (λ found. IfSome found (λ command. CanRun (asked command))) }
{
    if !(is_check(word) && are_paths(a, b, c)) {
        return Ok(None);
    }
    match parses::check_line(alloc, line) {
        Ok(given) => Ok(check_given(&given)),
        Err(_) => Err(NoMemory),
    }
}

// `stable BUNDLE LABELS`
fn stable_of<'a>(
    alloc: Global,
    line: &'a [&'a str],
    word: &Text,
    a: &Text,
    b: &Text,
) -> Result<Option<Command<'a>>, NoMemory>
    requires { map (λ s. s.now) line.now ≡ word.now ∷ codes "--" ∷ a.now ∷ b.now ∷ [] }
    ensures value { IfOk result (λ command. option_map asked command ≡ stable_of word.now a.now b.now) }
    ensures runs { IfOk result (λ found. IfSome found (λ command. CanRun (asked command))) }
{
    if !(is_stable(word) && is_path(a) && is_path(b)) {
        return Ok(None);
    }
    match parses::stable_line(alloc, line) {
        Ok(given) => Ok(stable_given(&given)),
        Err(_) => Err(NoMemory),
    }
}

// `gen N [WORKERS]`
fn gen_of<'a>(
    alloc: Global,
    line: &'a [&'a str],
    word: &Text,
    number: &Text,
    last: Option<&Text>,
) -> Result<Option<Command<'a>>, NoMemory>
    requires { map (λ s. s.now) line.now ≡ word.now ∷ codes "--" ∷ number.now ∷ last_of (option_map (λ t. t.now) last) }
    ensures value { IfOk result (λ command. option_map asked command ≡ gen_of word.now number.now (workers_in (option_map (λ t. t.now) last.entry))) }
    ensures runs { IfOk result (λ found. IfSome found (λ command. CanRun (asked command))) }
{
    if !is_gen(word) {
        return Ok(None);
    }
    match parses::gen_line(alloc, line) {
        Ok(given) => Ok(gen_given(&given)),
        Err(_) => Err(NoMemory),
    }
}

// A command of two words behind the first.
fn two_behind<'a>(
    alloc: Global,
    line: &'a [&'a str],
    word: &Text,
    a: &Text,
    b: &Text,
) -> Result<Option<Command<'a>>, NoMemory>
    requires { map (λ s. s.now) line.now ≡ word.now ∷ codes "--" ∷ a.now ∷ b.now ∷ [] }
    ensures value { IfOk result (λ command. option_map asked command ≡ two_behind word.now a.now b.now) }
    ensures runs { IfOk result (λ found. IfSome found (λ command. CanRun (asked command))) }
{
    if is_stable(word) {
        stable_of(alloc, line, word, a, b)
    } else {
        gen_of(alloc, line, word, a, Some(b))
    }
}

/// The command of the words after the program's name, or none; `line` is that of these words, by `line_of`.
///
/// # Errors
/// `NoMemory` alone.
pub fn command_of<'a>(
    alloc: Global,
    words: &[Text],
    line: &'a [&'a str],
) -> Result<Option<Command<'a>>, NoMemory>
    requires { map (λ s. s.now) line.now ≡ line_of words.now }
    ensures value { IfOk result (λ command. option_map asked command ≡ command_of words.now) }
    ensures runs { IfOk result (λ found. IfSome found (λ command. CanRun (asked command))) }
{
    match words {
        [word, a, b, c, last] => check_of(alloc, line, word, a, b, c, Some(last)),
        [word, a, b, c] => check_of(alloc, line, word, a, b, c, None),
        [word, a, b] => two_behind(alloc, line, word, a, b),
        [word, a] => gen_of(alloc, line, word, a, None),
        _ => Ok(None),
    }
}
