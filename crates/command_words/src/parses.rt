//! The lines of the commands by `clap`: one simple command each, with words by their places and no flags. A line of the
//! right number of words is refused for want of memory alone.

ghost use Rattle.std.specs.Prelude.{◌≡◌, ◌∷◌, [], ℕ, List as Seq, Option, IfOk, IfErr, codes, map};
ghost use Rattle.clap.specs.Words.{app_of, kind_of};
ghost use Rattle.command_words.specs.Apps.{check_app, gen_app, serve_app, stable_app};
ghost use Rattle.command_words.specs.Given.{IsCheck, IsGen, IsServe, IsStable, last_of};

use clap::error::ErrorKind;
use clap::{Arg, ArgMatches, Command, Error};
use std::alloc::{AllocError, Global};

// `check BASE NEW PROPS [WORKERS]`
fn check_command<'a>(alloc: Global) -> Result<Command<'a>, AllocError>
    ensures { IfOk result (λ command. app_of command ≡ check_app) }
{
    let base = Arg::new(alloc, "BASE").required(true);
    let new = Arg::new(alloc, "NEW").required(true);
    let props = Arg::new(alloc, "PROPS").required(true);
    let workers = Arg::new(alloc, "WORKERS");
    Command::new(alloc, "check")
        .disable_help_flag(true)
        .arg(base)?
        .arg(new)?
        .arg(props)?
        .arg(workers)
}

// `stable BUNDLE LABELS`
fn stable_command<'a>(alloc: Global) -> Result<Command<'a>, AllocError>
    ensures { IfOk result (λ command. app_of command ≡ stable_app) }
{
    let bundle = Arg::new(alloc, "BUNDLE").required(true);
    let labels = Arg::new(alloc, "LABELS").required(true);
    Command::new(alloc, "stable")
        .disable_help_flag(true)
        .arg(bundle)?
        .arg(labels)
}

// `gen N [WORKERS]`
fn gen_command<'a>(alloc: Global) -> Result<Command<'a>, AllocError>
    ensures { IfOk result (λ command. app_of command ≡ gen_app) }
{
    let number = Arg::new(alloc, "N").required(true);
    let workers = Arg::new(alloc, "WORKERS");
    Command::new(alloc, "gen")
        .disable_help_flag(true)
        .arg(number)?
        .arg(workers)
}

// `serve DB PORT COUNT USERS [WORKERS]`
fn serve_command<'a>(alloc: Global) -> Result<Command<'a>, AllocError>
    ensures { IfOk result (λ command. app_of command ≡ serve_app) }
{
    let store = Arg::new(alloc, "DB").required(true);
    let port = Arg::new(alloc, "PORT").required(true);
    let count = Arg::new(alloc, "COUNT").required(true);
    let users = Arg::new(alloc, "USERS").required(true);
    let workers = Arg::new(alloc, "WORKERS");
    Command::new(alloc, "serve")
        .disable_help_flag(true)
        .arg(store)?
        .arg(port)?
        .arg(count)?
        .arg(users)?
        .arg(workers)
}

/// The words of `check` by their names.
///
/// # Errors
/// Want of memory, where the line has its number of words.
pub fn check_line<'a>(alloc: Global, line: &'a [&'a str]) -> Result<ArgMatches<'a>, Error>
    ensures ok { (word a b c : Seq ℕ) (last : Option (Seq ℕ)) → map (λ s. s.now) line.now ≡ word ∷ codes "--" ∷ a ∷ b ∷ c ∷ last_of last → IfOk result (IsCheck a b c last) }
    ensures err { (word a b c : Seq ℕ) (last : Option (Seq ℕ)) → map (λ s. s.now) line.now ≡ word ∷ codes "--" ∷ a ∷ b ∷ c ∷ last_of last → IfErr result (λ e. kind_of e ≡ ErrorKind.OutOfMemory) }
{
    let command = check_command(alloc)?;
    command.try_get_matches_from(line)
}

/// The words of `stable` by their names.
///
/// # Errors
/// Want of memory, where the line has its number of words.
pub fn stable_line<'a>(alloc: Global, line: &'a [&'a str]) -> Result<ArgMatches<'a>, Error>
    ensures ok { (word a b : Seq ℕ) → map (λ s. s.now) line.now ≡ word ∷ codes "--" ∷ a ∷ b ∷ [] → IfOk result (IsStable a b) }
    ensures err { (word a b : Seq ℕ) → map (λ s. s.now) line.now ≡ word ∷ codes "--" ∷ a ∷ b ∷ [] → IfErr result (λ e. kind_of e ≡ ErrorKind.OutOfMemory) }
{
    let command = stable_command(alloc)?;
    command.try_get_matches_from(line)
}

/// The words of `gen` by their names.
///
/// # Errors
/// Want of memory, where the line has its number of words.
pub fn gen_line<'a>(alloc: Global, line: &'a [&'a str]) -> Result<ArgMatches<'a>, Error>
    ensures ok { (word a : Seq ℕ) (last : Option (Seq ℕ)) → map (λ s. s.now) line.now ≡ word ∷ codes "--" ∷ a ∷ last_of last → IfOk result (IsGen a last) }
    ensures err { (word a : Seq ℕ) (last : Option (Seq ℕ)) → map (λ s. s.now) line.now ≡ word ∷ codes "--" ∷ a ∷ last_of last → IfErr result (λ e. kind_of e ≡ ErrorKind.OutOfMemory) }
{
    let command = gen_command(alloc)?;
    command.try_get_matches_from(line)
}

/// The words of `serve` by their names.
///
/// # Errors
/// Want of memory, where the line has its number of words.
pub fn serve_line<'a>(alloc: Global, line: &'a [&'a str]) -> Result<ArgMatches<'a>, Error>
    ensures ok { (word a b c d : Seq ℕ) (last : Option (Seq ℕ)) → map (λ s. s.now) line.now ≡ word ∷ codes "--" ∷ a ∷ b ∷ c ∷ d ∷ last_of last → IfOk result (IsServe a b c d last) }
    ensures err { (word a b c d : Seq ℕ) (last : Option (Seq ℕ)) → map (λ s. s.now) line.now ≡ word ∷ codes "--" ∷ a ∷ b ∷ c ∷ d ∷ last_of last → IfErr result (λ e. kind_of e ≡ ErrorKind.OutOfMemory) }
{
    let command = serve_command(alloc)?;
    command.try_get_matches_from(line)
}
