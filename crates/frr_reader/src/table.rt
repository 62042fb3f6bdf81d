//! The row of the line table by which a line is taken.

ghost use Rattle.std.specs.Prelude.{◌≡◌};
ghost use Rattle.frr_policy.specs.Words.{words};
ghost use Rattle.frr_reader.specs.Table.{fits_word, behind, form, stands_in, modes_from, by_form, found_in, is_known, has_head, found_from, first_given};

use crate::causes::Cause;
use crate::modes::Mode;
use crate::rows::{LineForm, Row, table};
use crate::values::is_same;
use frr_policy::{Words, words};
use std::marker::Model;

// Whether a word of a line is as a head wants it; `_` wants any.
fn fits_word(wanted: &[u8], word: &[u8]) -> bool
    ensures { result ≡ fits_word wanted.now word.now }
{
    is_same(b"_", wanted) || is_same(wanted, word)
}

// The words behind those of a row's head, where a line begins with them.
fn behind<'a>(head: &str, line: &Words<'a>) -> Option<Words<'a>>
    ensures { result ≡ behind (words head.now) line.now }
{
    let mut line = line.again();
    let mut head = words(head.as_bytes());
    while let Some(wanted) = head.next() {
        match line.next() {
            Some(word) if fits_word(wanted, word) => {}
            _ => return None,
        }
    }
    Some(line)
}

/// A line as the table sees it.
#[derive(Debug, Drop)]
pub struct Found<'a> {
    /// The mode in which it is taken.
    pub mode: Mode,
    /// Its row.
    pub row: Row,
    /// The words behind the row's head.
    pub rest: Words<'a>,
}

impl<'a> Model for Found<'a> {
    ghost use Rattle.frr_reader.specs.Table.{FoundValue};

    ghost Value = { FoundValue };

    ghost view = { λ f. record { mode = f.mode; row = f.row; rest = f.rest } };
}

impl LineForm {
    fn stands_in(&self, mode: Mode) -> bool
        ensures { result ≡ stands_in (form self.now.modes.now self.now.head.now self.now.row) mode }
    {
        self.modes.iter().any(|m| m.rank() == mode.rank())
    }

    #[tactic(auto, unfolding(crate::specs::Table::by_form))]
    fn take<'a>(&self, line: &Words<'a>, mode: Mode) -> Option<Found<'a>>
        ensures { result ≡ by_form line.now mode (form self.now.modes.now self.now.head.now self.now.row) }
    {
        if !self.stands_in(mode) {
            return None;
        }
        let rest = behind(self.head, line)?;
        Some(Found {
            mode,
            row: self.row,
            rest,
        })
    }

    fn heads(&self, line: &Words<'_>) -> bool
        ensures { result ≡ has_head line.now (form self.now.modes.now self.now.head.now self.now.row) }
    {
        behind(self.head, line).is_some()
    }
}

#[tactic(auto, unfolding(crate::specs::Table::found_in))]
fn found_in<'a>(line: &Words<'a>, mode: Mode) -> Option<Found<'a>>
    ensures { result ≡ found_in line.now mode }
{
    for form in table() {
        if let Some(found) = form.take(line, mode) {
            return Some(found);
        }
    }
    None
}

#[tactic(auto, unfolding(crate::specs::Table::is_known))]
fn is_known(line: &Words<'_>) -> bool
    ensures { result ≡ is_known line.now }
{
    for form in table() {
        if form.heads(line) {
            return true;
        }
    }
    false
}

fn found_outwards<'a>(line: &Words<'a>, mode: Mode) -> Option<Found<'a>>
    ensures { result ≡ first_given (found_in line.now) (modes_from mode) }
{
    for outer in mode.outwards() {
        if let Some(found) = found_in(line, *outer) {
            return Some(found);
        }
    }
    None
}

/// A line of these words in the innermost of the modes from this one outwards that has a row with its
/// head. Where there is none: whether the line is known in some other mode.
#[tactic(auto, unfolding(crate::specs::Table::found_from))]
pub fn find<'a>(mode: Mode, line: &Words<'a>) -> Result<Found<'a>, Cause>
    ensures { result ≡ found_from mode line.now }
{
    match found_outwards(line, mode) {
        Some(found) => Ok(found),
        None if is_known(line) => Err(Cause::OutOfPlace),
        None => Err(Cause::Unsupported),
    }
}
