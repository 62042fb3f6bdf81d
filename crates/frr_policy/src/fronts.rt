//! What the lines of lists have in front: a name, a sequence number and an action.

ghost use Rattle.std.specs.Prelude.{◌≡◌, ◌==◌, ◌/◌, ◌*◌, ◌+◌, codes};
ghost use Rattle.frr_policy.specs.Values.{name_of, action_of, positive_of};
ghost use Rattle.frr_policy.specs.Grammar.{first, optional, Took};
ghost use Rattle.frr_policy.specs.Lists.{front_of};

use crate::line_words::{Words, is_word};
use crate::values::{Name, action_of, positive_of};
use std::marker::Model;

/// What a line of a list says in front of what its entry matches.
#[derive(Debug, Drop)]
pub(crate) struct Front<'a> {
    /// The list's name.
    pub name: Name<'a>,
    /// The sequence number, where one is written.
    pub seq: Option<u32>,
    /// Whether a match is a permit.
    pub permit: bool,
}

impl<'a> Model for Front<'a> {
    ghost use Rattle.frr_policy.specs.Lists.{FrontValue};

    ghost Value = { FrontValue };

    ghost view = { λ it. record { name = it.name; seq = it.seq; permit = it.permit } };
}

/// NAME, from the front of the words.
pub(crate) fn take_name<'a>(words: &mut Words<'a>) -> Option<Name<'a>>
    ensures { Took (first name_of words.old) words.new result }
{
    let word = words.next()?;
    Name::of(word)
}

/// ACT, from the front of the words.
pub(crate) fn take_action(words: &mut Words<'_>) -> Option<bool>
    ensures { Took (first action_of words.old) words.new result }
{
    let word = words.next()?;
    action_of(word)
}

// NUM, from the front of the words.
fn take_number(words: &mut Words<'_>) -> Option<u32>
    ensures { Took (first positive_of words.old) words.new result }
{
    let word = words.next()?;
    positive_of(word)
}

// Optional `seq` NUM, from the front of the words.
fn take_seq(words: &mut Words<'_>) -> Option<Option<u32>>
    ensures { Took (optional (codes "seq") positive_of words.old) words.new result }
{
    let mut ahead = words.again();
    match ahead.next() {
        Some(word) if is_word(b"seq", word) => {
            let number = take_number(&mut ahead)?;
            *words = ahead;
            Some(Some(number))
        }
        _ => Some(None),
    }
}

/// Behind a list's name: optional `seq` NUM, then ACT, from the front of the words.
pub(crate) fn take_front<'a>(name: Name<'a>, words: &mut Words<'a>) -> Option<Front<'a>>
    ensures { Took (front_of name.entry words.old) words.new result }
{
    let seq = take_seq(words)?;
    let permit = take_action(words)?;
    Some(Front { name, seq, permit })
}
