//! A file read line by line.

ghost use Rattle.std.specs.Prelude.{◌≡◌, IfOk};
ghost use Rattle.std.specs.List.{list_any};
ghost use Rattle.net_types.specs.ConfigFacts.{IsConfig};
ghost use Rattle.frr_reader.specs.Answers.{Takes};
ghost use Rattle.frr_reader.specs.Reading.{is_control, begins_comment, by_words, step, refusal_of, reading, config_of, Answers};

use crate::causes::{Cause, LineRefusal};
use crate::lines::{Line, Lines};
use crate::state::Reader;
use crate::table::find;
use frr_policy::{Words, words};
use net_types::{ReadRefusal, RouterConfig};
use std::alloc::Global;

/// The most bytes of a line, its LF and a CR before that not counted.
const LINE_MAX: usize = 512;
/// Up to which byte a file is read.
const FILE_MAX: usize = 262_144;

/// What a configuration file says of its router.
///
/// A file is read line by line. The first line that is refused refuses the file, in it the first cause in
/// the order of `ReadRefusal`. Else there has to be a `hostname`, each map and list that a line names has to
/// be defined, and each AS number that a line prepends has to be the file's own; of several such lines the
/// least is named. An answer without memory may come at any time.
pub fn read_router(alloc: Global, text: &[u8]) -> Result<RouterConfig, ReadRefusal>
    ensures exact { Answers (reading text.now) result }
    ensures kept { IfOk result IsConfig }
{
    read_text(alloc, text)
}

#[tactic(auto, unfolding(crate::specs::Reading::reading))]
fn read_text(alloc: Global, text: &[u8]) -> Result<RouterConfig, ReadRefusal>
    ensures { Answers (reading text.now) result }
{
    let mut reader = Reader::new(alloc);
    let mut lines = Lines::new(text);
    while let Some(line) = lines.next() {
        match take_line(&mut reader, alloc, &line) {
            Ok(()) => {}
            Err(LineRefusal::Refused(cause)) => return Err(refusal_of(cause, line.number)),
            Err(LineRefusal::NoMemory) => return Err(ReadRefusal::NoMemory),
        }
    }
    reader.finish()
}

// The refusal of a file by the refusal of a line.
fn refusal_of(cause: Cause, number: u64) -> ReadRefusal
    ensures { result ≡ refusal_of cause number }
{
    match cause {
        Cause::NotText => ReadRefusal::NotText(number),
        Cause::LineTooLong => ReadRefusal::LineTooLong(number),
        Cause::Unsupported => ReadRefusal::Unsupported(number),
        Cause::OutOfPlace => ReadRefusal::OutOfPlace(number),
        Cause::BadValue => ReadRefusal::BadValue(number),
        Cause::Repeated => ReadRefusal::Repeated(number),
        Cause::OutOfLimit => ReadRefusal::OutOfLimit(number),
    }
}

#[tactic(auto, unfolding(crate::specs::Reading::step))]
fn take_line(reader: &mut Reader, alloc: Global, line: &Line<'_>) -> Result<(), LineRefusal>
    ensures { Takes (step reader.old line.now) reader.new result }
{
    if has_control(line.text) {
        return Err(LineRefusal::Refused(Cause::NotText));
    }
    if line.text.len() > LINE_MAX {
        return Err(LineRefusal::Refused(Cause::LineTooLong));
    }
    reader.begin_line(line.number);
    take_words(reader, alloc, &words(line.text))?;
    if line.reach > FILE_MAX {
        return Err(LineRefusal::Refused(Cause::OutOfLimit));
    }
    Ok(())
}

#[tactic(auto, unfolding(crate::specs::Reading::by_words))]
fn take_words(reader: &mut Reader, alloc: Global, words: &Words<'_>) -> Result<(), LineRefusal>
    ensures { Takes (by_words reader.old words.now) reader.new result }
{
    match words.again().next() {
        None => Ok(()),
        Some(word) if begins_comment(word) => Ok(()),
        Some(_word) => match find(reader.mode(), words) {
            Err(cause) => Err(LineRefusal::Refused(cause)),
            Ok(found) => {
                reader.enter(found.mode);
                reader.take(alloc, found.row, words, &found.rest)
            }
        },
    }
}

fn has_control(text: &[u8]) -> bool
    ensures { result ≡ list_any is_control text.now }
{
    text.iter().any(|byte| is_control(*byte))
}

fn is_control(byte: u8) -> bool
    ensures { result ≡ is_control byte }
{
    (byte < 32 && byte != b'\t') || byte == 127
}

fn begins_comment(word: &[u8]) -> bool
    ensures { result ≡ begins_comment word.now }
{
    match word {
        [] => false,
        [first, ..] => *first == b'!' || *first == b'#',
    }
}
