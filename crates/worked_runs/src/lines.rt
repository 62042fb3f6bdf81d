//! What a line of a table says.

use net_types::read_number;

/// A line of a table. What it says of a number is none where that is no number up to a million.
#[derive(Clone, Copy)]
pub enum Line<'a> {
    /// The name of a case that begins.
    Name(&'a str),
    /// The words of its run.
    Words(&'a str),
    /// What is asked of it in place of a run.
    Question(&'a str),
    /// The name of a case whose files it has.
    Like(&'a str),
    /// The path of a file.
    File(&'a str),
    /// The status that it ends with.
    Wanted(Option<u64>),
    /// Lines by numbers.
    Lines(Option<Numbered<'a>>),
    /// A line with a character, of this number, that nobody would see in a table.
    Char(Option<Unseen<'a>>),
    /// The open text ends without the line feed of its last line.
    Unended,
    /// The number of a call of the files that fails.
    Read(Option<u64>),
    /// The number of a call of the output that fails.
    Write(Option<u64>),
    /// How many bytes the output takes.
    Room(Option<u64>),
    /// Begun as one of these, and none.
    Unknown,
    /// A line of a file, or of what is written.
    Text,
}

/// Lines, with `|` between them, for each of so many numbers from the first on, which stand for `%`.
#[derive(Clone, Copy)]
pub struct Numbered<'a> {
    pub first: u64,
    pub count: u64,
    pub lines: &'a str,
}

/// A line with a character for `%`.
#[derive(Clone, Copy)]
pub struct Unseen<'a> {
    pub character: u8,
    pub line: &'a str,
}

/// The number that is written, where it is one up to a million.
pub fn number_of(text: &str) -> Option<u64> {
    read_number(text.as_bytes(), 0, 1_000_000)
}

fn numbered_of(text: &str) -> Option<Numbered<'_>> {
    let (first, rest) = text.split_once(' ')?;
    let (count, lines) = rest.split_once(' ')?;
    Some(Numbered {
        first: number_of(first)?,
        count: number_of(count)?,
        lines,
    })
}

fn unseen_of(text: &str) -> Option<Unseen<'_>> {
    let (character, line) = text.split_once(' ')?;
    let character = u8::try_from(number_of(character)?).ok()?;
    Some(Unseen { character, line })
}

// What a line says that begins with a word of a table.
fn directive(line: &str) -> Line<'_> {
    match line.split_once(' ') {
        Some(("==", rest)) => Line::Name(rest),
        Some(("$", rest)) => Line::Words(rest),
        Some(("?", rest)) => Line::Question(rest),
        Some(("+", rest)) => Line::Like(rest),
        Some(("--", rest)) => Line::File(rest),
        Some(("=>", rest)) => Line::Wanted(number_of(rest)),
        Some(("%lines", rest)) => Line::Lines(numbered_of(rest)),
        Some(("%char", rest)) => Line::Char(unseen_of(rest)),
        Some(("%read", rest)) => Line::Read(number_of(rest)),
        Some(("%write", rest)) => Line::Write(number_of(rest)),
        Some(("%room", rest)) => Line::Room(number_of(rest)),
        _ => Line::Unknown,
    }
}

/// What the line says. Files and outputs have no lines that begin with `=`, `$`, `?`, `+`, `-` or `%`.
pub fn line_of(line: &str) -> Line<'_> {
    if line == "$" {
        return Line::Words("");
    }
    if line == "%unended" {
        return Line::Unended;
    }
    match line.as_bytes().first() {
        Some(b'=' | b'$' | b'?' | b'+' | b'-' | b'%') => directive(line),
        _ => Line::Text,
    }
}
