//! Words of a line, and lines by numbers.

use net_types::NoMemory;
use std::alloc::Global;

/// The number that is written, where it is one of 64 bits.
pub fn number_of(text: &str) -> Option<u64> {
    text.parse::<u64>().ok()
}

/// The first word, and what stands behind the blank behind it; nothing where there is no blank.
pub fn cut_word(line: &str) -> (&str, &str) {
    match line.split_once(' ') {
        Some((word, rest)) => (word, rest),
        None => (line, ""),
    }
}

/// The first word as a number, and the rest.
pub fn cut_number(line: &str) -> Option<(u64, &str)> {
    let (word, rest) = cut_word(line);
    Some((number_of(word)?, rest))
}

/// A line for each of so many numbers from the first on, which stand for `%`.
#[derive(Clone, Copy)]
pub struct Numbered<'a> {
    pub first: u64,
    pub count: u64,
    pub line: &'a str,
}

impl<'a> Numbered<'a> {
    /// Reads the first number, how many, and the line.
    pub fn read(text: &'a str) -> Option<Numbered<'a>> {
        let (first, rest) = cut_number(text)?;
        let (count, line) = cut_number(rest)?;
        Some(Numbered { first, count, line })
    }

    /// The line of one number.
    pub fn line(&self, alloc: Global, at: u64) -> Result<String, NoMemory> {
        let number = self.first.saturating_add(at);
        let number = format!(in alloc; "{number}")?;
        Ok(self.line.replace(alloc, '%', number.as_str())?)
    }
}
