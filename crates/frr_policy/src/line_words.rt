//! A line as its words.

ghost use Rattle.std.specs.Prelude.{◌≡◌, ◌<◌, ◌∷◌, [], MatchOption, length};
ghost use Rattle.std.specs.List.{position_or_len, slice_split};
ghost use Rattle.net_types.specs.Order.{same_text};
ghost use Rattle.frr_policy.specs.Words.{words, is_blank};

use std::marker::Model;

/// The words of a line that are left, in order. Contracts see the list of them.
#[derive(Debug, Drop)]
pub struct Words<'a> {
    line: &'a [u8],
}

impl<'a> Model for Words<'a> {
    ghost use Rattle.std.specs.Prelude.{List as Seq, ℕ};
    ghost use Rattle.frr_policy.specs.Words.{words};

    ghost Value = { Seq (Seq ℕ) };

    ghost view = { λ it. words it.line.now };
}

impl<'a> Words<'a> {
    /// The same words once more.
    pub fn again(&self) -> Words<'a>
        ensures { result ≡ self.now }
    {
        Words { line: self.line }
    }

    /// Takes the next word.
    #[tactic(auto, unfolding(crate::specs::Words::words))]
    pub fn next(&mut self) -> Option<&'a [u8]>
        ensures { MatchOption result ((self.old ≡ []) × (self.new ≡ [])) (λ word. self.old ≡ word.now ∷ self.new) }
    {
        while let Some((part, rest)) = cut_at_blank(self.line) {
            self.line = rest;
            if !part.is_empty() {
                return Some(part);
            }
        }
        let last = self.line;
        self.line = &[];
        if last.is_empty() { None } else { Some(last) }
    }
}

impl<'a> Iterator for Words<'a> {
    ghost use Rattle.std.specs.Iterator.{YieldsFirstRef, item_count};

    type Item = &'a [u8];

    ghost next_gives = { YieldsFirstRef (λ s. s) };

    ghost remaining = { item_count (λ s. s) };

    fn next(&mut self) -> Option<&'a [u8]> {
        Words::next(self)
    }
}

/// The words of a line, in order: what stands between its blanks, which are space and tab.
pub fn words_of(line: &[u8]) -> Words<'_>
    ensures { result ≡ words line.now }
{
    Words { line }
}

/// Whether two words are one.
pub(crate) fn is_word(wanted: &[u8], word: &[u8]) -> bool
    ensures { result ≡ same_text wanted.now word.now }
{
    wanted == word
}

// The bytes before the first blank and those behind it, or none where there is no blank.
fn cut_at_blank(line: &[u8]) -> Option<(&[u8], &[u8])>
    ensures parts { MatchOption result (slice_split is_blank line.now ≡ line.now ∷ []) (λ p. slice_split is_blank line.now ≡ p.0.now ∷ slice_split is_blank p.1.now) }
    ensures shorter { MatchOption result (slice_split is_blank line.now ≡ line.now ∷ []) (λ p. length p.1.now < length line.now) }
{
    let at = place_of_blank(line);
    if at < line.len() {
        Some((&line[..at], &line[at + 1..]))
    } else {
        None
    }
}

// The place of the first blank, or the length.
fn place_of_blank(line: &[u8]) -> usize
    ensures { result ≡ position_or_len is_blank line.now }
{
    line.iter().take_while(|b| !is_blank(**b)).count()
}

fn is_blank(byte: u8) -> bool
    ensures { result ≡ is_blank byte }
{
    byte == b' ' || byte == b'\t'
}
