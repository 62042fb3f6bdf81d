//! The lines of a file.

ghost use Rattle.std.specs.Prelude.{◌≡◌, ◌+◌, ◌∷◌, [], MatchOption, length};
ghost use Rattle.std.specs.Io.BufRead.{strip_last};
ghost use Rattle.net_types.specs.Cut.{parts};
ghost use Rattle.frr_reader.specs.Lines.{lines};

use net_types::cut;
use std::marker::Model;

/// A line of a file.
#[derive(Debug, Drop)]
pub struct Line<'a> {
    /// Its number, counted from 1.
    pub number: u64,
    /// Its bytes, without the LF that ends it and without a CR before that.
    pub text: &'a [u8],
    /// Up to which byte of the file it reaches, its CR and its LF counted.
    pub reach: usize,
}

impl<'a> Model for Line<'a> {
    ghost use Rattle.frr_reader.specs.Lines.{LineValue};

    ghost Value = { LineValue };

    ghost view = { λ l. record { number = l.number; text = l.text.now; reach = l.reach } };
}

/// The lines of a file, in order. Contracts see the list of those left.
#[derive(Debug, Drop)]
pub struct Lines<'a> {
    rest: &'a [u8],
    ended: bool,
    number: u64,
    before: usize,
}

impl<'a> Model for Lines<'a> {
    ghost use Rattle.std.specs.Prelude.{List as Seq, [], if◌then◌else◌, length, ◌+◌, ◌<◌, ◌^◌};
    ghost use Rattle.net_types.specs.Cut.{parts};
    ghost use Rattle.frr_reader.specs.Lines.{LineValue, numbered};

    ghost Value = { Seq LineValue };

    ghost view = { λ it. if it.ended then [] else numbered it.number it.before (parts 10 it.rest.now) };

    ghost invariant = { λ it. (it.number + length it.rest.now < 2 ^ 64) × (it.before + length it.rest.now < 2 ^ 64) };
}

impl<'a> Lines<'a> {
    /// The lines of a file.
    #[tactic(auto, unfolding(crate::specs::Lines::lines))]
    pub fn new(text: &'a [u8]) -> Lines<'a>
        ensures { result ≡ lines text.now }
    {
        Lines {
            rest: text,
            ended: false,
            number: 1,
            before: 0,
        }
    }

    /// Takes the next line.
    #[tactic(auto, using(crate::proofs::LineLemmas::numbered_part))]
    pub fn next(&mut self) -> Option<Line<'a>>
        ensures { MatchOption result ((self.old ≡ []) × (self.new ≡ [])) (λ line. self.old ≡ line ∷ self.new) }
    {
        if self.ended {
            return None;
        }
        let number = self.number;
        match cut_line(self.rest) {
            Some((part, rest)) => {
                let reach = self.before + part.len() + 1;
                self.rest = rest;
                self.number = number + 1;
                self.before = reach;
                Some(Line {
                    number,
                    text: without_cr(part),
                    reach,
                })
            }
            None => {
                self.ended = true;
                Some(Line {
                    number,
                    text: without_cr(self.rest),
                    reach: self.before + self.rest.len(),
                })
            }
        }
    }
}

// The bytes before the first LF and those behind it, or none where there is no LF.
fn cut_line(text: &[u8]) -> Option<(&[u8], &[u8])>
    ensures parts { MatchOption result (parts 10 text.now ≡ text.now ∷ []) (λ p. parts 10 text.now ≡ p.0.now ∷ parts 10 p.1.now) }
    ensures sizes { MatchOption result (parts 10 text.now ≡ text.now ∷ []) (λ p. length text.now ≡ length p.0.now + 1 + length p.1.now) }
{
    cut(text, b'\n')
}

// A line without the CR at its end.
fn without_cr(line: &[u8]) -> &[u8]
    ensures { result.now ≡ strip_last 13 line.now }
{
    if line.ends_with(b"\r") {
        &line[..line.len() - 1]
    } else {
        line
    }
}
