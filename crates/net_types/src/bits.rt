//! A set of numbers below 64, as one word.

ghost use Rattle.std.specs.Prelude.{◌≡◌, ◌==◌, ◌↔◌, ◌<◌, ◌^◌, IsTrue, bit_or, bit_and};
ghost use Rattle.std.specs.Int.{bit_not, w64};
ghost use Rattle.net_types.specs.Sets.{has, is_part, IsPart};

use std::marker::Model;

/// A set of numbers below 64: bit `n` of the word is set where `n` is in the set. Contracts see the
/// word as a number.
#[derive(Clone, Copy, PartialEq, Eq, Debug)]
pub struct Bits64(u64);

impl Model for Bits64 {
    ghost use Rattle.std.specs.Prelude.{ℕ};

    ghost Value = { ℕ };

    ghost view = { λ s. s.0 };

    ghost inverse = { λ n. record { 0 = n } };
}

impl Bits64 {
    /// No number.
    pub const EMPTY: Bits64 = Bits64(0);

    /// All numbers below 64.
    pub const FULL: Bits64 = Bits64(u64::MAX);

    /// The set that the word's bits say.
    pub fn from_word(word: u64) -> Bits64
        ensures { result ≡ word }
    {
        Bits64(word)
    }

    /// The word whose bits say the set.
    pub fn word(self) -> u64
        ensures { result ≡ self }
    {
        self.0
    }

    /// Learns that the word is a 64-bit number.
    pub fn fits(self)
        ensures { self < 2 ^ 64 }
    {
        let _word = self.0;
    }

    /// Whether no number is in the set.
    pub fn is_empty(self) -> bool
        ensures { result ≡ (self == 0) }
    {
        self.0 == 0
    }

    /// Whether the number is in the set.
    pub fn has(self, number: u8) -> bool
        requires { number < 64 }
        ensures { result ≡ has self number }
    {
        (self.0 >> number) & 1 == 1
    }

    /// What is in either set.
    pub fn union(self, other: Bits64) -> Bits64
        ensures { result ≡ bit_or self other }
    {
        Bits64(self.0 | other.0)
    }

    /// What is in both sets.
    pub fn common(self, other: Bits64) -> Bits64
        ensures { result ≡ bit_and self other }
    {
        Bits64(self.0 & other.0)
    }

    /// What is in this set and not in the other.
    pub fn minus(self, other: Bits64) -> Bits64
        ensures { result ≡ bit_and self (bit_not w64 other) }
    {
        Bits64(self.0 & !other.0)
    }

    /// The set with one more number.
    pub fn with(self, number: u8) -> Bits64
        requires { number < 64 }
        ensures { result ≡ bit_or self (2 ^ number) }
    {
        Bits64(self.0 | 1 << number)
    }

    /// The set with one number less.
    pub fn without(self, number: u8) -> Bits64
        requires { number < 64 }
        ensures { result ≡ bit_and self (bit_not w64 (2 ^ number)) }
    {
        Bits64(self.0 & !(1 << number))
    }

    /// Whether each number of this set is in the other.
    pub fn is_part(self, other: Bits64) -> bool
        ensures test { result ≡ is_part self other }
        ensures part { IsTrue result ↔ IsPart self other }
    {
        self.0 & other.0 == self.0
    }
}

const _: () = prove!(Bits64::EMPTY.0 == 0);

const _: () = prove!(Bits64::FULL.0 == u64::MAX);
