//! What one word of a line says.

ghost use Rattle.std.specs.Prelude.{◌≡◌, ◌≤◌, IfOk, IfSome, option_map};
ghost use Rattle.frr_policy.specs.Values.{name_of, action_of, positive_of, u32_of, map_number_of, list_number_of, length_of, masked_prefix_of};

use crate::line_words::is_word;
use net_types::{Prefix, Text, is_name, read_interface, read_number};
use std::alloc::{AllocError, Global};
use std::marker::Model;

/// The name of a list or a map, as it stands in a line. Contracts see its bytes.
#[derive(Debug, Drop)]
pub(crate) struct Name<'a> {
    bytes: &'a [u8],
}

impl<'a> Model for Name<'a> {
    ghost use Rattle.std.specs.Prelude.{List as Seq, ℕ, ◌<◌, All};

    ghost Value = { Seq ℕ };

    ghost view = { λ it. it.bytes.now };

    ghost invariant = { λ it. All (λ b. b < 128) it.bytes.now };
}

impl<'a> Name<'a> {
    /// NAME: a word of 1 to 63 bytes from 33 to 126.
    #[tactic(auto, using(crate::proofs::NameLemmas::name_ascii))]
    pub(crate) fn of(word: &'a [u8]) -> Option<Name<'a>>
        ensures { result ≡ name_of word.now }
    {
        if is_name(word) {
            Some(Name { bytes: word })
        } else {
            None
        }
    }

    /// NUM 1 to 99 as a name.
    #[tactic(auto, using(crate::proofs::NameLemmas::numeral_ascii))]
    pub(crate) fn of_number(word: &'a [u8]) -> Option<Name<'a>>
        ensures { result ≡ option_map (λ _. word.now) (list_number_of word.now) }
    {
        match read_number(word, 1, 99) {
            Some(_number) => Some(Name { bytes: word }),
            None => None,
        }
    }

    /// The name as a text of its own.
    pub(crate) fn to_text(&self, alloc: Global) -> Result<Text, AllocError>
        ensures { IfOk result (λ text. text ≡ self.now) }
    {
        match str::from_utf8(self.bytes) {
            Ok(text) => Text::from_str(alloc, text),
            Err(_error) => unreachable!(),
        }
    }
}

/// ACT: `permit` or `deny`, as whether it is `permit`.
pub(crate) fn action_of(word: &[u8]) -> Option<bool>
    ensures { result ≡ action_of word.now }
{
    if is_word(b"permit", word) {
        Some(true)
    } else if is_word(b"deny", word) {
        Some(false)
    } else {
        None
    }
}

/// A number from 1 to 4,294,967,295: a sequence number of a list, or an AS number.
pub(crate) fn positive_of(word: &[u8]) -> Option<u32>
    ensures { result ≡ positive_of word.now }
{
    match read_number(word, 1, 4_294_967_295) {
        Some(number) => Some(number as u32),
        None => None,
    }
}

/// The length of a prefix, 0 to 32.
pub(crate) fn length_of(word: &[u8]) -> Option<u8>
    ensures { result ≡ length_of word.now }
{
    match read_number(word, 0, 32) {
        Some(number) => Some(number as u8),
        None => None,
    }
}

/// PFX: an address, `/` and a length from 0 to 32; the bits past the length are cleared.
pub(crate) fn masked_prefix_of(word: &[u8]) -> Option<Prefix>
    ensures { result ≡ masked_prefix_of word.now }
{
    let (_address, prefix) = read_interface(word)?;
    Some(prefix)
}

/// A number from 0 to 4,294,967,295.
pub(crate) fn u32_of(word: &[u8]) -> Option<u32>
    ensures { result ≡ u32_of word.now }
{
    match read_number(word, 0, 4_294_967_295) {
        Some(number) => Some(number as u32),
        None => None,
    }
}

/// A sequence number of a route map, 1 to 65,535.
pub(crate) fn map_number_of(word: &[u8]) -> Option<u16>
    ensures { result ≡ map_number_of word.now }
{
    match read_number(word, 1, 65_535) {
        Some(number) => Some(number as u16),
        None => None,
    }
}
