//! Sequence numbers: that of a new entry beside those that a list or a map has.

ghost use Rattle.std.specs.Prelude.{◌≡◌, ◌==◌, ℕ, IfOk, map};
ghost use Rattle.std.specs.List.{list_any};
ghost use Rattle.frr_policy.specs.Answers.{Answers};
ghost use Rattle.frr_policy.specs.Lists.{HasRoom, greatest, number_of, if_free, new_number};

use crate::LineRefusal;
use net_types::{CommunityEntry, MapEntry, PrefixEntry};

/// An entry of a list or a map.
pub trait Numbered {
    ghost seq_of: { Self → ℕ };

    /// The sequence number.
    fn seq(&self) -> u32
        ensures { result ≡ seq_of self.now };
}

impl Numbered for PrefixEntry {
    ghost seq_of = { λ e. e.seq };

    fn seq(&self) -> u32 {
        self.seq
    }
}

impl Numbered for CommunityEntry {
    ghost seq_of = { λ e. e.seq };

    fn seq(&self) -> u32 {
        self.seq
    }
}

impl Numbered for MapEntry {
    ghost seq_of = { λ e. e.seq };

    fn seq(&self) -> u32 {
        u32::from(self.seq)
    }
}

/// A list or a map has at most so many entries.
const MOST_ENTRIES: usize = 64;

// The greatest sequence number, or 0.
fn greatest<E: Numbered>(entries: &[E]) -> u32
    ensures { result ≡ greatest (map E.seq_of entries.now) }
{
    entries
        .iter()
        .map(|entry| entry.seq())
        .fold(0, |greatest, seq| greatest.max(seq))
}

// Whether an entry has this sequence number.
fn is_taken<E: Numbered>(entries: &[E], number: u32) -> bool
    ensures { result ≡ list_any (λ n. n == number) (map E.seq_of entries.now) }
{
    entries
        .iter()
        .map(|entry| entry.seq())
        .any(|seq| seq == number)
}

// The written number, or the next multiple of 5.
fn number_of<E: Numbered>(written: Option<u32>, entries: &[E]) -> Result<u32, LineRefusal>
    ensures { result ≡ number_of written (map E.seq_of entries.now) }
{
    if let Some(number) = written {
        return Ok(number);
    }
    let next = u64::from(greatest(entries)) / 5 * 5 + 5;
    if next <= 4_294_967_295 {
        Ok(next as u32)
    } else {
        Err(LineRefusal::BadValue)
    }
}

/// Whether an entry with this number may be added.
pub(crate) fn if_free<E: Numbered>(entries: &[E], number: u32) -> Result<u32, LineRefusal>
    ensures value { result ≡ if_free (map E.seq_of entries.now) number }
    ensures room { IfOk result (λ n. HasRoom (map E.seq_of entries.now) n) }
    ensures same { IfOk result (λ n. n ≡ number) }
{
    if is_taken(entries, number) {
        Err(LineRefusal::Repeated)
    } else if MOST_ENTRIES <= entries.len() {
        Err(LineRefusal::OutOfLimit)
    } else {
        Ok(number)
    }
}

/// The number of a new entry, or why there is none.
pub(crate) fn new_number<E: Numbered>(
    written: Option<u32>,
    entries: &[E],
) -> Result<u32, LineRefusal>
    ensures value { result ≡ new_number written (map E.seq_of entries.now) }
    ensures room { IfOk result (λ n. HasRoom (map E.seq_of entries.now) n) }
{
    let number = number_of(written, entries)?;
    if_free(entries, number)
}
