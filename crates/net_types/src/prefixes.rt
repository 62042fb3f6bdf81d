//! IPv4 prefixes.

ghost use Rattle.std.specs.Prelude.{◌≡◌, ◌^◌, ◌-◌, ◌≤◌};
ghost use Rattle.net_types.specs.Prefixes.{prefix_of, covers, overlaps, same_prefix, prefix_before};
ghost use Rattle.net_types.specs.Masks.{masked};

use crate::read_interface;
use std::marker::Model;

/// An IPv4 prefix: the addresses whose first `len` bits are those of `bits`.
#[derive(Clone, Copy, PartialEq, Eq, Debug)]
pub struct Prefix {
    /// The first address; its bits past the length are 0.
    pub bits: u32,
    /// The length in bits, at most 32.
    pub len: u8,
}

impl Model for Prefix {
    ghost use Rattle.net_types.specs.PrefixValue.{PrefixValue, IsPrefix};

    ghost Value = { PrefixValue };

    ghost view = { λ p. record { bits = p.bits; len = p.len } };

    ghost invariant = { λ p. IsPrefix (record { bits = p.bits; len = p.len }) };

    ghost inverse = { λ v. record { bits = v.bits; len = v.len } };
}

// The number of addresses that share their first `len` bits.
fn span(len: u8) -> u64
    requires { len ≤ 32 }
    ensures { result ≡ 2 ^ (32 - len) }
{
    1 << (32 - len)
}

impl Prefix {
    /// The prefix of the address and the length: the address with the bits past the length cleared.
    pub fn masked(address: u32, len: u8) -> Prefix
        requires { len ≤ 32 }
        ensures { result ≡ masked address len }
    {
        let span = span(len);
        let bits = u64::from(address) / span * span;
        Prefix {
            bits: bits as u32,
            len,
        }
    }

    /// The prefix of a text: an address, `/` and a length from 0 to 32 without a leading zero. None
    /// where the text is not written so, or where a bit past the length is set.
    pub fn read(text: &[u8]) -> Option<Prefix>
        ensures { result ≡ prefix_of text.now }
    {
        let (address, prefix) = read_interface(text)?;
        if prefix.bits == address {
            Some(prefix)
        } else {
            None
        }
    }

    /// Whether the other prefix lies in this one.
    pub fn covers(&self, other: &Prefix) -> bool
        ensures { result ≡ covers self.now other.now }
    {
        self.len <= other.len && Prefix::masked(other.bits, self.len).bits == self.bits
    }

    /// Whether one of the two prefixes lies in the other.
    pub fn overlaps(&self, other: &Prefix) -> bool
        ensures { result ≡ overlaps self.now other.now }
    {
        self.covers(other) || other.covers(self)
    }

    /// Whether the two prefixes are one.
    pub fn is_same(&self, other: &Prefix) -> bool
        ensures { result ≡ same_prefix self.now other.now }
    {
        self.bits == other.bits && self.len == other.len
    }

    /// Whether this prefix comes before the other: by bits, then by length.
    pub fn is_before(&self, other: &Prefix) -> bool
        ensures { result ≡ prefix_before self.now other.now }
    {
        self.bits < other.bits || self.bits == other.bits && self.len < other.len
    }
}
