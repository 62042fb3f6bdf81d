//! IPv4 addresses in a text.

ghost use Rattle.std.specs.Prelude.{◌≡◌, ◌≤◌, IfSome};
ghost use Rattle.net_types.specs.Addresses.{address_of, interface_of, octet};
ghost use Rattle.net_types.specs.Numerals.{number_in};

use crate::{Prefix, cut, read_number};

/// The address of a text: four decimals from 0 to 255, without leading zeros, joined by points. Else
/// none. An address is its 32 bits, the first byte being the highest.
pub fn read_address(text: &[u8]) -> Option<u32>
    ensures { result ≡ address_of text.now }
{
    let (a, behind_a) = cut(text, b'.')?;
    let (b, behind_b) = cut(behind_a, b'.')?;
    let (c, d) = cut(behind_b, b'.')?;
    if let Some((_fourth, _fifth)) = cut(d, b'.') {
        return None;
    }
    let bytes = [
        read_octet(a)?,
        read_octet(b)?,
        read_octet(c)?,
        read_octet(d)?,
    ];
    Some(u32::from_be_bytes(bytes))
}

fn read_octet(part: &[u8]) -> Option<u8>
    ensures { result ≡ octet part.now }
{
    match read_number(part, 0, 255) {
        Some(number) => Some(number as u8),
        None => None,
    }
}

/// The address and the prefix of a text: an address, `/` and a length from 0 to 32 without a leading
/// zero. The prefix is the address with the bits past the length cleared. Else none.
pub fn read_interface(text: &[u8]) -> Option<(u32, Prefix)>
    ensures { result ≡ interface_of text.now }
{
    let (address, len) = cut(text, b'/')?;
    if let Some((_second, _third)) = cut(len, b'/') {
        return None;
    }
    let address = read_address(address)?;
    let len = read_length(len)?;
    Some((address, Prefix::masked(address, len)))
}

fn read_length(text: &[u8]) -> Option<u8>
    ensures value { result ≡ number_in 0 32 text.now }
    ensures within { IfSome result (λ len. len ≤ 32) }
{
    match read_number(text, 0, 32) {
        Some(number) => Some(number as u8),
        None => None,
    }
}
