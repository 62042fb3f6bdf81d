//! The values of a line: what its words behind the row's head say.

ghost use Rattle.std.specs.Prelude.{◌≡◌, ◌<◌, IfOk, IfSome, MatchOption, All, Some, None};
ghost use Rattle.net_types.specs.Order.{same_text};
ghost use Rattle.frr_policy.specs.Values.{name_of, masked_prefix_of};
ghost use Rattle.frr_reader.specs.Values.{is_nothing, host_of, as_of, area_of, cost_of, interface_address_of, only, one, network_of, two, is_unicast};

use frr_policy::Words;
use net_types::{Prefix, Text, is_host, is_name, read_interface, read_number};
use std::alloc::{AllocError, Global};

/// Whether two words are one.
pub fn is_same(wanted: &[u8], word: &[u8]) -> bool
    ensures { result ≡ same_text wanted.now word.now }
{
    wanted == word
}

// The one word of a rest that has no other.
fn only<'a>(rest: &Words<'a>) -> Option<&'a [u8]>
    ensures { MatchOption result (only rest.now ≡ None) (λ word. only rest.now ≡ Some word.now) }
{
    let mut rest = rest.again();
    let word = rest.next()?;
    match rest.next() {
        Some(_second) => None,
        None => Some(word),
    }
}

/// The two words of a rest that has no other.
pub fn two<'a>(rest: &Words<'a>) -> Option<(&'a [u8], &'a [u8])>
    ensures { MatchOption result (two rest.now ≡ None) (λ words. two rest.now ≡ Some (words.0.now, words.1.now)) }
{
    let mut rest = rest.again();
    let first = rest.next()?;
    let second = rest.next()?;
    match rest.next() {
        Some(_third) => None,
        None => Some((first, second)),
    }
}

/// Whether there is no word.
pub fn is_nothing(rest: &Words<'_>) -> bool
    ensures { result ≡ is_nothing rest.now }
{
    rest.again().next().is_none()
}

#[tactic(auto, using(crate::proofs::ValueLemmas::host_ascii))]
fn host_of(word: &[u8]) -> Option<&[u8]>
    ensures ascii { IfSome result (λ host. All (λ b. b < 128) host.now) }
    ensures value { MatchOption result (host_of word.now ≡ None) (λ host. host_of word.now ≡ Some host.now) }
{
    if is_host(word) { Some(word) } else { None }
}

/// A name of 1 to 63 bytes from 33 to 126.
#[tactic(auto, using(crate::proofs::ValueLemmas::name_ascii))]
pub fn name_of(word: &[u8]) -> Option<&[u8]>
    ensures ascii { IfSome result (λ name. All (λ b. b < 128) name.now) }
    ensures value { MatchOption result (name_of word.now ≡ None) (λ name. name_of word.now ≡ Some name.now) }
{
    if is_name(word) { Some(word) } else { None }
}

fn as_of(word: &[u8]) -> Option<u32>
    ensures { result ≡ as_of word.now }
{
    match read_number(word, 1, 4_294_967_295) {
        Some(asn) => Some(asn as u32),
        None => None,
    }
}

fn area_of(word: &[u8]) -> Option<u32>
    ensures { result ≡ area_of word.now }
{
    if is_same(b"0", word) || is_same(b"0.0.0.0", word) {
        Some(0)
    } else {
        None
    }
}

fn cost_of(word: &[u8]) -> Option<u32>
    ensures { result ≡ cost_of word.now }
{
    match read_number(word, 1, 65_535) {
        Some(cost) => Some(cost as u32),
        None => None,
    }
}

fn interface_address_of(word: &[u8]) -> Option<(u32, Prefix)>
    ensures { result ≡ interface_address_of word.now }
{
    let (address, prefix) = read_interface(word)?;
    if 1 <= prefix.len {
        Some((address, prefix))
    } else {
        None
    }
}

fn masked_prefix_of(word: &[u8]) -> Option<Prefix>
    ensures { result ≡ masked_prefix_of word.now }
{
    let (_address, prefix) = read_interface(word)?;
    Some(prefix)
}

/// A host name: one word of 1 to 63 letters, digits, `-`, `.` and `_`.
pub fn host<'a>(rest: &Words<'a>) -> Option<&'a [u8]>
    ensures ascii { IfSome result (λ host. All (λ b. b < 128) host.now) }
    ensures value { MatchOption result (one host_of rest.now ≡ None) (λ host. one host_of rest.now ≡ Some host.now) }
{
    host_of(only(rest)?)
}

/// An interface's name: one word of 1 to 63 bytes from 33 to 126.
pub fn name<'a>(rest: &Words<'a>) -> Option<&'a [u8]>
    ensures ascii { IfSome result (λ name. All (λ b. b < 128) name.now) }
    ensures value { MatchOption result (one name_of rest.now ≡ None) (λ name. one name_of rest.now ≡ Some name.now) }
{
    name_of(only(rest)?)
}

/// An AS number, from 1 to 4,294,967,295.
pub fn asn(rest: &Words<'_>) -> Option<u32>
    ensures { result ≡ one as_of rest.now }
{
    as_of(only(rest)?)
}

/// The prefix of an address with a length from 0 to 32.
pub fn masked_prefix(rest: &Words<'_>) -> Option<Prefix>
    ensures { result ≡ one masked_prefix_of rest.now }
{
    masked_prefix_of(only(rest)?)
}

/// Whether the rest is the address family: `ipv4`, or `ipv4` and `unicast`.
pub fn is_unicast(rest: &Words<'_>) -> bool
    ensures { result ≡ is_unicast rest.now }
{
    let mut rest = rest.again();
    match (rest.next(), rest.next(), rest.next()) {
        (Some(family), None, None) => is_same(b"ipv4", family),
        (Some(family), Some(word), None) => is_same(b"ipv4", family) && is_same(b"unicast", word),
        _ => false,
    }
}

/// The backbone area, which is the only one: `0` or `0.0.0.0`.
pub fn area(rest: &Words<'_>) -> Option<u32>
    ensures { result ≡ one area_of rest.now }
{
    area_of(only(rest)?)
}

/// An OSPF cost: a number from 1 to 65,535.
pub fn cost(rest: &Words<'_>) -> Option<u32>
    ensures { result ≡ one cost_of rest.now }
{
    cost_of(only(rest)?)
}

/// An interface's address with a length from 1 to 32, and its subnet.
pub fn interface_address(rest: &Words<'_>) -> Option<(u32, Prefix)>
    ensures { result ≡ one interface_address_of rest.now }
{
    interface_address_of(only(rest)?)
}

/// The prefix of an address with a length from 0 to 32, then `area`, then the area.
pub fn network(rest: &Words<'_>) -> Option<Prefix>
    ensures { result ≡ network_of rest.now }
{
    let mut rest = rest.again();
    let prefix = rest.next()?;
    let word = rest.next()?;
    let area = rest.next()?;
    match rest.next() {
        None if is_same(b"area", word) => {
            let _backbone = area_of(area)?;
            masked_prefix_of(prefix)
        }
        _ => None,
    }
}

/// The text of bytes below 128.
pub fn ascii_text(alloc: Global, bytes: &[u8]) -> Result<Text, AllocError>
    requires { All (λ b. b < 128) bytes.now }
    ensures { IfOk result (λ text. text ≡ bytes.now) }
{
    match str::from_utf8(bytes) {
        Ok(text) => Text::from_str(alloc, text),
        Err(_error) => unreachable!(),
    }
}
