//! Communities in a text (RFC 1997).

ghost use Rattle.std.specs.Prelude.{◌≡◌, ◌≤◌, IfSome};
ghost use Rattle.net_types.specs.Communities.{community_of, community_of_parts, half_of};
ghost use Rattle.net_types.specs.Cut.{parts};
ghost use Rattle.net_types.specs.Order.{same_text};

use crate::{cut, read_number};

/// NO_EXPORT of RFC 1997.
pub const NO_EXPORT: u32 = 0xFFFF_FF01;

/// NO_ADVERTISE of RFC 1997.
pub const NO_ADVERTISE: u32 = 0xFFFF_FF02;

/// Whether the text is this word.
pub(crate) fn is_word(wanted: &[u8], text: &[u8]) -> bool
    ensures { result ≡ same_text wanted.now text.now }
{
    wanted == text
}

fn half_of(text: &[u8]) -> Option<u32>
    ensures value { result ≡ half_of text.now }
    ensures fits { IfSome result (λ half. half ≤ 65535) }
{
    match read_number(text, 0, 65_535) {
        Some(number) => Some(number as u32),
        None => None,
    }
}

// Two halves joined by `:`.
fn pair_of(text: &[u8]) -> Option<u32>
    ensures { result ≡ community_of_parts (parts 58 text.now) }
{
    let (first, second) = cut(text, b':')?;
    if let Some((_second, _third)) = cut(second, b':') {
        return None;
    }
    let high = half_of(first)?;
    let low = half_of(second)?;
    Some(high * 65_536 + low)
}

/// The community of a text: two numbers from 0 to 65,535 joined by `:`, of which the first counts 65,536
/// times, or the name of a well-known community, `no-export` or `no-advertise`. Else none.
pub fn read_community(text: &[u8]) -> Option<u32>
    ensures { result ≡ community_of text.now }
{
    if is_word(b"no-export", text) {
        Some(NO_EXPORT)
    } else if is_word(b"no-advertise", text) {
        Some(NO_ADVERTISE)
    } else {
        pair_of(text)
    }
}
