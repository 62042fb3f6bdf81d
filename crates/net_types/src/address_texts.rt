//! IPv4 addresses and prefixes as texts.

ghost use Rattle.std.specs.Prelude.{◌≡◌, ◌<◌, IfOk, string_bytes};
ghost use Rattle.net_types.specs.AddressTexts.{address_text, byte_at, prefix_text};

use crate::{NoMemory, Prefix};
use std::alloc::Global;

/// The text of an address: its four bytes in decimal, joined by points.
#[tactic(auto, unfolding(crate::specs::AddressTexts::address_text))]
pub fn address_text(alloc: Global, address: u32) -> Result<String, NoMemory>
    ensures { IfOk result (λ text. string_bytes text ≡ address_text address) }
{
    let (a, b) = (byte_at(address, 3), byte_at(address, 2));
    let (c, d) = (byte_at(address, 1), byte_at(address, 0));
    Ok(format!(in alloc; "{a}.{b}.{c}.{d}")?)
}

// The byte at this place, the lowest being at place 0.
fn byte_at(address: u32, place: u8) -> u8
    requires { place < 4 }
    ensures { result ≡ byte_at address place }
{
    (address >> (8 * place) & 255) as u8
}

/// The text of a prefix: its first address, `/`, and its length.
#[tactic(auto, unfolding(crate::specs::AddressTexts::prefix_text))]
pub fn prefix_text(alloc: Global, prefix: &Prefix) -> Result<String, NoMemory>
    ensures { IfOk result (λ text. string_bytes text ≡ prefix_text prefix.now) }
{
    let address = address_text(alloc, prefix.bits)?;
    let len = prefix.len;
    Ok(format!(in alloc; "{address}/{len}")?)
}
