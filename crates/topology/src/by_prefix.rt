//! Values by prefix.

ghost use Rattle.std.specs.Prelude.{◌≡◌, OnOk, Some, if◌then◌else◌};
ghost use Rattle.net_types.specs.PrefixValue.{PrefixValue};
ghost use Rattle.net_types.specs.Prefixes.{same_prefix};
ghost use Rattle.topology.specs.ByPrefix.{value_at};

use net_types::Prefix;
use std::alloc::AllocError;
use std::collections::BTreeMap;

/// At most one value for each prefix, found by its bits and its length.
pub type ByPrefix<T> = BTreeMap<(u32, u8), T>;

/// The value at a prefix, if there is one.
pub fn value_at<T: Copy>(values: &ByPrefix<T>, prefix: &Prefix) -> Option<T>
    ensures { result ≡ value_at values.now prefix.now }
{
    values.get(&(prefix.bits, prefix.len)).copied()
}

/// Puts a value at a prefix, in place of one that is there.
pub fn put_at<T: Copy>(
    values: &mut ByPrefix<T>,
    prefix: &Prefix,
    value: T,
) -> Result<(), AllocError>
    ensures { OnOk result ((q : PrefixValue) → value_at values.new q ≡ (if same_prefix prefix.now q then Some value else value_at values.old q)) }
{
    values.insert((prefix.bits, prefix.len), value)?;
    Ok(())
}
