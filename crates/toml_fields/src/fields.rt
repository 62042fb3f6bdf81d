//! What stands at a key of a table.

ghost use Rattle.std.specs.Prelude.{◌≡◌, ◌≤◌, map, option_map, IfSome};
ghost use Rattle.toml.specs.Data.{get_member};
ghost use Rattle.toml.specs.View.{table_view, array_view, view};
ghost use Rattle.toml_fields.specs.Fields.{text_at, host_at, prefix_at, integer_at, number_at, array_at, is_one_of, has_only, within};

use net_types::{Prefix, is_host};
use toml::value::Array;
use toml::{Table, Value};

/// The value at a key.
pub fn value_at<'a>(table: &'a Table, key: &str) -> Option<&'a Value>
    ensures { option_map (λ value. view value.now) result ≡ get_member key.now (table_view table.now) }
{
    table.get(key)
}

/// The text at a key.
pub fn text_at<'a>(table: &'a Table, key: &str) -> Option<&'a str>
    ensures { option_map (λ s. s.now) result ≡ text_at key.now (table_view table.now) }
{
    match value_at(table, key) {
        Some(value) => value.as_str(),
        None => None,
    }
}

/// The name of a host at a key.
pub fn host_at<'a>(table: &'a Table, key: &str) -> Option<&'a str>
    ensures { option_map (λ s. s.now) result ≡ host_at key.now (table_view table.now) }
{
    match text_at(table, key) {
        Some(text) if is_host(text.as_bytes()) => Some(text),
        _ => None,
    }
}

/// The prefix at a key.
pub fn prefix_at(table: &Table, key: &str) -> Option<Prefix>
    ensures { result ≡ prefix_at key.now (table_view table.now) }
{
    match text_at(table, key) {
        Some(text) => Prefix::read(text.as_bytes()),
        None => None,
    }
}

// The integer at a key.
fn integer_at(table: &Table, key: &str) -> Option<i64>
    ensures { result ≡ integer_at key.now (table_view table.now) }
{
    match value_at(table, key) {
        Some(value) => value.as_integer(),
        None => None,
    }
}

/// The integer as a number from `low` to `high`, both counted, where it is one.
pub fn within(low: u64, high: u64, integer: i64) -> Option<u64>
    ensures value { result ≡ within low high integer }
    ensures range { IfSome result (λ number. number ≤ high) }
{
    if integer < 0 {
        return None;
    }
    let number = integer as u64;
    if low <= number && number <= high {
        Some(number)
    } else {
        None
    }
}

/// The number at a key, from `low` to `high`, both counted.
pub fn number_at(table: &Table, key: &str, low: u64, high: u64) -> Option<u64>
    ensures value { result ≡ number_at low high key.now (table_view table.now) }
    ensures range { IfSome result (λ number. number ≤ high) }
{
    match integer_at(table, key) {
        Some(integer) => within(low, high, integer),
        None => None,
    }
}

/// The array at a key.
pub fn array_at<'a>(table: &'a Table, key: &str) -> Option<&'a Array>
    ensures { option_map (λ items. array_view items.now) result ≡ array_at key.now (table_view table.now) }
{
    match value_at(table, key) {
        Some(value) => value.as_array(),
        None => None,
    }
}

fn is_one_of(keys: &[&str], key: &str) -> bool
    ensures { result ≡ is_one_of (map (λ known. known.now) keys.now) key.now }
{
    for known in keys.iter() {
        if *known == key {
            return true;
        }
    }
    false
}

/// Whether the table has no other key than these.
pub fn has_only(table: &Table, keys: &[&str]) -> bool
    ensures { result ≡ has_only (map (λ known. known.now) keys.now) (table_view table.now) }
{
    for (key, _) in table.iter() {
        if !is_one_of(keys, key.as_str()) {
            return false;
        }
    }
    true
}
