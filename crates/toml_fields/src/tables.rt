//! The tables of an array of tables.

ghost use Rattle.std.specs.Prelude.{◌≡◌, Some, option_map};
ghost use Rattle.toml.specs.View.{table_view, items_view, view};
ghost use Rattle.toml_fields.specs.Tables.{are_tables, if_tables, tables_in, tables_at};

use crate::fields::value_at;
use toml::{Table, Value};

fn are_tables(items: &[Value]) -> bool
    ensures { result ≡ are_tables (items_view items.now) }
{
    for value in items.iter() {
        if value.as_table().is_none() {
            return false;
        }
    }
    true
}

fn if_tables(items: &[Value]) -> Option<&[Value]>
    ensures { option_map (λ tables. items_view tables.now) result ≡ if_tables (items_view items.now) }
{
    if are_tables(items) { Some(items) } else { None }
}

fn tables_in(value: &Value) -> Option<&[Value]>
    ensures { option_map (λ tables. items_view tables.now) result ≡ tables_in (Some (view value.now)) }
{
    match value.as_array() {
        Some(items) => if_tables(items.as_slice()),
        None => None,
    }
}

/// The tables of the array at a key: none of them where there is no such key, and no answer where the
/// value there is no array or holds anything but tables.
pub fn tables_at<'a>(table: &'a Table, key: &str) -> Option<&'a [Value]>
    ensures { option_map (λ tables. items_view tables.now) result ≡ tables_at key.now (table_view table.now) }
{
    match value_at(table, key) {
        Some(value) => tables_in(value),
        None => Some(&[]),
    }
}
