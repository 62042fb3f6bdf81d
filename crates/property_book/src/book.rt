//! Reads the property file.

ghost use Rattle.std.specs.Prelude.{◌≡◌, ◌≤◌, ◌∷◌, [], length, IfOk, IfSome, All, option_map, option_and_then, codes};
ghost use Rattle.std.specs.List.{list_any};
ghost use Rattle.toml.specs.Data.{as_table};
ghost use Rattle.toml.specs.View.{table_view, items_view, view};
ghost use Rattle.net_types.specs.Order.{same_text};
ghost use Rattle.toml_fields.specs.Fields.{has_only};
ghost use Rattle.toml_fields.specs.Tables.{rows_from, first_repeat};
ghost use Rattle.toml_fields.specs.Document.{Answers, then_form};
ghost use Rattle.property_book.specs.Book.{IsAsked, book_of, book_of_top, is_same_name, keys_of, kind_at, kind_of, property_of, tables_of, with_names};

use crate::property::{Kind, Property};
use net_types::{FormRefusal, List, NoMemory, Prefix, Text};
use std::alloc::Global;
use toml::{Table, Value};
use toml_fields::{document, has_only, host_at, number_at, prefix_at, tables_at, text_at};

/// The most properties that a book may have.
const MOST_PROPERTIES: usize = 64;

// The kind that the word says, a waypoint going through this host.
fn kind_of(alloc: Global, word: &str, via: Option<&str>) -> Result<Option<Kind>, NoMemory>
    ensures { IfOk result (λ kind. kind ≡ kind_of word.now (option_map (λ s. s.now) via.entry)) }
{
    if word == "reach" {
        return Ok(Some(Kind::Reach));
    }
    if word == "isolated" {
        return Ok(Some(Kind::Isolated));
    }
    if word != "waypoint" {
        return Ok(None);
    }
    let Some(host) = via else {
        return Ok(None);
    };
    Ok(Some(Kind::Waypoint(Text::from_str(alloc, host)?)))
}

fn kind_at(alloc: Global, table: &Table) -> Result<Option<Kind>, NoMemory>
    ensures { IfOk result (λ kind. kind ≡ kind_at (table_view table.now)) }
{
    match text_at(table, "kind") {
        Some(word) => kind_of(alloc, word, host_at(table, "via")),
        None => Ok(None),
    }
}

// Whether the table has no other key than a property of this kind.
fn has_only_keys(kind: &Kind, table: &Table) -> bool
    ensures { result ≡ has_only (keys_of kind.now) (table_view table.now) }
{
    match kind {
        Kind::Waypoint(_) => has_only(
            table,
            &["via", "name", "kind", "router", "prefix", "failures"],
        ),
        _ => has_only(table, &["name", "kind", "router", "prefix", "failures"]),
    }
}

// The property of these fields.
fn made(
    alloc: Global,
    name: &str,
    kind: Kind,
    router: &str,
    prefix: Prefix,
    failures: u8,
) -> Result<Property, NoMemory>
    ensures { IfOk result (λ property. property ≡ record { name = name.now; kind = kind; router = router.now; prefix = prefix; failures = failures }) }
{
    Ok(Property {
        name: Text::from_str(alloc, name)?,
        kind,
        router: Text::from_str(alloc, router)?,
        prefix,
        failures,
    })
}

// The property of a table, where each of its fields is there, known and in range.
#[tactic(auto, unfolding(crate::specs::Book::property_of))]
fn property_of(alloc: Global, table: &Table) -> Result<Option<Property>, NoMemory>
    ensures value { IfOk result (λ property. property ≡ property_of (table_view table.now)) }
    ensures asked { IfOk result (λ property. IfSome property IsAsked) }
{
    let Some(name) = host_at(table, "name") else {
        return Ok(None);
    };
    let Some(kind) = kind_at(alloc, table)? else {
        return Ok(None);
    };
    let Some(router) = host_at(table, "router") else {
        return Ok(None);
    };
    let Some(prefix) = prefix_at(table, "prefix") else {
        return Ok(None);
    };
    let Some(failures) = number_at(table, "failures", 0, 3) else {
        return Ok(None);
    };
    let failures = failures as u8;
    if !has_only_keys(&kind, table) {
        return Ok(None);
    }
    Ok(Some(made(alloc, name, kind, router, prefix, failures)?))
}

// The property of a value, where it is a table of one.
fn property_in(alloc: Global, value: &Value) -> Result<Option<Property>, NoMemory>
    ensures value { IfOk result (λ property. property ≡ option_and_then property_of (as_table (view value.now))) }
    ensures asked { IfOk result (λ property. IfSome property IsAsked) }
{
    match value.as_table() {
        Some(table) => property_of(alloc, table),
        None => Ok(None),
    }
}

// The properties of the tables, or the place of the first that has none.
fn properties(alloc: Global, tables: &[Value]) -> Result<List<Property>, FormRefusal>
    ensures value { Answers (rows_from property_of 1 (items_view tables.now)) result }
    ensures asked { IfOk result (λ book. All IsAsked book) }
{
    let mut all = List::new(alloc);
    for (i, value) in tables.iter().enumerate() {
        match property_in(alloc, value)? {
            Some(property) => all.push(property)?,
            None => return Err(FormRefusal::BadField(i as u64 + 1)),
        }
    }
    Ok(all)
}

fn is_named_in(properties: &[Property], name: &Text) -> bool
    ensures { result ≡ list_any (λ property. same_text property.name name.now) properties.now }
{
    properties
        .iter()
        .any(|property| property.name.as_bytes() == name.as_bytes())
}

// The place of the first property that repeats the name of one before it.
fn first_repeat(properties: &[Property]) -> Option<u64>
    ensures { result ≡ first_repeat is_same_name 1 [] properties.now }
{
    for (i, property) in properties.iter().enumerate() {
        if is_named_in(&properties[..i], &property.name) {
            return Some(i as u64 + 1);
        }
    }
    None
}

fn with_names(properties: List<Property>) -> Result<List<Property>, FormRefusal>
    requires { All IsAsked properties }
    ensures value { result ≡ with_names properties }
    ensures asked { IfOk result (λ book. All IsAsked book) }
    ensures few { IfOk result (λ book. length book ≤ 64) }
{
    if let Some(place) = first_repeat(properties.as_slice()) {
        return Err(FormRefusal::SameName(place));
    }
    if properties.len() > MOST_PROPERTIES {
        return Err(FormRefusal::TooMany(properties.len() as u64));
    }
    Ok(properties)
}

// The tables of the array `property`, where the top level has nothing else.
#[tactic(auto, unfolding(crate::specs::Book::tables_of))]
fn tables_of(top: &Table) -> Option<&[Value]>
    ensures { option_map (λ tables. items_view tables.now) result ≡ tables_of (table_view top.now) }
{
    if has_only(top, &["property"]) {
        tables_at(top, "property")
    } else {
        None
    }
}

// The properties of the tables of an array.
fn book_of_tables(alloc: Global, tables: &[Value]) -> Result<List<Property>, FormRefusal>
    ensures value { Answers (then_form (rows_from property_of 1 (items_view tables.now)) with_names) result }
    ensures asked { IfOk result (λ book. All IsAsked book) }
    ensures few { IfOk result (λ book. length book ≤ 64) }
{
    match properties(alloc, tables) {
        Ok(all) => with_names(all),
        Err(refusal) => Err(refusal),
    }
}

// The properties of a document's top level.
fn book_of_top(alloc: Global, top: &Table) -> Result<List<Property>, FormRefusal>
    ensures value { Answers (book_of_top (table_view top.now)) result }
    ensures asked { IfOk result (λ book. All IsAsked book) }
    ensures few { IfOk result (λ book. length book ≤ 64) }
{
    match tables_of(top) {
        Some(tables) => book_of_tables(alloc, tables),
        None => Err(FormRefusal::BadField(0)),
    }
}

/// The properties of a property file. A file without bytes has none.
///
/// # Errors
///
/// The first of these that stands: `TooLong` past 262,144 bytes; `NotToml`; `BadField` with the least place of a bad
/// table, 0 for the top level; `SameName` with the place of the first property whose name stands before; `TooMany`
/// past 64 properties. `NoMemory` may come at any time.
#[tactic(auto, unfolding(crate::specs::Book::book_of))]
pub fn read_properties(alloc: Global, text: &[u8]) -> Result<List<Property>, FormRefusal>
    ensures value { Answers (book_of text.now) result }
    ensures asked { IfOk result (λ book. All IsAsked book) }
    ensures few { IfOk result (λ book. length book ≤ 64) }
{
    match document(alloc, text) {
        Ok(top) => book_of_top(alloc, &top),
        Err(refusal) => Err(refusal),
    }
}
