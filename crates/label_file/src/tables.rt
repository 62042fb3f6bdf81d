//! The label of a table, and the labels of all.

ghost use Rattle.std.specs.Prelude.{◌≡◌, ◌==◌, [], IfOk, option_and_then};
ghost use Rattle.std.specs.List.{list_any};
ghost use Rattle.toml.specs.Data.{as_table};
ghost use Rattle.toml.specs.View.{table_view, items_view, view};
ghost use Rattle.toml_fields.specs.Fields.{has_only};
ghost use Rattle.toml_fields.specs.Tables.{rows_from, first_repeat};
ghost use Rattle.toml_fields.specs.Document.{Answers};
ghost use Rattle.label_file.specs.Tables.{keys_of, route_at, if_known, label_of_fields, label_of, is_same_router};

use crate::contents::Label;
use crate::sources::source_at;
use crate::values::{communities_at, origin_at, path_at, router_at, word_at};
use net_types::{FormRefusal, List, Net, NoMemory, Route, Source};
use std::alloc::Global;
use toml::{Table, Value};
use toml_fields::has_only;

// Whether the table has no other key than a label of this source.
fn has_only_keys(source: &Source, table: &Table) -> bool
    ensures { result ≡ has_only (keys_of source.now) (table_view table.now) }
{
    match source {
        Source::Local => has_only(
            table,
            &[
                "router",
                "source",
                "weight",
                "preference",
                "path",
                "origin",
                "med",
                "communities",
            ],
        ),
        Source::Learned(_) => has_only(
            table,
            &[
                "link",
                "router",
                "source",
                "weight",
                "preference",
                "path",
                "origin",
                "med",
                "communities",
            ],
        ),
    }
}

// The route of the fields, where each is there, of the right kind and in range.
#[tactic(auto, unfolding(crate::specs::Tables::route_at))]
fn route_at(alloc: Global, net: &Net, router: u8, table: &Table) -> Result<Option<Route>, NoMemory>
    ensures { IfOk result (λ route. route ≡ route_at net.now router (table_view table.now)) }
{
    let Some(source) = source_at(net, router, table) else {
        return Ok(None);
    };
    let Some(weight) = word_at(table, "weight") else {
        return Ok(None);
    };
    let Some(preference) = word_at(table, "preference") else {
        return Ok(None);
    };
    let Some(path) = path_at(alloc, net, table, "path")? else {
        return Ok(None);
    };
    let Some(origin) = origin_at(table, "origin") else {
        return Ok(None);
    };
    let Some(med) = word_at(table, "med") else {
        return Ok(None);
    };
    let Some(communities) = communities_at(net, table, "communities") else {
        return Ok(None);
    };
    Ok(Some(Route {
        weight,
        preference,
        path,
        origin,
        med,
        communities,
        source,
    }))
}

// The label, where the table has no other field.
fn if_known(router: u8, table: &Table, route: Route) -> Option<Label>
    ensures { result ≡ if_known router (table_view table.now) route }
{
    if has_only_keys(&route.source, table) {
        Some(Label { router, route })
    } else {
        None
    }
}

fn label_of_fields(
    alloc: Global,
    net: &Net,
    table: &Table,
    router: u8,
) -> Result<Option<Label>, NoMemory>
    ensures { IfOk result (λ label. label ≡ label_of_fields net.now (table_view table.now) router) }
{
    match route_at(alloc, net, router, table)? {
        Some(route) => Ok(if_known(router, table, route)),
        None => Ok(None),
    }
}

// The label of a table.
#[tactic(auto, unfolding(crate::specs::Tables::label_of))]
fn label_of(alloc: Global, net: &Net, table: &Table) -> Result<Option<Label>, NoMemory>
    ensures { IfOk result (λ label. label ≡ label_of net.now (table_view table.now)) }
{
    match router_at(net, table, "router") {
        Some(router) => label_of_fields(alloc, net, table, router),
        None => Ok(None),
    }
}

// The label of a value, where it is a table of one.
fn label_in(alloc: Global, net: &Net, value: &Value) -> Result<Option<Label>, NoMemory>
    ensures { IfOk result (λ label. label ≡ option_and_then (label_of net.now) (as_table (view value.now))) }
{
    match value.as_table() {
        Some(table) => label_of(alloc, net, table),
        None => Ok(None),
    }
}

/// The labels of the tables, or the place of the first that has none.
pub(crate) fn labels_of(
    alloc: Global,
    net: &Net,
    tables: &[Value],
) -> Result<List<Label>, FormRefusal>
    ensures { Answers (rows_from (label_of net.now) 1 (items_view tables.now)) result }
{
    let mut all = List::new(alloc);
    for (i, value) in tables.iter().enumerate() {
        match label_in(alloc, net, value)? {
            Some(label) => all.push(label)?,
            None => return Err(FormRefusal::BadField(i as u64 + 1)),
        }
    }
    Ok(all)
}

fn has_router(labels: &[Label], router: u8) -> bool
    ensures { result ≡ list_any (λ earlier. earlier.router == router) labels.now }
{
    labels.iter().any(|earlier| earlier.router == router)
}

/// The place of the first label of a router that has one before.
pub(crate) fn first_repeat(labels: &[Label]) -> Option<u64>
    ensures { result ≡ first_repeat is_same_router 1 [] labels.now }
{
    for (i, label) in labels.iter().enumerate() {
        if has_router(&labels[..i], label.router) {
            return Some(i as u64 + 1);
        }
    }
    None
}
