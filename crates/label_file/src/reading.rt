//! Reads a label file.

ghost use Rattle.std.specs.Prelude.{◌≡◌, ◌<◌, IfOk, length};
ghost use Rattle.toml.specs.View.{table_view, items_view};
ghost use Rattle.toml_fields.specs.Tables.{rows_from};
ghost use Rattle.toml_fields.specs.Document.{Answers, then_form};
ghost use Rattle.label_file.specs.Tables.{label_of};
ghost use Rattle.label_file.specs.File.{held, labelling, with_labels, labels_of_parts, labels_of_top, labels_of};
ghost use Rattle.label_file.specs.Facts.{AreLabels};

use crate::contents::{Label, Labels};
use crate::links::down_at;
use crate::tables::{first_repeat, labels_of};
use net_types::{FailSet, FormRefusal, List, Net, NoMemory, Prefix, Route};
use std::alloc::Global;
use toml::{Table, Value};
use toml_fields::{document, has_only, prefix_at, tables_at};

// What the router holds.
fn held(alloc: Global, labels: &[Label], router: u8) -> Result<Option<Route>, NoMemory>
    ensures { IfOk result (λ route. route ≡ held labels.now router) }
{
    match labels.iter().find(|label| label.router == router) {
        Some(label) => Ok(Some(label.route.copy(alloc)?)),
        None => Ok(None),
    }
}

// What each of so many routers holds.
#[tactic(auto, using(crate::proofs::LabellingLemmas::labelling_more))]
fn labelling(alloc: Global, routers: u8, labels: &[Label]) -> Result<List<Option<Route>>, NoMemory>
    ensures { IfOk result (λ all. all ≡ labelling routers labels.now) }
{
    let mut all = List::new(alloc);
    for router in 0..routers {
        all.push(held(alloc, labels, router)?)?;
    }
    Ok(all)
}

// How many routers the network has.
fn router_count(net: &Net) -> u8
    ensures { result ≡ length net.now.routers }
{
    net.valid();
    net.routers().len() as u8
}

// The labels, where no two are of one router.
fn with_labels(
    alloc: Global,
    net: &Net,
    prefix: Prefix,
    failed: FailSet,
    labels: &[Label],
) -> Result<Labels, FormRefusal>
    ensures { Answers (with_labels net.now prefix failed labels.now) result }
{
    if let Some(place) = first_repeat(labels) {
        return Err(FormRefusal::SameName(place));
    }
    let labels = labelling(alloc, router_count(net), labels)?;
    Ok(Labels {
        prefix,
        failed,
        labels,
    })
}

// The labels of the tables.
fn labels_of_tables(
    alloc: Global,
    net: &Net,
    prefix: Prefix,
    failed: FailSet,
    tables: &[Value],
) -> Result<Labels, FormRefusal>
    ensures { Answers (then_form (rows_from (label_of net.now) 1 (items_view tables.now)) (with_labels net.now prefix failed)) result }
{
    match labels_of(alloc, net, tables) {
        Ok(labels) => with_labels(alloc, net, prefix, failed, labels.as_slice()),
        Err(refusal) => Err(refusal),
    }
}

// The labels of a document's top level.
#[tactic(auto, unfolding(crate::specs::File::labels_of_top))]
fn labels_of_top(alloc: Global, net: &Net, top: &Table) -> Result<Labels, FormRefusal>
    ensures { Answers (labels_of_top net.now (table_view top.now)) result }
{
    if !has_only(top, &["prefix", "down", "label"]) {
        return Err(FormRefusal::BadField(0));
    }
    let Some(prefix) = prefix_at(top, "prefix") else {
        return Err(FormRefusal::BadField(0));
    };
    let Some(failed) = down_at(alloc, net, top)? else {
        return Err(FormRefusal::BadField(0));
    };
    let Some(tables) = tables_at(top, "label") else {
        return Err(FormRefusal::BadField(0));
    };
    labels_of_tables(alloc, net, prefix, failed, tables)
}

#[tactic(auto, unfolding(crate::specs::File::labels_of))]
fn labels_of_text(alloc: Global, net: &Net, text: &[u8]) -> Result<Labels, FormRefusal>
    ensures { Answers (labels_of net.now text.now) result }
{
    match document(alloc, text) {
        Ok(top) => labels_of_top(alloc, net, &top),
        Err(refusal) => Err(refusal),
    }
}

/// The labels of a file for this network, or the first refusal: `TooLong`; `NotToml`; `BadField` with the
/// least place; `SameName` with the place of the later label of a router that has two.
#[tactic(auto, unfolding(crate::specs::File::labels_of))]
pub fn read_labels(alloc: Global, net: &Net, text: &[u8]) -> Result<Labels, FormRefusal>
    ensures exact { Answers (labels_of net.now text.now) result }
    ensures kept { IfOk result (λ labels. AreLabels net.now labels) }
{
    net.valid();
    labels_of_text(alloc, net, text)
}
