//! The failed links of a label file.

ghost use Rattle.std.specs.Prelude.{◌≡◌, IfOk, Some};
ghost use Rattle.toml.specs.Data.{get_member};
ghost use Rattle.toml.specs.View.{table_view, array_view, view};
ghost use Rattle.toml_fields.specs.Tables.{each_of};
ghost use Rattle.label_file.specs.File.{is_below_first, ascends, if_failure_set, if_link, link_in, down_of, down_in, down_at};

use net_types::{FailSet, List, Net, NoMemory};
use std::alloc::Global;
use toml::value::Array;
use toml::{Table, Value};
use toml_fields::{value_at, within};

fn if_link(net: &Net, number: u8) -> Option<u8>
    ensures { result ≡ if_link net.now number }
{
    if usize::from(number) < net.links().len() {
        Some(number)
    } else {
        None
    }
}

// The link of the network that a value numbers.
fn link_in(net: &Net, value: &Value) -> Option<u8>
    ensures { result ≡ link_in net.now (view value.now) }
{
    let integer = value.as_integer()?;
    let number = within(0, 255, integer)?;
    if_link(net, number as u8)
}

// The links of the items, where each is one of the network.
fn links_of(alloc: Global, net: &Net, items: &Array) -> Result<Option<List<u8>>, NoMemory>
    ensures { IfOk result (λ links. links ≡ each_of (link_in net.now) (array_view items.now)) }
{
    let mut links = List::new(alloc);
    for value in items.iter() {
        match link_in(net, value) {
            Some(link) => links.push(link)?,
            None => return Ok(None),
        }
    }
    Ok(Some(links))
}

fn is_below_first(number: u8, links: &[u8]) -> bool
    ensures { result ≡ is_below_first number links.now }
{
    match links.first() {
        Some(next) => number < *next,
        None => true,
    }
}

fn ascends(links: &[u8]) -> bool
    ensures { result ≡ ascends links.now }
{
    match links.split_first() {
        Some((number, more)) => is_below_first(*number, more) && ascends(more),
        None => true,
    }
}

#[tactic(auto, using(crate::proofs::LinkLemmas::failure_set))]
fn if_failure_set(links: &[u8]) -> Option<FailSet>
    ensures { result ≡ if_failure_set links.now }
{
    if links.len() <= 3 && ascends(links) {
        FailSet::of(links)
    } else {
        None
    }
}

fn down_of(alloc: Global, net: &Net, items: &Array) -> Result<Option<FailSet>, NoMemory>
    ensures { IfOk result (λ failed. failed ≡ down_of net.now (array_view items.now)) }
{
    match links_of(alloc, net, items)? {
        Some(links) => Ok(if_failure_set(links.as_slice())),
        None => Ok(None),
    }
}

fn down_in(alloc: Global, net: &Net, value: &Value) -> Result<Option<FailSet>, NoMemory>
    ensures { IfOk result (λ failed. failed ≡ down_in net.now (Some (view value.now))) }
{
    match value.as_array() {
        Some(items) => down_of(alloc, net, items),
        None => Ok(None),
    }
}

/// The failed links that the key `down` names: none of them where there is no such key.
pub(crate) fn down_at(alloc: Global, net: &Net, top: &Table) -> Result<Option<FailSet>, NoMemory>
    ensures { IfOk result (λ failed. failed ≡ down_at net.now (table_view top.now)) }
{
    match value_at(top, "down") {
        Some(value) => down_in(alloc, net, value),
        None => Ok(Some(FailSet::empty())),
    }
}
