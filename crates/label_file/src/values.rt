//! The values of a label's table, beside its source.

ghost use Rattle.std.specs.Prelude.{◌≡◌, ◌<◌, IfOk, IfSome, option_map};
ghost use Rattle.toml.specs.View.{table_view, array_view, view};
ghost use Rattle.toml_fields.specs.Tables.{each_of};
ghost use Rattle.label_file.specs.Values.{router_at, word_at, hop_of, if_short, path_in, path_at, origin_at, member_of, communities_in, communities_at};

use crate::communities::community_in;
use net_types::{Bits64, List, Net, NoMemory, Origin, read_origin};
use std::alloc::Global;
use toml::value::Array;
use toml::{Table, Value};
use toml_fields::{array_at, number_at, text_at};

/// The most routers that a path may have.
const MOST_HOPS: usize = 1344;

/// The router whose host stands at a key.
pub(crate) fn router_at(net: &Net, table: &Table, key: &str) -> Option<u8>
    ensures { result ≡ router_at net.now key.now (table_view table.now) }
{
    match text_at(table, key) {
        Some(host) => net.router_number(host.as_bytes()),
        None => None,
    }
}

/// A number of 32 bits at a key.
pub(crate) fn word_at(table: &Table, key: &str) -> Option<u32>
    ensures { result ≡ word_at key.now (table_view table.now) }
{
    match number_at(table, key, 0, 4_294_967_295) {
        Some(number) => Some(number as u32),
        None => None,
    }
}

fn hop_of(net: &Net, value: &Value) -> Option<u8>
    ensures { result ≡ hop_of net.now (view value.now) }
{
    match value.as_str() {
        Some(host) => net.router_number(host.as_bytes()),
        None => None,
    }
}

// The routers of the items, where each is a host of the network.
fn hops_of(alloc: Global, net: &Net, items: &Array) -> Result<Option<List<u8>>, NoMemory>
    ensures { IfOk result (λ path. path ≡ each_of (hop_of net.now) (array_view items.now)) }
{
    let mut path = List::new(alloc);
    for value in items.iter() {
        match hop_of(net, value) {
            Some(router) => path.push(router)?,
            None => return Ok(None),
        }
    }
    Ok(Some(path))
}

fn if_short(path: List<u8>) -> Option<List<u8>>
    ensures { result ≡ if_short path }
{
    if path.len() > MOST_HOPS {
        None
    } else {
        Some(path)
    }
}

fn path_in(alloc: Global, net: &Net, items: &Array) -> Result<Option<List<u8>>, NoMemory>
    ensures { IfOk result (λ path. path ≡ path_in net.now (array_view items.now)) }
{
    match hops_of(alloc, net, items)? {
        Some(path) => Ok(if_short(path)),
        None => Ok(None),
    }
}

/// The AS path at a key: hosts of the network, at most 1,344.
pub(crate) fn path_at(
    alloc: Global,
    net: &Net,
    table: &Table,
    key: &str,
) -> Result<Option<List<u8>>, NoMemory>
    ensures { IfOk result (λ path. path ≡ path_at net.now key.now (table_view table.now)) }
{
    match array_at(table, key) {
        Some(items) => path_in(alloc, net, items),
        None => Ok(None),
    }
}

/// The origin at a key: `igp`, `egp` or `incomplete`.
pub(crate) fn origin_at(table: &Table, key: &str) -> Option<Origin>
    ensures { result ≡ origin_at key.now (table_view table.now) }
{
    match text_at(table, key) {
        Some(word) => read_origin(word.as_bytes()),
        None => None,
    }
}

fn member_of(net: &Net, value: &Value) -> Option<u8>
    ensures number { result ≡ member_of net.now (view value.now) }
    ensures fits { IfSome result (λ number. number < 64) }
{
    match value.as_str() {
        Some(text) => community_in(net, text),
        None => None,
    }
}

// The set of the communities of the items, where each is one of the network.
fn communities_in(net: &Net, items: &Array) -> Option<Bits64>
    ensures { result ≡ communities_in net.now (array_view items.now) }
{
    let mut set = Bits64::EMPTY;
    for value in items.iter() {
        match member_of(net, value) {
            Some(number) => set = set.with(number),
            None => return None,
        }
    }
    Some(set)
}

/// The communities at a key, each one of the network.
pub(crate) fn communities_at(net: &Net, table: &Table, key: &str) -> Option<Bits64>
    ensures { result ≡ communities_at net.now key.now (table_view table.now) }
{
    match array_at(table, key) {
        Some(items) => communities_in(net, items),
        None => None,
    }
}
