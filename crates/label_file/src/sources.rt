//! The source of a label.

ghost use Rattle.std.specs.Prelude.{◌≡◌};
ghost use Rattle.toml.specs.View.{table_view};
ghost use Rattle.label_file.specs.Sources.{arc_to, learned_at, source_of, source_at};

use net_types::{Arc, Net, Source};
use toml::Table;
use toml_fields::{number_at, text_at};

// The direction of the link that goes to the router.
fn arc_to(net: &Net, router: u8, link: u8) -> Option<Arc>
    ensures { result ≡ arc_to net.now router link }
{
    let found = net.links().get(usize::from(link))?;
    if found.low.router == router {
        Some(Arc { link, down: true })
    } else if found.high.router == router {
        Some(Arc { link, down: false })
    } else {
        None
    }
}

// Learned over the link of the key `link`, which has an end at the router.
fn learned_at(net: &Net, router: u8, table: &Table) -> Option<Source>
    ensures { result ≡ learned_at net.now router (table_view table.now) }
{
    let link = number_at(table, "link", 0, 255)?;
    match arc_to(net, router, link as u8) {
        Some(arc) => Some(Source::Learned(arc)),
        None => None,
    }
}

fn source_of(net: &Net, router: u8, table: &Table, word: &str) -> Option<Source>
    ensures { result ≡ source_of net.now router (table_view table.now) word.now }
{
    if word == "local" {
        Some(Source::Local)
    } else if word == "learned" {
        learned_at(net, router, table)
    } else {
        None
    }
}

/// The source of the router's label: `local`, or `learned` over the link of the key `link`.
pub(crate) fn source_at(net: &Net, router: u8, table: &Table) -> Option<Source>
    ensures { result ≡ source_at net.now router (table_view table.now) }
{
    match text_at(table, "source") {
        Some(word) => source_of(net, router, table, word),
        None => None,
    }
}
