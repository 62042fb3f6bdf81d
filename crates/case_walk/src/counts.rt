//! How many cases a book has.

ghost use Rattle.std.specs.Prelude.{◌≡◌, ◌≤◌, ◌<◌, ◌^◌, ◌*◌, All, if◌then◌else◌, length};
ghost use Rattle.failure_sets.specs.SetList.{failure_sets};
ghost use Rattle.case_walk.specs.Book.{applies, asked_prefixes, is_lead, is_of, most_of, stands, total_of};

use failure_sets::count;
use net_types::{Net, Prefix};
use property_book::{Property, applicable};

fn applies(net: &Net, property: &Property) -> bool
    ensures { result ≡ applies net.now property.now }
{
    applicable(net, property).is_none()
}

/// Whether the property applies and is of the prefix.
pub(crate) fn is_of(net: &Net, prefix: &Prefix, property: &Property) -> bool
    ensures { result ≡ is_of net.now prefix.now property.now }
{
    applies(net, property) && prefix.is_same(&property.prefix)
}

// How many failures the property permits, if it is of the prefix.
fn failures_for(net: &Net, prefix: &Prefix, property: &Property) -> u8
    ensures { result ≡ (if is_of net.now prefix.now property.now then property.now.failures else 0) }
{
    if is_of(net, prefix, property) {
        property.failures
    } else {
        0
    }
}

/// The greatest number of failures of a property of the prefix.
pub(crate) fn most_of(net: &Net, prefix: &Prefix, book: &[Property]) -> u8
    ensures { result ≡ most_of net.now prefix.now book.now }
{
    let mut most = 0;
    for property in book {
        most = most.max(failures_for(net, prefix, property));
    }
    most
}

// Whether a property of the prefix stands among these.
fn is_asked_of(net: &Net, prefix: &Prefix, book: &[Property]) -> bool
    ensures { result ≡ stands (asked_prefixes net.now book.now) prefix.now }
{
    for property in book {
        if applies(net, property) && prefix.is_same(&property.prefix) {
            return true;
        }
    }
    false
}

/// Whether the cases of the property's prefix are solved with it: no later property is of the prefix.
pub(crate) fn is_lead(net: &Net, property: &Property, later: &[Property]) -> bool
    ensures { result ≡ is_lead net.now property.now later.now }
{
    applies(net, property) && !is_asked_of(net, &property.prefix, later)
}

/// How many links the network has.
pub(crate) fn link_count(net: &Net) -> u8
    ensures number { result ≡ length net.now.links }
    ensures few { result ≤ 64 }
{
    net.valid();
    net.links().len() as u8
}

// The cases that are solved with the property.
fn cases_at(net: &Net, book: &[Property], property: &Property, later: &[Property]) -> u64
    requires few { All (λ property. property.failures ≤ 3) book.now }
    ensures number { result ≡ (if is_lead net.now property.now later.now then length (failure_sets (length net.now.links) (most_of net.now property.now.prefix book.now)) else 0) }
    ensures small { result < 2 ^ 32 }
{
    if is_lead(net, property, later) {
        count(link_count(net), most_of(net, &property.prefix, book))
    } else {
        0
    }
}

/// How many cases a book has in a network: for each prefix that a property which applies asks of, the sets of at most as
/// many links as the most permitting of its properties says. Each is a prefix with a set of failed links.
#[tactic(auto, unfolding(crate::specs::Book::total_of))]
pub fn cases(net: &Net, book: &[Property]) -> u64
    requires few { All (λ property. property.failures ≤ 3) book.now }
    requires short { length book.now ≤ 64 }
    ensures { result ≡ total_of net.now book.now }
{
    let mut total = 0;
    for (i, property) in book.iter().enumerate() {
        total += cases_at(net, book, property, &book[i + 1..]);
    }
    total
}
