//! The book that is asked of a ladder.

ghost use Rattle.std.specs.Prelude.{◌≡◌, ◌≤◌, All, IfOk, length};
ghost use Rattle.property_book.specs.Book.{IsAsked};
ghost use Rattle.ladder.specs.Book.{far_property, ladder_book, ladder_prefix};

use crate::names::host_name;
use net_types::{List, NoMemory, Prefix, Text};
use property_book::{Kind, Property};
use std::alloc::Global;

// The prefix that the first router originates.
fn ladder_prefix() -> Prefix
    ensures { result ≡ ladder_prefix }
{
    Prefix::masked(0x0a09_0000, 24)
}

// That the farthest router reaches the prefix with so many failed links.
fn far_property(alloc: Global, name: &str, columns: u8, failures: u8) -> Result<Property, NoMemory>
    requires least { 1 ≤ columns }
    requires most { columns ≤ 21 }
    ensures { IfOk result (λ property. property ≡ far_property name.now columns failures) }
{
    let router = host_name(alloc, columns, 2 * columns - 1)?;
    Ok(Property {
        name: Text::from_str(alloc, name)?,
        kind: Kind::Reach,
        router: Text::from_string(router),
        prefix: ladder_prefix(),
        failures,
    })
}

/// The book of a ladder: that its farthest router reaches the prefix that its first one originates, whatever one
/// link has failed, and whatever two.
///
/// # Errors
///
/// [`NoMemory`] where there was none.
pub fn ladder_book(alloc: Global, columns: u8) -> Result<List<Property>, NoMemory>
    requires least { 3 ≤ columns }
    requires most { columns ≤ 21 }
    ensures book { IfOk result (λ book. book ≡ ladder_book columns) }
    ensures asked { IfOk result (λ book. All IsAsked book) }
    ensures few { IfOk result (λ book. length book ≤ 64) }
{
    let mut book = List::new(alloc);
    book.push(far_property(alloc, "far-1", columns, 1)?)?;
    book.push(far_property(alloc, "far-2", columns, 2)?)?;
    Ok(book)
}
