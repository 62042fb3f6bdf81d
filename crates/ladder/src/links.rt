//! The links of a ladder.

ghost use Rattle.std.specs.Prelude.{◌≡◌, ◌<◌, ◌≤◌, ◌+◌, ◌*◌, ◌++◌, IfOk, OnOk};
ghost use Rattle.ladder.specs.Links.{ladder_links, links_before, inner_links};

use net_types::{List, NoMemory};
use std::alloc::Global;

/// A link of a ladder.
#[derive(Clone, Copy, Debug)]
pub(crate) struct LadderLink {
    /// Its number.
    pub(crate) number: u8,
    /// The number of the lower one of its routers.
    pub(crate) low: u8,
    /// The number of the other one.
    pub(crate) high: u8,
    /// Whether the two speak BGP over it.
    pub(crate) session: bool,
}

// Adds the links of a column with one behind it.
fn push_inner(links: &mut List<LadderLink>, columns: u8, column: u8) -> Result<(), NoMemory>
    requires columns { columns ≤ 21 }
    requires column { column < columns }
    ensures { OnOk result (links.new ≡ links.old ++ inner_links columns column) }
{
    let first = 3 * column;
    links.push(LadderLink {
        number: first,
        low: column,
        high: column + 1,
        session: true,
    })?;
    links.push(LadderLink {
        number: first + 1,
        low: column,
        high: columns + column,
        session: column % 2 == 0,
    })?;
    links.push(LadderLink {
        number: first + 2,
        low: columns + column,
        high: columns + column + 1,
        session: true,
    })?;
    Ok(())
}

/// The links of a ladder, in the order of their numbers.
#[tactic(auto, using(crate::proofs::LinkLemmas::one_column_more))]
pub(crate) fn ladder_links(alloc: Global, columns: u8) -> Result<List<LadderLink>, NoMemory>
    requires least { 1 ≤ columns }
    requires most { columns ≤ 21 }
    ensures { IfOk result (λ links. links ≡ ladder_links columns) }
{
    let last = columns - 1;
    let mut links = List::new(alloc);
    for column in 0..last {
        push_inner(&mut links, columns, column)?;
    }
    links.push(LadderLink {
        number: 3 * last,
        low: last,
        high: columns + last,
        session: last % 2 == 0,
    })?;
    Ok(links)
}
