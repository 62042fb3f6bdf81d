//! What a worker keeps beside its seat, so that it asks and raises no more than it must.

ghost use Rattle.std.specs.Prelude.{◌≡◌, ◌<◌, ◌^◌, bit_or, false, length, slice_set, true};
ghost use Rattle.abstract_route.specs.Rows.{IsBelow, row_at};
ghost use Rattle.possible_fixpoint.specs.Marks.{IsNoted, has_arc, number, with_arc};
ghost use Rattle.possible_fixpoint.specs.Notebook.{HasSameMarks, IsBlank, with_row};

use crate::marks::ArcSet;
use abstract_route::{BOTTOM, Row, is_below, join};
use net_types::{Arc, Bits64};

/// A worker's notes of one phase.
#[derive(Drop)]
pub(crate) struct Notes {
    /// What the worker has raised, router by router, with what it has gathered for the router at hand.
    pub rows: [Row; 64],
    /// For each arc that it has asked, the row at which it asked last.
    pub asked_at: [Row; 128],
    /// The arcs that it has asked.
    pub asked: ArcSet,
    /// The arcs that were seen giving something.
    pub gave: ArcSet,
    /// The routers whose local row is gathered.
    pub begun: Bits64,
}

// Nothing raised, and no arc asked: copied whole, which is far faster than to write each row.
const BLANK: Notes = Notes {
    rows: [BOTTOM; 64],
    asked_at: [BOTTOM; 128],
    asked: ArcSet::EMPTY,
    gave: ArcSet::EMPTY,
    begun: Bits64::EMPTY,
};

// The place of an arc in the order of links, up before down.
fn place_of(arc: Arc) -> usize
    ensures { result ≡ number arc }
{
    if arc.down {
        2 * usize::from(arc.link) + 1
    } else {
        2 * usize::from(arc.link)
    }
}

impl Notes {
    /// Nothing raised, and no arc asked.
    pub(crate) fn new() -> Notes
        ensures { IsBlank result }
    {
        BLANK
    }

    /// The row of a router.
    pub(crate) fn row(&self, router: u8) -> Row
        requires { router < length self.now.rows }
        ensures { result ≡ row_at self.now.rows router }
    {
        self.rows[usize::from(router)]
    }

    /// Joins a row into that of a router, and says whether that changed it.
    pub(crate) fn add_row(&mut self, router: u8, row: &Row) -> bool
        requires { router < length self.old.rows }
        ensures rows { self.new.rows ≡ with_row result self.old.rows router row.now }
        ensures below { result ≡ false → IsBelow row.now (row_at self.old.rows router) }
        ensures same { HasSameMarks self.old self.new }
    {
        let old = self.rows[usize::from(router)];
        if is_below(row, &old) {
            return false;
        }
        self.rows[usize::from(router)] = join(&old, row);
        true
    }

    /// Notes that the local row of a router is gathered.
    pub(crate) fn set_begun(&mut self, router: u8)
        requires { router < 64 }
        ensures begun { self.new.begun ≡ bit_or self.old.begun (2 ^ router) }
        ensures rows { self.new.rows ≡ self.old.rows }
        ensures asked { self.new.asked ≡ self.old.asked }
        ensures at { self.new.asked_at ≡ self.old.asked_at }
        ensures gave { self.new.gave ≡ self.old.gave }
    {
        self.begun = self.begun.with(router);
    }

    /// Whether the arc was asked at a row at or above this one.
    pub(crate) fn was_asked(&self, arc: Arc, row: &Row) -> bool
        requires arc { arc.link < 64 }
        requires long { length self.now.asked_at ≡ 128 }
        ensures asked { result ≡ true → has_arc self.now.asked arc ≡ true }
        ensures below { result ≡ true → IsBelow row.now (row_at self.now.asked_at (number arc)) }
    {
        self.asked.has(arc) && is_below(row, &self.asked_at[place_of(arc)])
    }

    /// Notes that the arc was asked at a row, and whether it gave something.
    pub(crate) fn set_asked(&mut self, arc: Arc, row: &Row, given: &Row)
        requires arc { arc.link < 64 }
        requires long { length self.old.asked_at ≡ 128 }
        ensures asked { self.new.asked ≡ with_arc self.old.asked arc }
        ensures at { self.new.asked_at ≡ slice_set self.old.asked_at (number arc) row.now }
        ensures gave { IsNoted arc given.now self.old.gave self.new.gave }
        ensures rows { self.new.rows ≡ self.old.rows }
        ensures begun { self.new.begun ≡ self.old.begun }
    {
        self.asked = self.asked.with(arc);
        self.asked_at[place_of(arc)] = *row;
        self.gave = self.gave.noting(arc, given);
    }

    /// Notes whether an arc gave something.
    pub(crate) fn set_gave(&mut self, arc: Arc, given: &Row)
        requires { arc.link < 64 }
        ensures gave { IsNoted arc given.now self.old.gave self.new.gave }
        ensures rows { self.new.rows ≡ self.old.rows }
        ensures asked { self.new.asked ≡ self.old.asked }
        ensures at { self.new.asked_at ≡ self.old.asked_at }
        ensures begun { self.new.begun ≡ self.old.begun }
    {
        self.gave = self.gave.noting(arc, given);
    }
}
