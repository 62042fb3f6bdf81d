//! Rows as fourteen words each, and what the steps on words make of rows.

ghost use Rattle.std.specs.Prelude.{◌≡◌, ◌<◌, ◌≤◌, ◌+◌, ◌^◌, IfOk, [], length, slice_index};
ghost use Rattle.abstract_route.specs.Rows.{IsBelow, IsRow, row_at};
ghost use Rattle.flow_board.specs.RowLists.{AreBelow};
ghost use Rattle.flow_board.specs.RowWords.{IsClosed, IsJoined, IsMet, IsOpened, IsRaised, IsReady, roof_of, row_from, row_words, words_of};

use crate::view::View;
use crate::words::{Roof, Words};
use abstract_route::{Range, Row};
use atomic_table::Seat;
use net_types::{Bits64, List, NoMemory};
use std::alloc::Global;

// The words of a row: lower ends, upper ends, sets.
fn to_words(row: &Row) -> [u64; 14]
    ensures { result ≡ row_words row.now }
{
    [
        row.weight.low,
        row.preference.low,
        row.length.low,
        row.origin.low,
        row.med.low,
        row.weight.high,
        row.preference.high,
        row.length.high,
        row.origin.high,
        row.med.high,
        row.has.word(),
        row.lacks.word(),
        row.may.word(),
        row.must.word(),
    ]
}

// The range whose lower end is the word at `low`.
fn range_in(words: &[u64], low: usize) -> Range
    requires { low + 6 ≤ length words.now }
    ensures low { result.low ≡ slice_index words.now low }
    ensures high { result.high ≡ slice_index words.now (low + 5) }
    ensures small { (result.low < 2 ^ 64) × (result.high < 2 ^ 64) }
{
    Range {
        low: words[low],
        high: words[low + 5],
    }
}

// The row whose words begin at `base`.
#[tactic(auto, unfolding(crate::specs::RowWords::row_from))]
fn row_in(words: &[u64], base: usize) -> Row
    requires { base + 14 ≤ length words.now }
    ensures row { result ≡ row_from words.now base }
    ensures small { IsRow result }
{
    let weight = range_in(words, base);
    let preference = range_in(words, base + 1);
    let length = range_in(words, base + 2);
    let origin = range_in(words, base + 3);
    let med = range_in(words, base + 4);
    let has = words[base + 10];
    let lacks = words[base + 11];
    let may = words[base + 12];
    let must = words[base + 13];
    Row {
        weight,
        preference,
        length,
        origin,
        med,
        has: Bits64::from_word(has),
        lacks: Bits64::from_word(lacks),
        may: Bits64::from_word(may),
        must: Bits64::from_word(must),
    }
}

// The words of rows, one row after another.
#[tactic(auto, unfolding(crate::specs::RowWords::words_of))]
fn words_in(alloc: Global, rows: &[Row]) -> Result<Vec<u64>, NoMemory>
    ensures { IfOk result (λ words. words.items ≡ words_of rows.now) }
{
    let mut words = Vec::new(alloc);
    for row in rows {
        words.extend_from_slice(&to_words(row))?;
    }
    Ok(words)
}

impl Words {
    /// A board of these rows, and its only seat, under the roof of `K`.
    pub(crate) fn open<K: Roof>(
        alloc: Global,
        rows: &[Row],
    ) -> Result<(Words, Seat<(), View>), NoMemory>
        requires some { 0 < length rows.now }
        requires few { length rows.now ≤ 64 }
        requires under { AreBelow rows.now K.rows }
        ensures mine { IfOk result (λ p. (p.1.table_id ≡ p.0.table.shared.table_id) × (p.1.me.1 ≡ [])) }
        ensures count { IfOk result (λ p. p.0.count ≡ length rows.now) }
        ensures view { IfOk result (λ p. IsOpened (length rows.now) rows.now K.rows p.1.me.0) }
    {
        let words = words_in(alloc, rows)?;
        Words::open_words::<K>(alloc, words, rows.len())
    }

    /// The row of a router: at least the start and the seat's own raises, and at most the roof.
    pub(crate) fn read(&self, seat: &mut Seat<(), View>, router: usize) -> Row
        requires mine { seat.old.table_id ≡ self.now.table.shared.table_id }
        requires within { router < self.now.count }
        requires ready { IsReady self.now.count seat.old.me.0 }
        ensures mine { seat.new.table_id ≡ seat.old.table_id }
        ensures same { seat.new.me ≡ seat.old.me }
        ensures small { IsRow result }
        ensures met { IsMet self.now.count router seat.old.me.0 result }
    {
        let words = self.read_words(seat, 14 * router);
        row_in(&words, 0)
    }

    /// Raises the row of a router, and gives the old row that it met.
    pub(crate) fn raise(&self, seat: &mut Seat<(), View>, router: usize, row: &Row) -> Row
        requires mine { seat.old.table_id ≡ self.now.table.shared.table_id }
        requires within { router < self.now.count }
        requires ready { IsReady self.now.count seat.old.me.0 }
        requires under { IsBelow row.now (row_at (roof_of self.now.count seat.old.me.0) router) }
        ensures mine { seat.new.table_id ≡ seat.old.table_id }
        ensures held { seat.new.me.1 ≡ seat.old.me.1 }
        ensures small { IsRow result }
        ensures met { IsMet self.now.count router seat.old.me.0 result }
        ensures raised { IsRaised self.now.count router row.now seat.old.me.0 seat.new.me.0 }
    {
        let words = self.raise_words(seat, 14 * router, &to_words(row));
        row_in(&words, 0)
    }

    /// Another seat that knows the same.
    pub(crate) fn split(&self, seat: &mut Seat<(), View>) -> Seat<(), View>
        requires mine { seat.old.table_id ≡ self.now.table.shared.table_id }
        requires ready { IsReady self.now.count seat.old.me.0 }
        ensures mine { seat.new.table_id ≡ seat.old.table_id }
        ensures held { seat.new.me.1 ≡ seat.old.me.1 }
        ensures same { seat.new.me.0 ≡ seat.old.me.0 }
        ensures other { (result.table_id ≡ seat.old.table_id) × (result.me.0 ≡ seat.old.me.0) × (result.me.1 ≡ []) }
    {
        self.split_words(seat)
    }

    /// The seat takes in what the other has raised.
    pub(crate) fn join(&self, seat: &mut Seat<(), View>, other: Seat<(), View>)
        requires mine { seat.old.table_id ≡ self.now.table.shared.table_id }
        requires theirs { other.table_id ≡ self.now.table.shared.table_id }
        requires none { other.me.1 ≡ [] }
        requires ready { IsReady self.now.count seat.old.me.0 × IsReady self.now.count other.me.0 }
        ensures mine { seat.new.table_id ≡ seat.old.table_id }
        ensures held { seat.new.me.1 ≡ seat.old.me.1 }
        ensures joined { IsJoined self.now.count seat.old.me.0 other.me.0 seat.new.me.0 }
    {
        self.join_words(seat, other);
    }

    /// The rows at the end.
    pub(crate) fn close(self, alloc: Global, seat: Seat<(), View>) -> Result<List<Row>, NoMemory>
        requires mine { seat.table_id ≡ self.table.shared.table_id }
        requires ready { IsReady self.count seat.me.0 }
        ensures { IfOk result (λ rows. IsClosed self.count seat.me.0 rows) }
    {
        let count = self.count();
        let words = self.close_words(alloc, seat)?;
        let mut rows = List::new(alloc);
        for router in 0..count {
            rows.push(row_in(&words, 14 * router))?;
        }
        Ok(rows)
    }
}
