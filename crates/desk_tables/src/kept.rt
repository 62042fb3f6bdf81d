//! The table of kept rows.

ghost use Rattle.std.specs.Prelude.{◌≡◌, ◌^◌, ◌<◌, ◌≤◌, ◌&&◌, IfOk, OnOk, None, true, false, length, find, is_some, slice_get, vec_len, vec_capacity};
ghost use Rattle.std.specs.List.{All};
ghost use Rattle.std.specs.Option.{option_copied};
ghost use Rattle.std.specs.Str.{bytes_eq};
ghost use Rattle.desk_tables.specs.Order.{Ascends, Splits, before, passing, put, texts_cmp};
ghost use Rattle.desk_tables.specs.Tables.{kept_key};
ghost use Rattle.desk_tables.specs.Kept.{IsOrderOf, at_positions, passes_at};
ghost use Rattle.desk_tables.specs.declared.rows.KeptRow.{KeptRow};

use crate::KeptRow;
use crate::lookups::item;
use crate::places::{is_same, texts_order};
use net_types::{List, NoMemory};
use std::alloc::Global;
use std::marker::Model;

/// The kept rows, in the order of their keys. A row stays where it arrived, and a new one moves positions alone: keys
/// are the users' choice, so a row may come before many others.
#[derive(Debug, Drop)]
pub struct KeptTable {
    // The rows, in the order of their arrival.
    rows: Vec<KeptRow>,
    // Where the rows are, in the order of their keys.
    order: Vec<usize>,
}

impl Model for KeptTable {
    ghost use Rattle.std.specs.Prelude.{◌-◌, min, vec_len, vec_capacity};
    ghost use Rattle.desk_tables.specs.Kept.{KeptValue, IsOrderOf, at_positions};

    ghost Value = { KeptValue };

    ghost view = { λ t. record { items = at_positions t.rows.items t.order.items; room = min (vec_capacity t.rows - vec_len t.rows) (vec_capacity t.order - vec_len t.order) } };

    ghost invariant = { λ t. IsOrderOf t.rows.items t.order.items };
}

impl KeptTable {
    /// The table of rows that are in the order of their keys.
    pub fn of(alloc: Global, rows: List<KeptRow>) -> Result<KeptTable, NoMemory>
        requires { Ascends texts_cmp kept_key rows }
        ensures { IfOk result (λ table. table.items ≡ rows) }
    {
        let order = positions(alloc, rows.as_slice())?;
        Ok(KeptTable {
            rows: rows.into_vec(),
            order,
        })
    }

    /// How many rows there are.
    pub fn len(&self) -> usize
        ensures { result ≡ length self.now.items }
    {
        self.order.len()
    }

    /// The row at a place in the order of the keys, from 0.
    pub fn row(&self, place: usize) -> Option<&KeptRow>
        ensures { option_copied result ≡ slice_get self.now.items place }
    {
        row_at(self.rows.as_slice(), self.order.as_slice(), place)
    }

    /// How many rows come before the user's key.
    pub fn place(&self, user: &[u8], key: &[u8]) -> usize
        ensures split { Splits (before texts_cmp kept_key (user.now, key.now)) self.now.items result }
        ensures small { result < 2 ^ 63 }
    {
        place_in(self.rows.as_slice(), self.order.as_slice(), user, key)
    }

    /// What is kept for the user's key.
    pub fn find(&self, user: &[u8], key: &[u8]) -> Option<&KeptRow>
        ensures { option_copied result ≡ find (λ k. bytes_eq k.user user.now && bytes_eq k.key key.now) self.now.items }
    {
        find_in(self.rows.as_slice(), self.order.as_slice(), user, key)
    }

    /// Makes room for so many more rows, and leaves the rows as they were.
    ///
    /// # Errors
    /// `NoMemory` at any time.
    pub fn reserve(&mut self, rows: usize) -> Result<(), NoMemory>
        ensures same { self.new.items ≡ self.old.items }
        ensures room { OnOk result (rows ≤ self.new.room) }
    {
        self.rows.reserve(rows)?;
        self.order.reserve(rows)?;
        Ok(())
    }

    /// Puts a row in its place, instead of one of the same key, where there is room. It takes no memory.
    pub fn put(&mut self, row: KeptRow)
        requires { 1 ≤ self.old.room }
        ensures { self.new.items ≡ put texts_cmp kept_key row self.old.items }
    {
        put_in(&mut self.rows, &mut self.order, row);
    }
}

// The positions of rows, as they are.
fn positions(alloc: Global, rows: &[KeptRow]) -> Result<Vec<usize>, NoMemory>
    ensures rows { IfOk result (λ order. at_positions rows.now order.items ≡ rows.now) }
    ensures within { IfOk result (λ order. All (λ position. position < length rows.now) order.items) }
{
    let mut order = Vec::new(alloc);
    for i in 0..rows.len() {
        order.push(i)?;
    }
    Ok(order)
}

// The row at a place in the order.
fn row_at<'a>(rows: &'a [KeptRow], order: &[usize], place: usize) -> Option<&'a KeptRow>
    requires { All (λ position. position < length rows.now) order.now }
    ensures { option_copied result ≡ slice_get (at_positions rows.now order.now) place }
{
    if place < order.len() {
        item(rows, order[place])
    } else {
        None
    }
}

// Whether there is a row at the position, and it comes before the user's key.
fn is_before(rows: &[KeptRow], position: usize, user: &[u8], key: &[u8]) -> bool
    ensures { result ≡ passes_at (before texts_cmp kept_key (user.now, key.now)) rows.now position }
{
    match item(rows, position) {
        Some(row) => texts_order(row.user.as_bytes(), row.key.as_bytes(), user, key).is_lt(),
        None => false,
    }
}

// How many rows come before the user's key.
fn place_in(rows: &[KeptRow], order: &[usize], user: &[u8], key: &[u8]) -> usize
    requires { IsOrderOf rows.now order.now }
    ensures split { Splits (before texts_cmp kept_key (user.now, key.now)) (at_positions rows.now order.now) result }
    ensures within { result ≤ length order.now }
{
    order.partition_point(|position| is_before(rows, *position, user, key))
}

// What is kept for the user's key.
fn find_in<'a>(rows: &'a [KeptRow], order: &[usize], user: &[u8], key: &[u8]) -> Option<&'a KeptRow>
    requires { IsOrderOf rows.now order.now }
    ensures { option_copied result ≡ find (λ k. bytes_eq k.user user.now && bytes_eq k.key key.now) (at_positions rows.now order.now) }
{
    kept_if(
        row_at(rows, order, place_in(rows, order, user, key)),
        user,
        key,
    )
}

// The row, if it is kept for the user's key.
fn kept_if<'a>(row: Option<&'a KeptRow>, user: &[u8], key: &[u8]) -> Option<&'a KeptRow>
    ensures { option_copied result ≡ passing (λ k. bytes_eq k.user user.now && bytes_eq k.key key.now) (option_copied row.entry) }
{
    match row {
        Some(row) if is_kept_for(row, user, key) => Some(row),
        _ => None,
    }
}

// Whether the row is kept for the user's key.
fn is_kept_for(row: &KeptRow, user: &[u8], key: &[u8]) -> bool
    ensures { result ≡ (bytes_eq row.now.user user.now && bytes_eq row.now.key key.now) }
{
    is_same(row.user.as_bytes(), user) && is_same(row.key.as_bytes(), key)
}

// Puts a row in its place, instead of one of the same key, where there is room.
fn put_in(rows: &mut Vec<KeptRow>, order: &mut Vec<usize>, row: KeptRow)
    requires room { vec_len rows.old < vec_capacity rows.old }
    requires places { vec_len order.old < vec_capacity order.old }
    requires order { IsOrderOf rows.old.items order.old.items }
    ensures put { at_positions rows.new.items order.new.items ≡ put texts_cmp kept_key row (at_positions rows.old.items order.old.items) }
    ensures order { IsOrderOf rows.new.items order.new.items }
{
    let place = place_in(
        rows.as_slice(),
        order.as_slice(),
        row.user.as_bytes(),
        row.key.as_bytes(),
    );
    if is_at(rows.as_slice(), order.as_slice(), place, &row) {
        put_over(rows, order.as_slice(), place, row);
    } else {
        put_new(rows, order, place, row);
    }
}

// Whether the row at the place has the key of this one.
fn is_at(rows: &[KeptRow], order: &[usize], place: usize, row: &KeptRow) -> bool
    requires { All (λ position. position < length rows.now) order.now }
    ensures { result ≡ is_some (passing (λ (k : KeptRow). bytes_eq k.user row.now.user && bytes_eq k.key row.now.key) (slice_get (at_positions rows.now order.now) place)) }
{
    match row_at(rows, order, place) {
        Some(other) => is_kept_for(other, row.user.as_bytes(), row.key.as_bytes()),
        None => false,
    }
}

// Puts a row over the one at the place, which has its key.
fn put_over(rows: &mut Vec<KeptRow>, order: &[usize], place: usize, row: KeptRow)
    requires order { IsOrderOf rows.old.items order.now }
    requires within { place < length order.now }
    requires here { is_some (passing (λ (k : KeptRow). bytes_eq k.user row.user && bytes_eq k.key row.key) (slice_get (at_positions rows.old.items order.now) place)) ≡ true }
    ensures put { at_positions rows.new.items order.now ≡ put texts_cmp kept_key row (at_positions rows.old.items order.now) }
    ensures order { IsOrderOf rows.new.items order.now }
{
    rows[order[place]] = row;
}

// Puts a row of a new key behind the others, and its position at the place.
fn put_new(rows: &mut Vec<KeptRow>, order: &mut Vec<usize>, place: usize, row: KeptRow)
    requires room { vec_len rows.old < vec_capacity rows.old }
    requires places { vec_len order.old < vec_capacity order.old }
    requires order { IsOrderOf rows.old.items order.old.items }
    requires split { Splits (before texts_cmp kept_key (row.user, row.key)) (at_positions rows.old.items order.old.items) place }
    requires other { is_some (passing (λ (k : KeptRow). bytes_eq k.user row.user && bytes_eq k.key row.key) (slice_get (at_positions rows.old.items order.old.items) place)) ≡ false }
    requires within { place ≤ vec_len order.old }
    ensures put { at_positions rows.new.items order.new.items ≡ put texts_cmp kept_key row (at_positions rows.old.items order.old.items) }
    ensures order { IsOrderOf rows.new.items order.new.items }
{
    let position = rows.len();
    let added = rows.push(row);
    prove!(added.is_ok());
    let placed = order.insert(place, position);
    prove!(placed.is_ok());
}
