//! The table of words, its rule, and the steps on it: each word only rises, in an order of its own.

ghost use Rattle.std.specs.Prelude.{◌≡◌, ◌<◌, ◌≤◌, ◌+◌, ◌*◌, ◌^◌, ℕ, List, [], ◌∷◌, length, slice_index, slice_set, IfOk, vec_len};
ghost use Rattle.flow_board.specs.Order.{kind_of, Below, merged, AllBelow, blank, low, high, gain, lose};
ghost use Rattle.flow_board.specs.Rising.{kind_is};
ghost use Rattle.flow_board.specs.WordSteps.{FitsRow, ToldRow, LooksRow, LookedRow};
ghost use Rattle.flow_board.specs.RowWords.{words_of};
ghost use Rattle.abstract_route.specs.declared.rows.Row.{Row as RowValue};
ghost use Rattle.flow_board.specs.Rule.{Kept, Raises, Told, Fits, Looks, Looked, IsLive, Settled, Closes, IsSplitable, AreJoinable, both_of};
ghost use Rattle.flow_board.specs.declared.view.View.TheVariants.{Alone, Live, Spent};

use crate::view::View;
use atomic_table::{Join, Play, Seat, Split, Table, TableRule};
use net_types::NoMemory;
use std::alloc::Global;
use std::marker::{Brand, PhantomData};

/// Rows that a board stays below. They stand in proofs alone: a caller of `Board::open` passes std's `Brand`, and its proof
/// says which rows these are.
pub trait Roof {
    ghost rows: { List RowValue };
}

impl Roof for Brand {
    ghost rows = { [] };
}

/// What holds between any two steps.
pub struct Rising;

impl TableRule<(), View, Vec<u64>> for Rising {
    ghost holds = { λ _ s. Kept s };

    ghost first = { λ key. Alone key.items };
}

/// A step that raises a word.
pub struct Raise;

impl Play<(), View> for Raise {
    ghost then = { Raises };
}

/// A step that reads a word.
pub struct Look;

impl Play<(), View> for Look {
    ghost then = { Looks };
}

/// A step by which the board's only seat names the roof: the first view of a table cannot, since `Board` has no type
/// parameter for it.
pub struct Settle<K> {
    roof: PhantomData<K>,
}

impl<K: Roof> Play<(), View> for Settle<K> {
    ghost then = { λ _ me _ after. Settled me.0 (words_of K.rows) after.0 × (after.1 ≡ me.1) };
}

/// Two seats that know the same.
pub struct Same;

impl Split<View> for Same {
    ghost left = { λ v. v };

    ghost right = { λ v. v };
}

/// One seat with the raises of both; the other knows nothing from then on.
pub struct Both;

impl Join<View> for Both {
    ghost both = { both_of };

    ghost spent = { Spent };
}

/// How a word rises.
enum Rise {
    Low,
    High,
    Gain,
    Lose,
}

// The kind of the word, by its place in its row.
fn kind(word: usize) -> Rise
    ensures { kind_of word ≡ kind_is result }
{
    let place = word % 14;
    if place < 5 {
        Rise::Low
    } else if place < 10 {
        Rise::High
    } else if place < 13 {
        Rise::Gain
    } else {
        Rise::Lose
    }
}

/// The words of `count` rows, fourteen a row.
#[derive(Drop)]
pub(crate) struct Words {
    table: Table<(), View, Vec<u64>, Rising, Global>,
    count: usize,
    ghost no_slots: { table.shared.table_id.slots ≡ 0 },
    ghost whole: { table.shared.table_id.words ≡ 14 * count },
    ghost some: { 0 < count },
    ghost few: { count ≤ 64 },
}

impl Words {
    /// The number of rows.
    pub(crate) fn count(&self) -> usize
        ensures { result ≡ self.now.count }
    {
        self.count
    }

    /// A board of these words, and its only seat, under the roof of `K`.
    pub(crate) fn open_words<K: Roof>(
        alloc: Global,
        start: Vec<u64>,
        count: usize,
    ) -> Result<(Words, Seat<(), View>), NoMemory>
        requires some { 0 < count }
        requires few { count ≤ 64 }
        requires whole { vec_len start ≡ 14 * count }
        requires long { length (words_of K.rows) ≡ vec_len start }
        requires under { AllBelow start.items (words_of K.rows) }
        ensures mine { IfOk result (λ p. (p.1.table_id ≡ p.0.table.shared.table_id) × (p.1.me.1 ≡ [])) }
        ensures count { IfOk result (λ p. p.0.count ≡ count) }
        ensures view { IfOk result (λ p. p.1.me.0 ≡ Live start.items (words_of K.rows) (blank start.items)) }
    {
        let (table, mut seat) = Table::of_words(alloc, start.as_slice(), &start)?;
        let words = Words { table, count };
        words.settle::<K>(&mut seat, &start);
        Ok((words, seat))
    }

    /// Names the roof.
    fn settle<K: Roof>(&self, seat: &mut Seat<(), View>, start: &Vec<u64>)
        requires mine { seat.old.table_id ≡ self.now.table.shared.table_id }
        requires some { 0 < self.now.table.shared.table_id.words }
        requires alone { seat.old.me.0 ≡ Alone start.now.items }
        requires long { length (words_of K.rows) ≡ vec_len start.now }
        requires under { AllBelow start.now.items (words_of K.rows) }
        ensures mine { seat.new.table_id ≡ seat.old.table_id }
        ensures held { seat.new.me.1 ≡ seat.old.me.1 }
        ensures view { seat.new.me.0 ≡ Live start.now.items (words_of K.rows) (blank start.now.items) }
    {
        let _items = start.as_slice();
        self.table.shared.load::<Settle<K>>(seat, 0);
    }

    /// Another seat that knows the same.
    pub(crate) fn split_words(&self, seat: &mut Seat<(), View>) -> Seat<(), View>
        requires mine { seat.old.table_id ≡ self.now.table.shared.table_id }
        requires live { IsSplitable seat.old.me.0 }
        ensures mine { seat.new.table_id ≡ seat.old.table_id }
        ensures held { seat.new.me.1 ≡ seat.old.me.1 }
        ensures same { seat.new.me.0 ≡ seat.old.me.0 }
        ensures other { (result.table_id ≡ seat.old.table_id) × (result.me.0 ≡ seat.old.me.0) × (result.me.1 ≡ []) }
    {
        self.table.shared.split_seat::<Same>(seat)
    }

    /// The seat takes in what the other has raised.
    pub(crate) fn join_words(&self, seat: &mut Seat<(), View>, other: Seat<(), View>)
        requires mine { seat.old.table_id ≡ self.now.table.shared.table_id }
        requires theirs { other.table_id ≡ self.now.table.shared.table_id }
        requires none { other.me.1 ≡ [] }
        requires live { AreJoinable seat.old.me.0 other.me.0 }
        ensures mine { seat.new.table_id ≡ seat.old.table_id }
        ensures held { seat.new.me.1 ≡ seat.old.me.1 }
        ensures both { seat.new.me.0 ≡ both_of seat.old.me.0 other.me.0 }
    {
        self.table.shared.join_seat::<Both>(seat, other);
    }

    /// The words at the end.
    pub(crate) fn close_words(
        self,
        alloc: Global,
        seat: Seat<(), View>,
    ) -> Result<Vec<u64>, NoMemory>
        requires mine { seat.table_id ≡ self.table.shared.table_id }
        ensures long { IfOk result (λ v. vec_len v ≡ 14 * self.count) }
        ensures closed { IfOk result (λ v. Closes seat.me.0 v.items) }
    {
        let Words { table, count: _ } = self;
        let count = table.word_count();
        let closed = table.close_with(seat);
        let mut words = Vec::new(alloc);
        for i in 0..count {
            if words.push(closed.word(i)).is_err() {
                closed.free();
                return Err(NoMemory);
            }
        }
        closed.free();
        Ok(words)
    }

    /// Lowers a lower end.
    fn lower(&self, seat: &mut Seat<(), View>, word: usize, value: u64) -> u64
        requires mine { seat.old.table_id ≡ self.now.table.shared.table_id }
        requires within { word < self.now.table.shared.table_id.words }
        requires kind { kind_of word ≡ low }
        requires fits { Fits word value seat.old.me.0 }
        ensures mine { seat.new.table_id ≡ seat.old.table_id }
        ensures held { seat.new.me.1 ≡ seat.old.me.1 }
        ensures told { Told word value seat.old.me.0 result seat.new.me.0 }
    {
        self.table.shared.fetch_min::<Raise>(seat, word, value)
    }

    /// Adds members to a set.
    fn gain(&self, seat: &mut Seat<(), View>, word: usize, value: u64) -> u64
        requires mine { seat.old.table_id ≡ self.now.table.shared.table_id }
        requires within { word < self.now.table.shared.table_id.words }
        requires kind { kind_of word ≡ gain }
        requires fits { Fits word value seat.old.me.0 }
        ensures mine { seat.new.table_id ≡ seat.old.table_id }
        ensures held { seat.new.me.1 ≡ seat.old.me.1 }
        ensures told { Told word value seat.old.me.0 result seat.new.me.0 }
    {
        self.table.shared.fetch_or::<Raise>(seat, word, value)
    }

    /// Raises an upper end.
    fn higher(&self, seat: &mut Seat<(), View>, word: usize, value: u64) -> u64
        requires mine { seat.old.table_id ≡ self.now.table.shared.table_id }
        requires within { word < self.now.table.shared.table_id.words }
        requires kind { kind_of word ≡ high }
        requires fits { Fits word value seat.old.me.0 }
        ensures mine { seat.new.table_id ≡ seat.old.table_id }
        ensures held { seat.new.me.1 ≡ seat.old.me.1 }
        ensures told { Told word value seat.old.me.0 result seat.new.me.0 }
    {
        self.table.shared.fetch_max::<Raise>(seat, word, value)
    }

    /// Takes members out of a set.
    fn lose(&self, seat: &mut Seat<(), View>, word: usize, value: u64) -> u64
        requires mine { seat.old.table_id ≡ self.now.table.shared.table_id }
        requires within { word < self.now.table.shared.table_id.words }
        requires kind { kind_of word ≡ lose }
        requires fits { Fits word value seat.old.me.0 }
        ensures mine { seat.new.table_id ≡ seat.old.table_id }
        ensures held { seat.new.me.1 ≡ seat.old.me.1 }
        ensures told { Told word value seat.old.me.0 result seat.new.me.0 }
    {
        self.table.shared.fetch_and::<Raise>(seat, word, value)
    }

    /// Raises a word, as its place asks.
    fn raise_word(&self, seat: &mut Seat<(), View>, word: usize, value: u64) -> u64
        requires mine { seat.old.table_id ≡ self.now.table.shared.table_id }
        requires within { word < self.now.table.shared.table_id.words }
        requires fits { Fits word value seat.old.me.0 }
        ensures mine { seat.new.table_id ≡ seat.old.table_id }
        ensures held { seat.new.me.1 ≡ seat.old.me.1 }
        ensures told { Told word value seat.old.me.0 result seat.new.me.0 }
    {
        match kind(word) {
            Rise::Low => self.lower(seat, word, value),
            Rise::High => self.higher(seat, word, value),
            Rise::Gain => self.gain(seat, word, value),
            Rise::Lose => self.lose(seat, word, value),
        }
    }

    /// Raises the words of a row, and gives the old words that it met.
    pub(crate) fn raise_words(
        &self,
        seat: &mut Seat<(), View>,
        base: usize,
        row: &[u64; 14],
    ) -> [u64; 14]
        requires mine { seat.old.table_id ≡ self.now.table.shared.table_id }
        requires within { base + 14 ≤ self.now.table.shared.table_id.words }
        requires fits { FitsRow base row.now seat.old.me.0 }
        ensures mine { seat.new.table_id ≡ seat.old.table_id }
        ensures held { seat.new.me.1 ≡ seat.old.me.1 }
        ensures told { ToldRow base row.now seat.old.me.0 result seat.new.me.0 }
    {
        let mut old = [0u64; 14];
        for j in 0..14 {
            old[j] = self.raise_word(seat, base + j, row[j]);
        }
        old
    }

    /// Reads a word.
    fn word(&self, seat: &mut Seat<(), View>, word: usize) -> u64
        requires mine { seat.old.table_id ≡ self.now.table.shared.table_id }
        requires within { word < self.now.table.shared.table_id.words }
        requires live { IsLive word seat.old.me.0 }
        ensures mine { seat.new.table_id ≡ seat.old.table_id }
        ensures held { seat.new.me.1 ≡ seat.old.me.1 }
        ensures told { Looked word seat.old.me.0 result seat.new.me.0 }
    {
        self.table.shared.load::<Look>(seat, word)
    }

    /// Reads the words of a row, one by one.
    pub(crate) fn read_words(&self, seat: &mut Seat<(), View>, base: usize) -> [u64; 14]
        requires mine { seat.old.table_id ≡ self.now.table.shared.table_id }
        requires within { base + 14 ≤ self.now.table.shared.table_id.words }
        requires live { LooksRow base 14 seat.old.me.0 }
        ensures mine { seat.new.table_id ≡ seat.old.table_id }
        ensures held { seat.new.me.1 ≡ seat.old.me.1 }
        ensures told { LookedRow base 14 seat.old.me.0 result seat.new.me.0 }
    {
        let mut found = [0u64; 14];
        for j in 0..14 {
            found[j] = self.word(seat, base + j);
        }
        found
    }
}
