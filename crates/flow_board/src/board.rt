//! What callers see of a board: rows alone.

ghost use Rattle.std.specs.Prelude.{◌≡◌, ◌<◌, ◌≤◌, IfOk, length};
ghost use Rattle.abstract_route.specs.Rows.{IsBelow, IsRow, row_at};
ghost use Rattle.flow_board.specs.Pass.{IsClosed, IsMet, both_raises, no_raises, raised};
ghost use Rattle.flow_board.specs.RowLists.{AreBelow};

use crate::view::View;
use crate::words::{Roof, Words};
use abstract_route::Row;
use atomic_table::Seat as Token;
use net_types::{List, NoMemory};
use std::alloc::Global;
use std::marker::Model;

/// One thread's pass to a board. Contracts see in it the rows at the start, the roof, and what the seat has raised itself.
/// It takes no bytes, may go to another thread, and is handed back by each call that takes it.
#[derive(Drop)]
pub struct Seat {
    token: Token<(), View>,
}

impl Model for Seat {
    ghost use Rattle.std.specs.Prelude.{◌≡◌, ◌/◌, []};
    ghost use Rattle.flow_board.specs.Pass.{Pass};
    ghost use Rattle.flow_board.specs.RowWords.{IsReady, own_of, roof_of, start_of};

    ghost Value = { Pass };

    ghost view = { λ s. record { board = s.token.table_id; start = start_of (s.token.table_id.words / 14) s.token.me.0; roof = roof_of (s.token.table_id.words / 14) s.token.me.0; own = own_of (s.token.table_id.words / 14) s.token.me.0 } };

    ghost invariant = { λ s. (s.token.me.1 ≡ []) × IsReady (s.token.table_id.words / 14) s.token.me.0 };
}

/// A row for each router, 1 to 64 of them, that threads raise and read through a `&`. Contracts see its name and how many
/// rows it has; what the rows are, each seat knows in part.
#[derive(Drop)]
pub struct Board {
    words: Words,
}

impl Model for Board {
    ghost use Rattle.flow_board.specs.Pass.{BoardName};

    ghost Value = { BoardName };

    ghost view = { λ b. record { name = b.words.table.shared.table_id; count = b.words.count } };
}

impl Board {
    /// A board of these rows, at or below the roof of `K`, and its only seat, which has raised nothing. A caller passes
    /// std's `Brand` for `K`, and its proof says which rows the roof is.
    ///
    /// # Errors
    /// [`NoMemory`] where there was none for the words.
    pub fn open<K: Roof>(alloc: Global, start: &[Row]) -> Result<(Board, Seat), NoMemory>
        requires some { 0 < length start.now }
        requires few { length start.now ≤ 64 }
        requires under { AreBelow start.now K.rows }
        ensures count { IfOk result (λ p. p.0.count ≡ length start.now) }
        ensures seat { IfOk result (λ p. p.1 ≡ record { board = p.0.name; start = start.now; roof = K.rows; own = no_raises (length start.now) }) }
    {
        let (words, token) = Words::open::<K>(alloc, start)?;
        Ok((Board { words }, Seat { token }))
    }

    /// Another seat that knows the same, for another thread.
    pub fn split(&self, seat: Seat) -> (Seat, Seat)
        requires mine { seat.board ≡ self.now.name }
        ensures { (result.0 ≡ seat) × (result.1 ≡ seat) }
    {
        let Seat { mut token } = seat;
        let other = self.words.split(&mut token);
        (Seat { token }, Seat { token: other })
    }

    /// The first seat, with the raises of both.
    pub fn join(&self, seat: Seat, other: Seat) -> Seat
        requires mine { seat.board ≡ self.now.name }
        requires theirs { other.board ≡ self.now.name }
        ensures { result ≡ record seat { own = both_raises seat.own other.own } }
    {
        let Seat { mut token } = seat;
        let Seat { token: second } = other;
        self.words.join(&mut token, second);
        Seat { token }
    }

    /// The seat, and a row of the router that is at or above the start and the seat's own raises, and at or below the roof.
    /// It is read word by word: another thread's raise may be met in part.
    pub fn read(&self, seat: Seat, node: usize) -> (Seat, Row)
        requires mine { seat.board ≡ self.now.name }
        requires within { node < self.now.count }
        ensures same { result.0 ≡ seat }
        ensures words { IsRow result.1 }
        ensures met { IsMet seat node result.1 }
    {
        let Seat { mut token } = seat;
        let row = self.words.read(&mut token, node);
        (Seat { token }, row)
    }

    /// Raises the row of a router, which is from then on at or above this row: one step for each of its fourteen words. It
    /// gives the old words that the steps met. The raise changed one of them exactly where `row` is not below what it gives
    /// (`law_of_raises`).
    pub fn raise(&self, seat: Seat, node: usize, row: &Row) -> (Seat, Row)
        requires mine { seat.board ≡ self.now.name }
        requires within { node < self.now.count }
        requires under { IsBelow row.now (row_at seat.roof node) }
        ensures raised { result.0 ≡ raised seat node row.now }
        ensures words { IsRow result.1 }
        ensures met { IsMet seat node result.1 }
    {
        let Seat { mut token } = seat;
        let old = self.words.raise(&mut token, node, row);
        (Seat { token }, old)
    }

    /// The rows at the end: at or above the start and the raises of the seat, and at or below the roof.
    ///
    /// # Errors
    /// [`NoMemory`] where there was none for the rows. The board and the seat are gone then.
    pub fn close(self, alloc: Global, seat: Seat) -> Result<List<Row>, NoMemory>
        requires mine { seat.board ≡ self.name }
        ensures { IfOk result (λ rows. IsClosed seat self.count rows) }
    {
        let Board { words } = self;
        let Seat { token } = seat;
        words.close(alloc, token)
    }
}
