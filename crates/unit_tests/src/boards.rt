//! A board whose seats raise rows one after another, in two threads, and in eight. The rows of the first two are worked
//! out by hand; those of the eight threads are made from numbers, and what they have to end in is their join.

ghost use Rattle.std.specs.Prelude.{◌≡◌, ◌<◌, ◌≤◌, ◌+◌, ◌-◌, ◌/◌, IfOk, replicate};
ghost use Rattle.std.specs.Thread.{IsSync};
ghost use Rattle.abstract_route.specs.Rows.{bottom};
ghost use Rattle.unit_tests.specs.Boards.{IsFree};

use crate::asserting::{holds, holds_at};
use crate::rows::LOCAL;
use abstract_route::{BOTTOM, Range, Row, bottom_value, join as joined};
use flow_board::{Board, Seat};
use net_types::{Bits64, NoMemory};
use std::alloc::Global;
use std::marker::Brand;
use std::test::Fail;
use std::thread::{Threads, join};

/// So many rows of no route.
fn bottoms(alloc: Global, count: usize) -> Result<Vec<Row>, NoMemory>
    ensures { IfOk result (λ rows. rows.items ≡ replicate count bottom) }
{
    let mut rows = Vec::new(alloc);
    for _ in 0..count {
        rows.push(bottom_value())?;
    }
    Ok(rows)
}

/// A board of so many rows of no route, on which every row may be raised.
fn opened(alloc: Global, count: usize) -> Result<(Board, Seat), NoMemory>
    requires { (0 < count) × (count ≤ 64) }
    ensures count { IfOk result (λ p. p.0.count ≡ count) }
    ensures free { IfOk result (λ p. IsFree p.0 p.1) }
{
    let start = bottoms(alloc, count)?;
    Board::open::<Brand>(alloc, start.as_slice())
}

fn raise(board: &Board, seat: Seat, node: usize, row: &Row) -> (Seat, Row)
    requires seat { IsFree board.now seat }
    requires node { node < board.now.count }
    ensures { IsFree board.now result.0 }
{
    row.fits();
    board.raise(seat, node, row)
}

fn parted(board: &Board, seat: Seat) -> (Seat, Seat)
    requires { IsFree board.now seat }
    ensures one { IsFree board.now result.0 }
    ensures other { IsFree board.now result.1 }
{
    board.split(seat)
}

fn together(board: &Board, one: Seat, other: Seat) -> Seat
    requires one { IsFree board.now one }
    requires other { IsFree board.now other }
    ensures { IsFree board.now result }
{
    board.join(one, other)
}

/// A row learned over routers 1 and 2, with community 2.
fn learned() -> Row {
    let two = Bits64::EMPTY.with(2);
    let routers = two.with(1);
    Row {
        weight: Range { low: 0, high: 0 },
        preference: Range {
            low: 200,
            high: 200,
        },
        length: Range { low: 2, high: 2 },
        has: two,
        lacks: Bits64::FULL.without(2),
        may: routers,
        must: routers,
        ..LOCAL
    }
}

/// What is above both the local row and the learned one, and no more.
fn either() -> Row {
    Row {
        weight: Range {
            low: 0,
            high: 32768,
        },
        preference: Range {
            low: 100,
            high: 200,
        },
        length: Range { low: 0, high: 2 },
        has: Bits64::EMPTY.with(2),
        lacks: Bits64::FULL,
        may: Bits64::EMPTY.with(1).with(2),
        must: Bits64::EMPTY,
        ..LOCAL
    }
}

/// The old rows that raises meet, and what a seat reads, show that each seat meets the raises of the other.
#[test]
fn board_of_one_node(rt: HostRuntime) -> Result<(), Fail> {
    let (board, seat) = opened(rt.alloc(), 1)?;
    let (first, second) = parted(&board, seat);
    let (first, met) = raise(&board, first, 0, &LOCAL);
    holds_at(&rt, "before the first raise", met == BOTTOM);
    let (second, met) = raise(&board, second, 0, &learned());
    holds_at(&rt, "before the second", met == LOCAL);
    let (first, met) = board.read(first, 0);
    holds_at(&rt, "read by the first seat", met == either());
    let seat = together(&board, first, second);
    let (seat, met) = raise(&board, seat, 0, &learned());
    holds_at(&rt, "before the second again", met == either());
    let rows = board.close(rt.alloc(), seat)?;
    holds_at(&rt, "at the end", rows.as_slice() == [either()].as_slice());
    Ok(())
}

fn raise_from_two_threads<R: Threads>(rt: &R, board: &Board, seat: Seat) -> Seat
    requires seat { IsFree board.now seat }
    requires count { 0 < board.now.count }
    ensures { IsFree board.now result }
{
    let (one, other) = parted(board, seat);
    let (one, other) = join(
        rt,
        move || -> Seat
            requires { IsFree board.now one × (0 < board.now.count) }
            ensures { IsFree board.entry.now result }
        {
            let (seat, _met) = raise(board, one, 0, &LOCAL);
            seat
        },
        move || -> Seat
            requires { IsFree board.now other × (0 < board.now.count) }
            ensures { IsFree board.entry.now result }
        {
            let (seat, _met) = raise(board, other, 0, &learned());
            seat
        },
    );
    together(board, one, other)
}

#[test]
fn two_threads_raise(rt: HostRuntime) -> Result<(), Fail> {
    let (board, seat) = opened(rt.alloc(), 1)?;
    let seat = raise_from_two_threads(&rt, &board, seat);
    let rows = board.close(rt.alloc(), seat)?;
    holds(&rt, rows.as_slice() == [either()].as_slice());
    Ok(())
}

/// Numbers without a pattern, the same in each run (xorshift of 64 bits).
#[derive(Drop)]
struct Numbers(u64);

impl Numbers {
    fn next(&mut self) -> u64 {
        let a = self.0 ^ (self.0 >> 12);
        let b = a ^ (a << 25);
        let c = b ^ (b >> 27);
        self.0 = c;
        c.wrapping_mul(0x2545_F491_4F6C_DD1D)
    }

    fn range(&mut self) -> Range {
        let low = self.next();
        let high = self.next();
        Range { low, high }
    }

    /// A set of one number.
    fn one(&mut self) -> Bits64 {
        Bits64::from_word(1 << (self.next() % 64))
    }

    fn row(&mut self) -> Row {
        Row {
            weight: self.range(),
            preference: self.range(),
            length: self.range(),
            origin: self.range(),
            med: self.range(),
            has: self.one(),
            lacks: self.one(),
            may: self.one(),
            must: Bits64::FULL.minus(self.one()),
        }
    }
}

/// How many rows each thread raises, one after another those of all routers.
const ROUNDS: usize = 64;

/// The routers of a board that threads raise.
const ROUTERS: usize = 4;

/// What one thread does.
fn raise_many(board: &Board, mut seat: Seat, thread: u64) -> Seat
    requires seat { IsFree board.now seat }
    requires count { board.now.count ≡ ROUTERS }
    ensures { IsFree board.now result }
{
    let mut numbers = Numbers(thread);
    for round in 0..ROUNDS {
        let row = numbers.row();
        let (next, _met) = raise(board, seat, round % ROUTERS, &row);
        seat = next;
    }
    seat
}

/// Joins, into the rows, those that one thread raises.
fn join_many(rows: &mut [Row; ROUTERS], thread: u64) {
    let mut numbers = Numbers(thread);
    for round in 0..ROUNDS {
        let row = numbers.row();
        let router = round % ROUTERS;
        rows[router] = joined(&rows[router], &row);
    }
}

/// So many threads raise rows, each with a seat of its own.
fn raise_from_threads<R: Threads + Sync>(
    rt: &R,
    board: &Board,
    seat: Seat,
    first: u64,
    many: u64,
) -> Seat
    requires seat { IsFree board.now seat }
    requires count { board.now.count ≡ ROUTERS }
    requires some { 0 < many }
    requires few { first + many ≤ 9 }
    ensures { IsFree board.now result }
{
    if many == 1 {
        return raise_many(board, seat, first);
    }
    let left = many / 2;
    let right = many - left;
    let middle = first + left;
    let (one, other) = parted(board, seat);
    let (one, other) = join(
        rt,
        move || -> Seat
            requires { IsSync R.row × IsFree board.now one × (board.now.count ≡ ROUTERS) × (0 < left) × (first + left ≤ 9) }
            ensures { IsFree board.entry.now result }
        { raise_from_threads(rt, board, one, first, left) },
        move || -> Seat
            requires { IsSync R.row × IsFree board.now other × (board.now.count ≡ ROUTERS) × (0 < right) × (middle + right ≤ 9) }
            ensures { IsFree board.entry.now result }
        { raise_from_threads(rt, board, other, middle, right) },
    );
    together(board, one, other)
}

#[test]
fn eight_threads_raise(rt: HostRuntime) -> Result<(), Fail> {
    let (board, seat) = opened(rt.alloc(), ROUTERS)?;
    let seat = raise_from_threads(&rt, &board, seat, 1, 8);
    let rows = board.close(rt.alloc(), seat)?;
    let mut wanted = [BOTTOM; ROUTERS];
    for thread in 1..=8 {
        join_many(&mut wanted, thread);
    }
    holds(&rt, rows.as_slice() == wanted.as_slice());
    Ok(())
}
