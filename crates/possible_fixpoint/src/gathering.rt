//! What a worker gathers for a router, its local row and what the arcs into it give, and raises.

ghost use Rattle.std.specs.Prelude.{◌≡◌, ◌<◌, ◌≤◌, ◌+◌, ◌*◌, true};
ghost use Rattle.abstract_route.specs.Rows.{IsBelow, IsRow, row_at};
ghost use Rattle.flow_board.specs.Pass.{raised as raised_pass};
ghost use Rattle.possible_fixpoint.specs.Arrivals.{AreArrivals};
ghost use Rattle.possible_fixpoint.specs.Marks.{number};
ghost use Rattle.possible_fixpoint.specs.Notebook.{Grows, IsKept};
ghost use Rattle.possible_fixpoint.specs.Possible.{possible};
ghost use Rattle.possible_fixpoint.specs.Standing.{Solvable};
ghost use Rattle.possible_fixpoint.specs.Working.{Gathers, Grown, Works};

use crate::analysis::Analysis;
use crate::arrivals::first_from;
use crate::notes::Notes;
use abstract_route::{Row, is_below};
use flow_board::{Board, Seat};
use net_types::{Arc, Bits64};

/// Joins a row, below that of the least solution, into a router's row.
pub(crate) fn add<A: Analysis>(analysis: &A, notes: &mut Notes, router: u8, row: &Row) -> bool
    requires solvable { Solvable (A.flow analysis.now) }
    requires within { router < (A.flow analysis.now).routers }
    requires words { IsRow row.now }
    requires under { IsBelow row.now (row_at (possible (A.flow analysis.now)) router) }
    requires kept { IsKept (A.flow analysis.now) notes.old }
    ensures kept { IsKept (A.flow analysis.now) notes.new }
    ensures grows { Grows router notes.old.rows notes.new.rows result }
    ensures has { IsBelow row.now (row_at notes.new.rows router) }
{
    notes.add_row(router, row)
}

// Joins in the local row, once in a phase.
fn begin<A: Analysis>(analysis: &A, notes: &mut Notes, router: u8) -> bool
    requires solvable { Solvable (A.flow analysis.now) }
    requires within { router < (A.flow analysis.now).routers }
    requires kept { IsKept (A.flow analysis.now) notes.old }
    ensures kept { IsKept (A.flow analysis.now) notes.new }
    ensures grows { Grows router notes.old.rows notes.new.rows result }
    ensures local { IsBelow ((A.flow analysis.now).source router) (row_at notes.new.rows router) }
{
    if notes.begun.has(router) {
        return false;
    }
    let row = analysis.source(router);
    let grew = add(analysis, notes, router, &row);
    notes.set_begun(router);
    grew
}

// Joins in what an arc gives of a row, unless it was asked at a row above.
fn take<A: Analysis>(analysis: &A, notes: &mut Notes, arc: Arc, row: &Row) -> bool
    requires solvable { Solvable (A.flow analysis.now) }
    requires arc { arc.link < (A.flow analysis.now).links }
    requires lives { (A.flow analysis.now).lives arc ≡ true }
    requires words { IsRow row.now }
    requires under { IsBelow row.now (row_at (possible (A.flow analysis.now)) ((A.flow analysis.now).sender arc)) }
    requires kept { IsKept (A.flow analysis.now) notes.old }
    ensures kept { IsKept (A.flow analysis.now) notes.new }
    ensures grows { Grows ((A.flow analysis.now).receiver arc) notes.old.rows notes.new.rows result }
    ensures given { IsBelow ((A.flow analysis.now).gives arc row.now) (row_at notes.new.rows ((A.flow analysis.now).receiver arc)) }
{
    if notes.was_asked(arc, row) {
        return false;
    }
    let given = analysis.gives(arc, row);
    let grew = add(analysis, notes, analysis.receiver(arc), &given);
    notes.set_asked(arc, row, &given);
    grew
}

// Reads the row of an arc's sender, and takes what the arc gives of it.
fn ask<A: Analysis>(
    analysis: &A,
    board: &Board,
    seat: Seat,
    notes: &mut Notes,
    arc: Arc,
) -> (Seat, bool)
    requires solvable { Solvable (A.flow analysis.now) }
    requires mine { seat.board ≡ board.now.name }
    requires count { board.now.count ≡ (A.flow analysis.now).routers }
    requires works { Works (A.flow analysis.now) seat }
    requires arc { arc.link < (A.flow analysis.now).links }
    requires lives { (A.flow analysis.now).lives arc ≡ true }
    requires kept { IsKept (A.flow analysis.now) notes.old }
    ensures same { result.0 ≡ seat }
    ensures gathers { Gathers (A.flow analysis.now) seat.start ((A.flow analysis.now).receiver arc) (number arc) (number arc + 1) notes.old notes.new result.1 }
{
    let (seat, row) = board.read(seat, usize::from(analysis.sender(arc)));
    let grew = take(analysis, notes, arc, &row);
    (seat, grew)
}

// Asks an arc, if it lives and goes to the router.
fn visit<A: Analysis>(
    analysis: &A,
    board: &Board,
    seat: Seat,
    notes: &mut Notes,
    router: u8,
    arc: Arc,
) -> (Seat, bool)
    requires solvable { Solvable (A.flow analysis.now) }
    requires mine { seat.board ≡ board.now.name }
    requires count { board.now.count ≡ (A.flow analysis.now).routers }
    requires works { Works (A.flow analysis.now) seat }
    requires arc { arc.link < (A.flow analysis.now).links }
    requires kept { IsKept (A.flow analysis.now) notes.old }
    ensures same { result.0 ≡ seat }
    ensures gathers { Gathers (A.flow analysis.now) seat.start router (number arc) (number arc + 1) notes.old notes.new result.1 }
{
    if analysis.receiver(arc) != router {
        return (seat, false);
    }
    if !analysis.lives(arc) {
        return (seat, false);
    }
    ask(analysis, board, seat, notes, arc)
}

// The same for both arcs of a link.
fn visit_both<A: Analysis>(
    analysis: &A,
    board: &Board,
    seat: Seat,
    notes: &mut Notes,
    router: u8,
    link: u8,
) -> (Seat, bool)
    requires solvable { Solvable (A.flow analysis.now) }
    requires mine { seat.board ≡ board.now.name }
    requires count { board.now.count ≡ (A.flow analysis.now).routers }
    requires works { Works (A.flow analysis.now) seat }
    requires link { link < (A.flow analysis.now).links }
    requires kept { IsKept (A.flow analysis.now) notes.old }
    ensures same { result.0 ≡ seat }
    ensures gathers { Gathers (A.flow analysis.now) seat.start router (2 * link) (2 * (link + 1)) notes.old notes.new result.1 }
{
    let (up, down) = Arc::both(link);
    let (seat, first) = visit(analysis, board, seat, notes, router, up);
    let (seat, second) = visit(analysis, board, seat, notes, router, down);
    (seat, first | second)
}

// Takes what the arcs into a router give; `sets` has the links of such arcs.
fn visit_all<A: Analysis>(
    analysis: &A,
    board: &Board,
    mut seat: Seat,
    notes: &mut Notes,
    sets: &[Bits64; 64],
    router: u8,
) -> (Seat, bool)
    requires solvable { Solvable (A.flow analysis.now) }
    requires mine { seat.board ≡ board.now.name }
    requires count { board.now.count ≡ (A.flow analysis.now).routers }
    requires works { Works (A.flow analysis.now) seat }
    requires sets { AreArrivals (A.flow analysis.now) (2 * (A.flow analysis.now).links) sets.now }
    requires within { router < (A.flow analysis.now).routers }
    requires kept { IsKept (A.flow analysis.now) notes.old }
    ensures same { result.0 ≡ seat }
    ensures gathers { Gathers (A.flow analysis.now) seat.start router 0 (2 * (A.flow analysis.now).links) notes.old notes.new result.1 }
{
    let set = sets[usize::from(router)];
    let links = analysis.links();
    let mut grew = false;
    let mut link = first_from(set, 0);
    while link < links {
        let (next, more) = visit_both(analysis, board, seat, notes, router, link);
        seat = next;
        grew = grew | more;
        link = first_from(set, link + 1);
    }
    (seat, grew)
}

/// Gathers a router's local row and what the arcs into it give, and says whether there was anything new. In `sets` are for
/// each router the links of such arcs.
pub(crate) fn gather<A: Analysis>(
    analysis: &A,
    board: &Board,
    seat: Seat,
    notes: &mut Notes,
    sets: &[Bits64; 64],
    router: u8,
) -> (Seat, bool)
    requires solvable { Solvable (A.flow analysis.now) }
    requires mine { seat.board ≡ board.now.name }
    requires count { board.now.count ≡ (A.flow analysis.now).routers }
    requires works { Works (A.flow analysis.now) seat }
    requires sets { AreArrivals (A.flow analysis.now) (2 * (A.flow analysis.now).links) sets.now }
    requires within { router < (A.flow analysis.now).routers }
    requires kept { IsKept (A.flow analysis.now) notes.old }
    ensures same { result.0 ≡ seat }
    ensures local { IsBelow ((A.flow analysis.now).source router) (row_at notes.new.rows router) }
    ensures gathers { Gathers (A.flow analysis.now) seat.start router 0 (2 * (A.flow analysis.now).links) notes.old notes.new result.1 }
{
    let begun = begin(analysis, notes, router);
    let (seat, grew) = visit_all(analysis, board, seat, notes, sets, router);
    (seat, begun | grew)
}

/// Raises a router's row as far as it is gathered, and says whether that changed a word.
pub(crate) fn offer<A: Analysis>(
    analysis: &A,
    board: &Board,
    seat: Seat,
    notes: &Notes,
    router: u8,
) -> (Seat, bool)
    requires mine { seat.board ≡ board.now.name }
    requires count { board.now.count ≡ (A.flow analysis.now).routers }
    requires works { Works (A.flow analysis.now) seat }
    requires within { router < (A.flow analysis.now).routers }
    requires few { (A.flow analysis.now).routers ≤ 64 }
    requires kept { IsKept (A.flow analysis.now) notes.now }
    ensures raised { result.0 ≡ raised_pass seat router (row_at notes.now.rows router) }
    ensures grown { Grown (A.flow analysis.now) seat result.0 result.1 }
{
    let row = notes.row(router);
    let (seat, old) = board.raise(seat, usize::from(router), &row);
    (seat, !is_below(&row, &old))
}
