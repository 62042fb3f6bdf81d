//! The cut: a worker raises at once the lengths that would climb, turn by turn, round routers that feed each other.

ghost use Rattle.std.specs.Prelude.{◌≡◌, ◌<◌, ◌≤◌, ◌*◌, false, true};
ghost use Rattle.abstract_route.specs.Rows.{row_at};
ghost use Rattle.possible_fixpoint.specs.Notebook.{IsKept};
ghost use Rattle.possible_fixpoint.specs.Possible.{possible};
ghost use Rattle.possible_fixpoint.specs.Standing.{Solvable};
ghost use Rattle.possible_fixpoint.specs.Working.{AreLong, AreRaised, Stood, Works};

use crate::analysis::Analysis;
use crate::feeding::{fed, longer};
use crate::gathering::{add, offer};
use crate::notes::Notes;
use abstract_route::bottom_value;
use flow_board::{Board, Seat};
use net_types::{Arc, Bits64};

// Asks an arc whether it gives something of its sender's row.
fn look_at<A: Analysis>(
    analysis: &A,
    board: &Board,
    seat: Seat,
    notes: &mut Notes,
    arc: Arc,
) -> Seat
    requires solvable { Solvable (A.flow analysis.now) }
    requires mine { seat.board ≡ board.now.name }
    requires count { board.now.count ≡ (A.flow analysis.now).routers }
    requires works { Works (A.flow analysis.now) seat }
    requires arc { arc.link < (A.flow analysis.now).links }
    requires lives { (A.flow analysis.now).lives arc ≡ true }
    requires kept { IsKept (A.flow analysis.now) notes.old }
    ensures same { result ≡ seat }
    ensures kept { IsKept (A.flow analysis.now) notes.new }
    ensures rows { notes.new.rows ≡ notes.old.rows }
{
    let (seat, row) = board.read(seat, usize::from(analysis.sender(arc)));
    let given = analysis.gives(arc, &row);
    notes.set_gave(arc, &given);
    seat
}

// Asks an arc into a router of another worker, if it lives and was not yet seen giving something. What the worker's own
// arcs give, its passes note.
fn look<A: Analysis>(
    analysis: &A,
    board: &Board,
    seat: Seat,
    notes: &mut Notes,
    worker: u8,
    workers: u8,
    arc: Arc,
) -> Seat
    requires solvable { Solvable (A.flow analysis.now) }
    requires mine { seat.board ≡ board.now.name }
    requires count { board.now.count ≡ (A.flow analysis.now).routers }
    requires works { Works (A.flow analysis.now) seat }
    requires some { 0 < workers }
    requires arc { arc.link < (A.flow analysis.now).links }
    requires kept { IsKept (A.flow analysis.now) notes.old }
    ensures same { result ≡ seat }
    ensures kept { IsKept (A.flow analysis.now) notes.new }
    ensures rows { notes.new.rows ≡ notes.old.rows }
{
    if analysis.receiver(arc) % workers == worker {
        return seat;
    }
    if notes.gave.has(arc) {
        return seat;
    }
    if !analysis.lives(arc) {
        return seat;
    }
    look_at(analysis, board, seat, notes, arc)
}

// The same for both arcs of a link.
fn look_both<A: Analysis>(
    analysis: &A,
    board: &Board,
    seat: Seat,
    notes: &mut Notes,
    worker: u8,
    workers: u8,
    link: u8,
) -> Seat
    requires solvable { Solvable (A.flow analysis.now) }
    requires mine { seat.board ≡ board.now.name }
    requires count { board.now.count ≡ (A.flow analysis.now).routers }
    requires works { Works (A.flow analysis.now) seat }
    requires some { 0 < workers }
    requires link { link < (A.flow analysis.now).links }
    requires kept { IsKept (A.flow analysis.now) notes.old }
    ensures same { result ≡ seat }
    ensures kept { IsKept (A.flow analysis.now) notes.new }
    ensures rows { notes.new.rows ≡ notes.old.rows }
{
    let (up, down) = Arc::both(link);
    let seat = look(analysis, board, seat, notes, worker, workers, up);
    look(analysis, board, seat, notes, worker, workers, down)
}

// Asks the arcs into the routers of other workers.
fn look_all<A: Analysis>(
    analysis: &A,
    board: &Board,
    mut seat: Seat,
    notes: &mut Notes,
    worker: u8,
    workers: u8,
) -> Seat
    requires solvable { Solvable (A.flow analysis.now) }
    requires mine { seat.board ≡ board.now.name }
    requires count { board.now.count ≡ (A.flow analysis.now).routers }
    requires works { Works (A.flow analysis.now) seat }
    requires some { 0 < workers }
    requires kept { IsKept (A.flow analysis.now) notes.old }
    ensures same { result ≡ seat }
    ensures kept { IsKept (A.flow analysis.now) notes.new }
    ensures rows { notes.new.rows ≡ notes.old.rows }
{
    for link in 0..analysis.links() {
        seat = look_both(analysis, board, seat, notes, worker, workers, link);
    }
    seat
}

// Raises the length of a router's row to the cut, which the least solution has there.
fn lift<A: Analysis>(
    analysis: &A,
    board: &Board,
    seat: Seat,
    notes: &mut Notes,
    router: u8,
    most: u64,
) -> Seat
    requires solvable { Solvable (A.flow analysis.now) }
    requires mine { seat.board ≡ board.now.name }
    requires count { board.now.count ≡ (A.flow analysis.now).routers }
    requires works { Works (A.flow analysis.now) seat }
    requires within { router < (A.flow analysis.now).routers }
    requires high { most ≤ (row_at (possible (A.flow analysis.now)) router).length.high }
    requires kept { IsKept (A.flow analysis.now) notes.old }
    requires raised { AreRaised (A.flow analysis.now) notes.old.rows seat }
    ensures { Stood (A.flow analysis.now) seat result notes.new false }
{
    let long = longer(&bottom_value(), most);
    if add(analysis, notes, router, &long) {
        let (seat, _changed) = offer(analysis, board, seat, notes, router);
        seat
    } else {
        seat
    }
}

// The same for a router, if it is the worker's and feeds itself over others.
fn lift_own<A: Analysis>(
    analysis: &A,
    board: &Board,
    seat: Seat,
    notes: &mut Notes,
    set: Bits64,
    worker: u8,
    workers: u8,
    router: u8,
) -> Seat
    requires solvable { Solvable (A.flow analysis.now) }
    requires mine { seat.board ≡ board.now.name }
    requires count { board.now.count ≡ (A.flow analysis.now).routers }
    requires works { Works (A.flow analysis.now) seat }
    requires some { 0 < workers }
    requires within { router < (A.flow analysis.now).routers }
    requires climbs { AreLong (A.flow analysis.now) (21 * (A.flow analysis.now).routers) set }
    requires kept { IsKept (A.flow analysis.now) notes.old }
    requires raised { AreRaised (A.flow analysis.now) notes.old.rows seat }
    ensures { Stood (A.flow analysis.now) seat result notes.new false }
{
    if router % workers != worker {
        return seat;
    }
    if !set.has(router) {
        return seat;
    }
    lift(
        analysis,
        board,
        seat,
        notes,
        router,
        21 * u64::from(analysis.routers()),
    )
}

// Raises the lengths of the worker's routers that feed each other, over others too.
fn lift_all<A: Analysis>(
    analysis: &A,
    board: &Board,
    mut seat: Seat,
    notes: &mut Notes,
    worker: u8,
    workers: u8,
) -> Seat
    requires solvable { Solvable (A.flow analysis.now) }
    requires mine { seat.board ≡ board.now.name }
    requires count { board.now.count ≡ (A.flow analysis.now).routers }
    requires works { Works (A.flow analysis.now) seat }
    requires some { 0 < workers }
    requires kept { IsKept (A.flow analysis.now) notes.old }
    requires raised { AreRaised (A.flow analysis.now) notes.old.rows seat }
    ensures { Stood (A.flow analysis.now) seat result notes.new false }
{
    let set = fed(analysis, &notes.gave);
    for router in 0..analysis.routers() {
        seat = lift_own(analysis, board, seat, notes, set, worker, workers, router);
    }
    seat
}

// Looks which arcs give something, and raises the lengths.
fn lengthen_own<A: Analysis>(
    analysis: &A,
    board: &Board,
    seat: Seat,
    notes: &mut Notes,
    worker: u8,
    workers: u8,
) -> Seat
    requires solvable { Solvable (A.flow analysis.now) }
    requires mine { seat.board ≡ board.now.name }
    requires count { board.now.count ≡ (A.flow analysis.now).routers }
    requires works { Works (A.flow analysis.now) seat }
    requires some { 0 < workers }
    requires kept { IsKept (A.flow analysis.now) notes.old }
    requires raised { AreRaised (A.flow analysis.now) notes.old.rows seat }
    ensures { Stood (A.flow analysis.now) seat result notes.new false }
{
    let seat = look_all(analysis, board, seat, notes, worker, workers);
    lift_all(analysis, board, seat, notes, worker, workers)
}

// Whether it is turn 2, 4, 8 and so on: more often would ask the arcs of other workers too often.
fn is_due(turn: u64) -> bool {
    turn % 2 == 0 && turn.is_power_of_two()
}

/// Raises the lengths, in some turns.
pub(crate) fn lengthen_if_due<A: Analysis>(
    analysis: &A,
    board: &Board,
    seat: Seat,
    notes: &mut Notes,
    worker: u8,
    workers: u8,
    turn: u64,
) -> Seat
    requires solvable { Solvable (A.flow analysis.now) }
    requires mine { seat.board ≡ board.now.name }
    requires count { board.now.count ≡ (A.flow analysis.now).routers }
    requires works { Works (A.flow analysis.now) seat }
    requires some { 0 < workers }
    requires kept { IsKept (A.flow analysis.now) notes.old }
    requires raised { AreRaised (A.flow analysis.now) notes.old.rows seat }
    ensures { Stood (A.flow analysis.now) seat result notes.new false }
{
    if is_due(turn) {
        lengthen_own(analysis, board, seat, notes, worker, workers)
    } else {
        seat
    }
}
