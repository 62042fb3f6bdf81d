//! The possible routes of a network.

ghost use Rattle.std.specs.Prelude.{◌≡◌, ◌<◌, ◌≤◌, IfOk, length};
ghost use Rattle.net_types.specs.Distance.{AreDistances};
ghost use Rattle.abstract_maps.specs.AbstractMap.{IsShort};
ghost use Rattle.abstract_maps.specs.Transfer.{gives};
ghost use Rattle.possible_fixpoint.specs.Flow.{flow_of};
ghost use Rattle.possible_fixpoint.specs.Possible.{possible};

use crate::alive::Alive;
use crate::analysis::Analysis;
use crate::{passes, phases};
use abstract_maps::{local_row, transfer};
use abstract_route::{Row, bottom_value, carried, is_inhabited};
use net_types::{Arc, FailSet, List, Net, NoMemory, Prefix, distance_at};
use outside::Gate;
use std::alloc::Global;
use std::thread::Threads;

// A prefix of a network, with these links failed, these OSPF distances, and this alive. What it means is its flow.
#[derive(Drop)]
struct Case<'a> {
    net: &'a Net,
    prefix: Prefix,
    failed: &'a FailSet,
    distances: &'a [Option<u64>],
    alive: &'a Alive,
}

// What an arc adds to its receiver's row.
fn given(net: &Net, prefix: Prefix, arc: Arc, row: &Row) -> Row
    requires { IsShort row.now }
    ensures { result ≡ gives net.now prefix arc row.now }
{
    let come = transfer(net, prefix, arc, row);
    if is_inhabited(&come) {
        carried(&come)
    } else {
        bottom_value()
    }
}

impl<'a> Analysis for Case<'a> {
    ghost flow = { λ c. flow_of c.net.now c.prefix c.failed.now c.distances.now c.alive.now };

    fn routers(&self) -> u8 {
        self.net.valid();
        self.net.routers().len() as u8
    }

    fn links(&self) -> u8 {
        self.net.valid();
        self.net.links().len() as u8
    }

    fn lives(&self, arc: Arc) -> bool {
        self.net.is_up(self.failed, arc) && self.alive.holds(arc)
    }

    fn sender(&self, arc: Arc) -> u8 {
        self.net.sender_of(arc).unwrap_or(0)
    }

    fn receiver(&self, arc: Arc) -> u8 {
        self.net.receiver_of(arc).unwrap_or(0)
    }

    fn source(&self, router: u8) -> Row {
        self.net.valid();
        if self.alive.locals.has(router) {
            let distance = distance_at(self.distances, router);
            local_row(self.net, self.prefix, router, distance)
        } else {
            bottom_value()
        }
    }

    fn gives(&self, arc: Arc, row: &Row) -> Row {
        given(self.net, self.prefix, arc, row)
    }
}

/// The rows of all that each router may hold, one for each router: the least in which each row is above that of the
/// router's living local route, and above what each living arc gives of its sender's row. The distances are those of
/// OSPF with these links failed; the workers are 1 to 8, all but one in a thread of its own, and pass the gate before each
/// of their turns. The answer is the same for every number of them, every gate and every order of their steps. This
/// project's own.
///
/// # Errors
///
/// [`NoMemory`] where there was none for the rows or the board.
pub fn solve_possible<R: Threads + Sync, G: Gate + Sync>(
    rt: &R,
    alloc: Global,
    net: &Net,
    prefix: Prefix,
    failed: FailSet,
    distances: &[Option<u64>],
    alive: &Alive,
    workers: u8,
    gate: &G,
) -> Result<List<Row>, NoMemory>
    requires distances { AreDistances net.now prefix failed distances.now }
    requires some { 0 < workers }
    requires few { workers ≤ 8 }
    ensures least { IfOk result (λ rows. rows ≡ possible (flow_of net.now prefix failed distances.now alive.now)) }
    ensures long { IfOk result (λ rows. length rows ≡ length net.now.routers) }
{
    net.valid();
    let case = Case {
        net,
        prefix,
        failed: &failed,
        distances,
        alive,
    };
    phases::solve(rt, alloc, &case, workers, gate)
}

/// The same by the plain solver: passes over one list of rows, in this thread, without a board. Tests compare the two.
///
/// # Errors
///
/// [`NoMemory`] where there was none for the rows.
pub fn solve_plainly(
    alloc: Global,
    net: &Net,
    prefix: Prefix,
    failed: FailSet,
    distances: &[Option<u64>],
    alive: &Alive,
) -> Result<List<Row>, NoMemory>
    requires distances { AreDistances net.now prefix failed distances.now }
    ensures { IfOk result (λ rows. rows ≡ possible (flow_of net.now prefix failed distances.now alive.now)) }
{
    net.valid();
    let case = Case {
        net,
        prefix,
        failed: &failed,
        distances,
        alive,
    };
    let rows = passes::solve(alloc, &case)?;
    Ok(List::from_vec(rows))
}
