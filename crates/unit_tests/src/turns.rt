//! Workers' turns under gates that order them, and the same rows for every number of workers.

ghost use Rattle.std.specs.Prelude.{◌≡◌, ◌<◌, ◌≤◌, IfOk, length};

use crate::asserting::{holds, holds_at};
use crate::networks::network_of;
use crate::rows::LOCAL;
use abstract_route::{Range, Row};
use commands::run;
use net_types::{Bits64, BundleRefusal, FailSet, List, Net, NoMemory, Prefix, Text};
use ospf_paths::distances;
use outside::{Gate, MemShelf, MemSink, OpenGate, Steps};
use possible_fixpoint::{Alive, solve_plainly, solve_possible};
use std::alloc::Global;
use std::marker::Brand;
use std::sync::atomic::{AtomicU64, Ordering};
use std::sync::ledger::{Blank, Ledger};
use std::test::Fail;
use std::thread::{Threads, yield_now};

// ---- networks

// Four routers in a line; the first of them originates 10.9.0.0/24, or the last.
const FIRST: &str = "hostname r1
interface eth0
 ip address 10.0.0.1/30
router bgp 65001
 no bgp ebgp-requires-policy
 neighbor 10.0.0.2 remote-as 65002
";

const FIRST_ORIGINATES: &str = "hostname r1
interface eth0
 ip address 10.0.0.1/30
router bgp 65001
 no bgp ebgp-requires-policy
 neighbor 10.0.0.2 remote-as 65002
 network 10.9.0.0/24
";

const SECOND: &str = "hostname r2
interface eth0
 ip address 10.0.0.2/30
interface eth1
 ip address 10.0.1.1/30
router bgp 65002
 no bgp ebgp-requires-policy
 neighbor 10.0.0.1 remote-as 65001
 neighbor 10.0.1.2 remote-as 65003
";

const THIRD: &str = "hostname r3
interface eth0
 ip address 10.0.1.2/30
interface eth1
 ip address 10.0.2.1/30
router bgp 65003
 no bgp ebgp-requires-policy
 neighbor 10.0.1.1 remote-as 65002
 neighbor 10.0.2.2 remote-as 65004
";

const LAST: &str = "hostname r4
interface eth0
 ip address 10.0.2.2/30
router bgp 65004
 no bgp ebgp-requires-policy
 neighbor 10.0.2.1 remote-as 65003
";

const LAST_ORIGINATES: &str = "hostname r4
interface eth0
 ip address 10.0.2.2/30
router bgp 65004
 no bgp ebgp-requires-policy
 neighbor 10.0.2.1 remote-as 65003
 network 10.9.0.0/24
";

const LINE: [&str; 4] = [FIRST_ORIGINATES, SECOND, THIRD, LAST];

const LINE_FROM_THE_LAST: [&str; 4] = [FIRST, SECOND, THIRD, LAST_ORIGINATES];

// Three routers in a ring, of which two feed each other.
const RING: [&str; 3] = [
    "hostname a
interface eth0
 ip address 10.0.0.1/30
interface eth1
 ip address 10.0.1.1/30
router bgp 65001
 no bgp ebgp-requires-policy
 neighbor 10.0.0.2 remote-as 65002
 neighbor 10.0.1.2 remote-as 65003
",
    "hostname b
interface eth0
 ip address 10.0.0.2/30
interface eth1
 ip address 10.0.2.1/30
router bgp 65002
 no bgp ebgp-requires-policy
 neighbor 10.0.0.1 remote-as 65001
 neighbor 10.0.2.2 remote-as 65003
",
    "hostname d
interface eth0
 ip address 10.0.1.2/30
interface eth1
 ip address 10.0.2.2/30
router bgp 65003
 no bgp ebgp-requires-policy
 neighbor 10.0.1.1 remote-as 65001
 neighbor 10.0.2.1 remote-as 65002
 network 10.9.0.0/24
",
];

const ALL: Alive = Alive {
    up: Bits64::FULL,
    down: Bits64::FULL,
    locals: Bits64::FULL,
};

// The rows of 10.9.0.0/24 by so many workers, no link failed and everything alive.
fn rows_of<R: Threads + Sync, G: Gate + Sync>(
    rt: &R,
    alloc: Global,
    net: &Net,
    workers: u8,
    gate: &G,
) -> Result<List<Row>, NoMemory>
    requires { (0 < workers) × (workers ≤ 8) }
{
    let prefix = Prefix::masked(0x0A09_0000, 24);
    let failed = FailSet::empty();
    let found = distances(alloc, net, prefix, failed)?;
    solve_possible(
        rt,
        alloc,
        net,
        prefix,
        failed,
        found.as_slice(),
        &ALL,
        workers,
        gate,
    )
}

// The same by the plain solver.
fn plain_rows_of(alloc: Global, net: &Net) -> Result<List<Row>, NoMemory> {
    let prefix = Prefix::masked(0x0A09_0000, 24);
    let failed = FailSet::empty();
    let found = distances(alloc, net, prefix, failed)?;
    solve_plainly(alloc, net, prefix, failed, found.as_slice(), &ALL)
}

// ---- gates

/// Notes the passes of the first two workers.
#[derive(Drop)]
struct Noted {
    first: AtomicU64,
    second: AtomicU64,
    // Whether a pass was not that of the worker's next turn, or of a third worker, or a hold has run out.
    wrong: AtomicU64,
}

impl Noted {
    fn new() -> Noted {
        Noted {
            first: AtomicU64::new(0),
            second: AtomicU64::new(0),
            wrong: AtomicU64::new(0),
        }
    }

    fn last_of(&self, worker: u8) -> u64 {
        if worker == 1 {
            self.first.load(Ordering::SeqCst)
        } else {
            self.second.load(Ordering::SeqCst)
        }
    }

    fn note(&self, worker: u8, turn: u64) {
        if worker > 2 || turn != self.last_of(worker).saturating_add(1) {
            self.wrong.store(1, Ordering::SeqCst);
        } else if worker == 1 {
            self.first.store(turn, Ordering::SeqCst);
        } else {
            self.second.store(turn, Ordering::SeqCst);
        }
    }

    // Waits until a pass of a worker is noted, for at most a million turns.
    fn hold_until(&self, worker: u8, turn: u64) {
        for _ in 0..1_000_000 {
            if self.last_of(worker) >= turn {
                return;
            }
            yield_now();
        }
        self.wrong.store(1, Ordering::SeqCst);
    }

    // Whether exactly the passes before and at these turns were noted.
    fn has_noted(&self, first: u64, second: u64) -> bool {
        self.wrong.load(Ordering::SeqCst) == 0
            && self.last_of(1) == first
            && self.last_of(2) == second
    }
}

impl Gate for Noted {
    fn pass(&self, worker: u8, turn: u64) {
        self.note(worker, turn);
    }
}

/// The passes that are held: which, and until which pass of the other worker is noted.
const HOLDS: [(u8, u64, u8, u64); 4] = [(2, 1, 1, 2), (1, 2, 2, 2), (2, 2, 1, 3), (1, 3, 2, 3)];

/// Notes the passes, and holds four of them, so that the turns of two workers alternate.
#[derive(Drop)]
struct Alternating {
    noted: Noted,
}

impl Gate for Alternating {
    fn pass(&self, worker: u8, turn: u64) {
        self.noted.note(worker, turn);
        for (held, at, other, until) in HOLDS {
            if worker == held && turn == at {
                self.noted.hold_until(other, until);
            }
        }
    }
}

/// Holds the first worker at its first turn of each solving, until the second is at its own of the same.
#[derive(Drop)]
struct Meeting {
    // At how many first turns each has come.
    first: AtomicU64,
    second: AtomicU64,
    // Whether a hold has run out.
    late: AtomicU64,
}

impl Meeting {
    fn new() -> Meeting {
        Meeting {
            first: AtomicU64::new(0),
            second: AtomicU64::new(0),
            late: AtomicU64::new(0),
        }
    }

    // Waits until the second worker has come as often, for at most a million turns.
    fn hold(&self, solving: u64) {
        for _ in 0..1_000_000 {
            if self.second.load(Ordering::SeqCst) >= solving {
                return;
            }
            yield_now();
        }
        self.late.store(1, Ordering::SeqCst);
    }

    // Whether there was something to solve, both came as often, and no hold ran out.
    fn has_met(&self) -> bool {
        let solvings = self.first.load(Ordering::SeqCst);
        solvings > 0
            && self.second.load(Ordering::SeqCst) == solvings
            && self.late.load(Ordering::SeqCst) == 0
    }
}

impl Gate for Meeting {
    fn pass(&self, worker: u8, turn: u64) {
        if worker == 1 && turn == 1 {
            let solving = self.first.load(Ordering::SeqCst).saturating_add(1);
            self.first.store(solving, Ordering::SeqCst);
            self.hold(solving);
        } else if worker == 2 && turn == 1 {
            let solving = self.second.load(Ordering::SeqCst).saturating_add(1);
            self.second.store(solving, Ordering::SeqCst);
        }
    }
}

// ---- tests

const ZERO: Range = Range { low: 0, high: 0 };

// What the last router of the line may hold: what came over all three others.
fn at_the_last() -> Row {
    let routers = Bits64::EMPTY.with(0).with(1).with(2);
    Row {
        weight: ZERO,
        length: Range { low: 3, high: 3 },
        may: routers,
        must: routers,
        ..LOCAL
    }
}

/// The workers see each other's raises while they run: of two turns each that the gate lets in one after another, the
/// second needs what the first has raised.
#[test]
fn worker_turns(rt: HostRuntime) -> Result<(), Fail> {
    let net = network_of(rt.alloc(), &LINE, 4)?;
    let gate = Alternating {
        noted: Noted::new(),
    };
    let rows = rows_of(&rt, rt.alloc(), &net, 2, &gate)?;
    holds(&rt, gate.noted.has_noted(3, 3));
    holds(&rt, rows.as_slice().last() == Some(&at_the_last()));
    Ok(())
}

/// One pass in ascending order brings a route to all of a line; against the order each pass brings it to one router more.
#[test]
fn turns_of_one_worker(rt: HostRuntime) -> Result<(), Fail> {
    let alloc = rt.alloc();
    let net = network_of(alloc, &LINE, 4)?;
    let gate = Noted::new();
    let rows = rows_of(&rt, alloc, &net, 1, &gate)?;
    holds_at(&rt, "from the first router on", gate.has_noted(2, 0));
    holds(&rt, rows.as_slice().last() == Some(&at_the_last()));
    let net = network_of(alloc, &LINE_FROM_THE_LAST, 4)?;
    let gate = Noted::new();
    let rows = rows_of(&rt, alloc, &net, 1, &gate)?;
    holds_at(&rt, "from the last router on", gate.has_noted(5, 0));
    holds(&rt, rows.as_slice().last() == Some(&LOCAL));
    Ok(())
}

// Whether 1, 2, 3 and 8 workers give what the plain solver gives.
fn all_give_the_same<R: Threads + Sync>(
    rt: &R,
    alloc: Global,
    texts: &[&str],
    routers: usize,
) -> Result<bool, Fail> {
    let net = network_of(alloc, texts, routers)?;
    let wanted = plain_rows_of(alloc, &net)?;
    for workers in [1, 2, 3, 8] {
        let rows = rows_of(rt, alloc, &net, workers, &OpenGate)?;
        if rows.as_slice() != wanted.as_slice() {
            return Ok(false);
        }
    }
    Ok(true)
}

#[test]
fn workers_do_not_matter(rt: HostRuntime) -> Result<(), Fail> {
    let alloc = rt.alloc();
    holds_at(&rt, "a line", all_give_the_same(&rt, alloc, &LINE, 4)?);
    holds_at(&rt, "a ring", all_give_the_same(&rt, alloc, &RING, 3)?);
    holds_at(&rt, "no router", all_give_the_same(&rt, alloc, &[], 0)?);
    Ok(())
}

const LADDER: &[u8] =
    b"route certificate report, version 1\nbase: routers 0, links 0, solved 0 of 0\nnew: routers 6, links 7, solved 22 of 29\nfar-1: base not applicable by unknown router; new certified\nfar-2: base not applicable by unknown router; new not certified at {0,1} by no sure route at b02\nA certified property holds in every stable solution. That one exists is not claimed.\n";

// Whether two workers under a gate report on the ladder of three columns, with a counter of the ledger that the blank
// names.
fn ladder_under<R: Threads + Sync, G: Gate + Sync, L: Ledger>(
    rt: &R,
    alloc: Global,
    gate: &G,
    blank: Blank,
) -> Result<bool, NoMemory>
    requires name { blank.name ≡ L.name }
    requires parts { blank.parts ≡ L.parts }
    requires some { 0 < blank.parts }
{
    let mut words = Vec::new(alloc);
    for word in ["gen", "3", "2"] {
        words.push(Text::from_str(alloc, word)?)?;
    }
    let mut shelf = MemShelf::new(alloc, List::new(alloc), &[])?;
    let mut out = MemSink::new(alloc, 1_024, &[])?;
    let mut steps: Steps<L> = Steps::open(blank);
    let words = words.as_slice();
    let status = run(rt, alloc, words, &mut shelf, &mut out, gate, &mut steps).code();
    Ok(status == 1 && out.bytes() == LADDER)
}

// The same with a counter of its own.
fn ladder_counted<R: Threads + Sync, G: Gate + Sync>(
    rt: &R,
    alloc: Global,
    gate: &G,
) -> Result<bool, NoMemory> {
    ladder_under::<R, G, Brand>(rt, alloc, gate, Blank::new(1))
}

/// The workers run side by side: the second is at its first turn while the first is held at its own.
#[test]
fn workers_of_a_ladder(rt: HostRuntime) -> Result<(), Fail> {
    let gate = Meeting::new();
    holds(&rt, ladder_counted(&rt, rt.alloc(), &gate)?);
    holds(&rt, gate.has_met());
    Ok(())
}
