//! What the rounds leave of a network with a prefix and failed links.

ghost use Rattle.std.specs.Prelude.{◌≡◌, ◌<◌};

use crate::labelling::Labelling;
use net_types::NoMemory;
use outside::{OpenGate, Steps};
use refine_rounds::{CaseResult, solve_case};
use std::alloc::Global;
use std::marker::Brand;
use std::sync::ledger::{Blank, Ledger};
use std::thread::Threads;

// The result of the case, with a counter of the ledger that the blank names.
fn result_from<R: Threads + Sync, L: Ledger>(
    rt: &R,
    alloc: Global,
    labelling: &Labelling,
    blank: Blank,
) -> Result<CaseResult, NoMemory>
    requires name { blank.name ≡ L.name }
    requires parts { blank.parts ≡ L.parts }
    requires some { 0 < blank.parts }
{
    let mut steps: Steps<L> = Steps::open(blank);
    let (net, prefix) = (&labelling.net, labelling.labels.prefix);
    let failed = labelling.labels.failed;
    solve_case(rt, alloc, net, prefix, failed, 1, &OpenGate, &mut steps)
}

/// The result of the case of the prefix and the failed links.
pub fn result_of<R: Threads + Sync>(
    rt: &R,
    alloc: Global,
    labelling: &Labelling,
) -> Result<CaseResult, NoMemory> {
    result_from::<R, Brand>(rt, alloc, labelling, Blank::new(1))
}

/// The certain routers and what is alive, as words of bits.
pub fn sets_text(alloc: Global, found: &CaseResult) -> Result<String, NoMemory> {
    let (certain, alive) = (found.certain().word(), found.alive());
    let (up, down, locals) = (alive.up.word(), alive.down.word(), alive.locals.word());
    Ok(format!(in alloc; "certain {certain}\nup {up} down {down} locals {locals}\n")?)
}
