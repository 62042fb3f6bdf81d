//! The walk over the sets of one prefix.

ghost use Rattle.std.specs.Prelude.{ℕ, ◌≡◌, ◌<◌, ◌≤◌, ◌+◌, ◌^◌, length, IfOk, OnOk, Some, if◌then◌else◌};
ghost use Rattle.failure_sets.specs.SetOrder.{IsPermitted};
ghost use Rattle.refine_rounds.specs.Results.{result_of};
ghost use Rattle.failure_sets.specs.SetList.{failure_sets, place_of};
ghost use Rattle.case_walk.specs.Representatives.{is_own, representative, solved_count};
ghost use Rattle.case_walk.specs.Analysis.{AreReusable};
ghost use Rattle.case_walk.specs.Marks.{AllTurn, AreMarkedIf, IsMarked};
ghost use Rattle.case_walk.specs.Words.{AreWords, IsStep};
ghost use Rattle.case_walk.specs.Turns.{IsJudged};

use crate::marks::mark;
use crate::reader::{CaseReader, Workers};
use crate::words::{find_spare, word_at};
use failure_sets::{count, first, next};
use net_types::{Bits64, FailSet, List, Net, NoMemory, Prefix};
use outside::{Gate, Steps};
use property_book::{Property, Verdict};
use refine_rounds::{CaseResult, solve_case};
use std::alloc::Global;
use std::sync::ledger::Ledger;
use std::thread::Threads;

/// How far the walk has come: the words of the sets, and how many of them were solved.
#[derive(Debug, Drop)]
struct Sweep {
    words: List<Bits64>,
    solved: u64,
}

// The result of the case of the prefix and the set, at one tick.
fn solved<R: Threads + Sync, G: Gate + Sync, L: Ledger>(
    workers: &Workers<'_, R, G>,
    steps: &mut Steps<L>,
    alloc: Global,
    net: &Net,
    prefix: &Prefix,
    set: FailSet,
) -> Result<CaseResult, NoMemory>
    requires some { 0 < workers.now.count }
    requires crew { workers.now.count ≤ 8 }
    ensures case { IfOk result (λ case. case ≡ result_of net.now prefix.now set) }
    ensures tick { steps.new ≡ steps.old + 1 }
{
    let (rt, count, gate) = (workers.rt, workers.count, workers.gate);
    solve_case(rt, alloc, net, *prefix, set, count, gate, steps)
}

// The idle links of a set that is solved. The verdicts are marked with its case.
fn solve_word<S: CaseReader, R: Threads + Sync, G: Gate + Sync, L: Ledger>(
    reader: &S,
    workers: &Workers<'_, R, G>,
    steps: &mut Steps<L>,
    alloc: Global,
    net: &Net,
    book: &[Property],
    verdicts: &mut [Verdict],
    prefix: &Prefix,
    set: FailSet,
) -> Result<Bits64, NoMemory>
    requires same { S.net reader.now ≡ net.now }
    requires some { 0 < workers.now.count }
    requires crew { workers.now.count ≤ 8 }
    requires set { IsPermitted (length net.now.links) 3 set }
    requires long { length book.now ≡ length verdicts.old }
    ensures word { IfOk result (λ word. word ≡ (S.analysis net.now).idle prefix.now set) }
    ensures verdicts { OnOk result (AllTurn (IsMarked net.now (S.analysis net.now) prefix.now set) book.now verdicts.old verdicts.new) }
    ensures tick { steps.new ≡ steps.old + 1 }
{
    let case = solved(workers, steps, alloc, net, prefix, set)?;
    let found = reader.read(prefix, set, case);
    mark(reader, net, prefix, set, &found, book, verdicts);
    Ok(reader.idle(prefix, set, &found))
}

// The word of a set, and whether the set was solved for it.
fn word_for<S: CaseReader, R: Threads + Sync, G: Gate + Sync, L: Ledger>(
    reader: &S,
    workers: &Workers<'_, R, G>,
    steps: &mut Steps<L>,
    alloc: Global,
    net: &Net,
    words: &[Bits64],
    book: &[Property],
    verdicts: &mut [Verdict],
    links: u8,
    prefix: &Prefix,
    set: FailSet,
) -> Result<(Bits64, bool), NoMemory>
    requires few { links ≤ 64 }
    requires links { links ≡ length net.now.links }
    requires same { S.net reader.now ≡ net.now }
    requires some { 0 < workers.now.count }
    requires crew { workers.now.count ≤ 8 }
    requires set { IsPermitted links 3 set }
    requires place { place_of links set ≡ length words.now }
    requires long { length book.now ≡ length verdicts.old }
    requires reusable { AreReusable links (S.analysis net.now) }
    requires words { AreWords ((S.analysis net.now).idle prefix.now) links words.now }
    ensures word { IfOk result (λ found. found.0 ≡ (S.analysis net.now).idle prefix.now (representative ((S.analysis net.now).idle prefix.now) set)) }
    ensures own { IfOk result (λ found. found.1 ≡ is_own ((S.analysis net.now).idle prefix.now) set) }
    ensures verdicts { IfOk result (λ found. AreMarkedIf net.now (S.analysis net.now) prefix.now set found.1 book.now verdicts.old verdicts.new) }
    ensures tick { IfOk result (λ found. steps.new ≡ steps.old + (if found.1 then 1 else 0)) }
{
    match find_spare(words, links, set) {
        Some(link) => Ok((word_at(words, links, set.without(link)), false)),
        None => Ok((
            solve_word(
                reader, workers, steps, alloc, net, book, verdicts, prefix, set,
            )?,
            true,
        )),
    }
}

// The number with this set, which was solved or not.
fn more_solved(solved: u64, fresh: bool) -> u64
    requires { solved + 1 < 2 ^ 64 }
    ensures { result ≡ solved + (if fresh then 1 else 0) }
{
    if fresh { solved + 1 } else { solved }
}

// One set more.
fn step<S: CaseReader, R: Threads + Sync, G: Gate + Sync, L: Ledger>(
    reader: &S,
    workers: &Workers<'_, R, G>,
    steps: &mut Steps<L>,
    alloc: Global,
    net: &Net,
    sweep: &mut Sweep,
    book: &[Property],
    verdicts: &mut [Verdict],
    links: u8,
    prefix: &Prefix,
    set: FailSet,
) -> Result<(), NoMemory>
    requires few_links { links ≤ 64 }
    requires links { links ≡ length net.now.links }
    requires same { S.net reader.now ≡ net.now }
    requires some { 0 < workers.now.count }
    requires crew { workers.now.count ≤ 8 }
    requires set { IsPermitted links 3 set }
    requires place { place_of links set ≡ length sweep.old.words }
    requires few { sweep.old.solved + 1 < 2 ^ 64 }
    requires long { length book.now ≡ length verdicts.old }
    requires reusable { AreReusable links (S.analysis net.now) }
    requires words { AreWords ((S.analysis net.now).idle prefix.now) links sweep.old.words }
    ensures step { OnOk result (IsStep net.now (S.analysis net.now) links prefix.now book.now set sweep.old sweep.new verdicts.old verdicts.new) }
    ensures tick { OnOk result (steps.new + sweep.old.solved ≡ steps.old + sweep.new.solved) }
{
    let words = sweep.words.as_slice();
    let (word, fresh) = word_for(
        reader, workers, steps, alloc, net, words, book, verdicts, links, prefix, set,
    )?;
    sweep.words.push(word)?;
    sweep.solved = more_solved(sweep.solved, fresh);
    Ok(())
}

/// Goes over the sets of at most `most` links for one prefix: marks the verdicts of its properties, and says how many
/// sets were solved.
pub(crate) fn walk<S: CaseReader, R: Threads + Sync, G: Gate + Sync, L: Ledger>(
    reader: &S,
    workers: &Workers<'_, R, G>,
    steps: &mut Steps<L>,
    alloc: Global,
    net: &Net,
    book: &[Property],
    verdicts: &mut [Verdict],
    links: u8,
    most: u8,
    prefix: &Prefix,
) -> Result<u64, NoMemory>
    requires few { links ≤ 64 }
    requires links { links ≡ length net.now.links }
    requires most { most ≤ 3 }
    requires same { S.net reader.now ≡ net.now }
    requires some { 0 < workers.now.count }
    requires crew { workers.now.count ≤ 8 }
    requires long { length book.now ≡ length verdicts.old }
    requires reusable { AreReusable links (S.analysis net.now) }
    ensures judged { OnOk result (AllTurn (IsJudged net.now (S.analysis net.now) prefix.now most) book.now verdicts.old verdicts.new) }
    ensures solved { IfOk result (λ solved. solved ≡ solved_count ((S.analysis net.now).idle prefix.now) links most) }
    ensures small { IfOk result (λ solved. solved < 2 ^ 32) }
    ensures ticks { IfOk result (λ solved. steps.new ≡ steps.old + solved) }
{
    let total = count(links, most);
    let mut sweep = Sweep {
        words: List::new(alloc),
        solved: 0,
    };
    let mut at = Some(first());
    while let Some(set) = at {
        step(
            reader, workers, steps, alloc, net, &mut sweep, book, verdicts, links, prefix, set,
        )?;
        at = next(links, most, set);
    }
    Ok(sweep.solved)
}
