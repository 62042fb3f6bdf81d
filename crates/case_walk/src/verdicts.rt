//! The verdicts of a book.

ghost use Rattle.std.specs.Prelude.{ℕ, ◌≡◌, ◌<◌, ◌≤◌, ◌+◌, ◌^◌, All, length, map, IfOk, OnOk, if◌then◌else◌};
ghost use Rattle.std.specs.List.{AllZip};
ghost use Rattle.case_walk.specs.Analysis.{AreReusable};
ghost use Rattle.case_walk.specs.Representatives.{solved_count};
ghost use Rattle.case_walk.specs.Verdicts.{IsVerdict};
ghost use Rattle.case_walk.specs.Book.{is_lead, most_of, total_of, solved_of};
ghost use Rattle.case_walk.specs.Progress.{opening, Brings};
ghost use Rattle.case_walk.specs.Outcomes.{AreTicks, IsAnswer, IsOutcome};

use crate::counts::{cases, is_lead, link_count, most_of};
use crate::reader::{CaseReader, Workers};
use crate::refusal::CertifyRefusal;
use crate::walk::walk;
use net_types::{List, Net, NoMemory};
use outside::{Gate, Steps};
use property_book::{Outcome, Property, Verdict, applicable};
use std::alloc::Global;
use std::sync::ledger::Ledger;
use std::thread::Threads;

/// How many cases are solved at most.
const MOST_CASES: u64 = 50_000;

// A property's verdict before any case is solved.
fn opening(net: &Net, property: &Property) -> Verdict
    ensures { result ≡ opening net.now property.now }
{
    match applicable(net, property) {
        Some(bar) => Verdict::NotApplicable(bar),
        None => Verdict::Certified,
    }
}

// The verdicts before any case is solved.
fn openings(alloc: Global, net: &Net, book: &[Property]) -> Result<Vec<Verdict>, NoMemory>
    ensures { IfOk result (λ verdicts. verdicts.items ≡ map (opening net.now) book.now) }
{
    Ok(
        book.iter()
            .map(|property| opening(net, property))
            .collect(alloc)?,
    )
}

// Solves the cases of the property's prefix, if it leads, and says how many were solved.
fn solve_at<S: CaseReader, R: Threads + Sync, G: Gate + Sync, L: Ledger>(
    reader: &S,
    workers: &Workers<'_, R, G>,
    steps: &mut Steps<L>,
    alloc: Global,
    net: &Net,
    book: &[Property],
    verdicts: &mut [Verdict],
    links: u8,
    property: &Property,
    later: &[Property],
) -> Result<u64, NoMemory>
    requires few_links { links ≤ 64 }
    requires links { links ≡ length net.now.links }
    requires same { S.net reader.now ≡ net.now }
    requires some { 0 < workers.now.count }
    requires crew { workers.now.count ≤ 8 }
    requires few { All (λ property. property.failures ≤ 3) book.now }
    requires long { length book.now ≡ length verdicts.old }
    requires reusable { AreReusable links (S.analysis net.now) }
    ensures brings { OnOk result (Brings net.now (S.analysis net.now) book.now property.now (is_lead net.now property.now later.now) verdicts.old verdicts.new) }
    ensures solved { IfOk result (λ solved. solved ≡ (if is_lead net.now property.now later.now then solved_count ((S.analysis net.now).idle property.now.prefix) links (most_of net.now property.now.prefix book.now) else 0)) }
    ensures small { IfOk result (λ solved. solved < 2 ^ 32) }
    ensures ticks { IfOk result (λ solved. steps.new ≡ steps.old + solved) }
{
    if is_lead(net, property, later) {
        let most = most_of(net, &property.prefix, book);
        walk(
            reader,
            workers,
            steps,
            alloc,
            net,
            book,
            verdicts,
            links,
            most,
            &property.prefix,
        )
    } else {
        Ok(0)
    }
}

// Solves the cases of each prefix, and says how many were solved.
fn solve_all<S: CaseReader, R: Threads + Sync, G: Gate + Sync, L: Ledger>(
    reader: &S,
    workers: &Workers<'_, R, G>,
    steps: &mut Steps<L>,
    alloc: Global,
    net: &Net,
    book: &[Property],
    verdicts: &mut [Verdict],
    links: u8,
) -> Result<u64, NoMemory>
    requires few_links { links ≤ 64 }
    requires links { links ≡ length net.now.links }
    requires same { S.net reader.now ≡ net.now }
    requires some { 0 < workers.now.count }
    requires crew { workers.now.count ≤ 8 }
    requires few { All (λ property. property.failures ≤ 3) book.now }
    requires short { length book.now ≤ 64 }
    requires reusable { AreReusable links (S.analysis net.now) }
    requires opening { verdicts.old ≡ map (opening net.now) book.now }
    ensures verdicts { OnOk result (AllZip (IsVerdict net.now (S.analysis net.now)) book.now verdicts.new) }
    ensures long { OnOk result (length verdicts.new ≡ length book.now) }
    ensures solved { IfOk result (λ solved. solved ≡ solved_of net.now (S.analysis net.now) book.now) }
    ensures ticks { IfOk result (λ solved. steps.new ≡ steps.old + solved) }
{
    let mut solved = 0;
    for (i, property) in book.iter().enumerate() {
        let later = &book[i + 1..];
        solved += solve_at(
            reader, workers, steps, alloc, net, book, verdicts, links, property, later,
        )?;
    }
    Ok(solved)
}

// What is found of a book of few cases.
fn outcome_of<S: CaseReader, R: Threads + Sync, G: Gate + Sync, L: Ledger>(
    reader: &S,
    workers: &Workers<'_, R, G>,
    steps: &mut Steps<L>,
    alloc: Global,
    net: &Net,
    book: &[Property],
    total: u64,
) -> Result<Outcome, NoMemory>
    requires same { S.net reader.now ≡ net.now }
    requires some { 0 < workers.now.count }
    requires crew { workers.now.count ≤ 8 }
    requires few { All (λ property. property.failures ≤ 3) book.now }
    requires short { length book.now ≤ 64 }
    requires reusable { AreReusable (length net.now.links) (S.analysis net.now) }
    requires total { total ≡ total_of net.now book.now }
    ensures outcome { IfOk result (λ outcome. IsOutcome net.now (S.analysis net.now) book.now outcome) }
    ensures ticks { IfOk result (λ outcome. steps.new ≡ steps.old + outcome.solved) }
{
    let links = link_count(net);
    let mut verdicts = openings(alloc, net, book)?;
    let solved = solve_all(
        reader,
        workers,
        steps,
        alloc,
        net,
        book,
        &mut verdicts,
        links,
    )?;
    Ok(Outcome {
        verdicts: List::from_vec(verdicts),
        solved,
        total,
    })
}

/// The verdict of each property of a book over all failure sets that it permits, how many cases there are, and how many
/// of them were solved: those that are their own representative, each at one tick.
///
/// # Errors
///
/// [`CertifyRefusal::CasesLimit`] where the book has more than 50,000 cases, before any is solved;
/// [`CertifyRefusal::NoMemory`] where there was none.
pub fn verdicts_of<S: CaseReader, R: Threads + Sync, G: Gate + Sync, L: Ledger>(
    reader: &S,
    workers: &Workers<'_, R, G>,
    steps: &mut Steps<L>,
    alloc: Global,
    net: &Net,
    book: &[Property],
) -> Result<Outcome, CertifyRefusal>
    requires same { S.net reader.now ≡ net.now }
    requires some { 0 < workers.now.count }
    requires crew { workers.now.count ≤ 8 }
    requires few { All (λ property. property.failures ≤ 3) book.now }
    requires short { length book.now ≤ 64 }
    requires reusable { AreReusable (length net.now.links) (S.analysis net.now) }
    ensures answer { IsAnswer net.now (S.analysis net.now) book.now result }
    ensures ticks { AreTicks steps.old steps.new result }
{
    let total = cases(net, book);
    if total > MOST_CASES {
        return Err(CertifyRefusal::CasesLimit(total));
    }
    match outcome_of(reader, workers, steps, alloc, net, book, total) {
        Ok(outcome) => Ok(outcome),
        Err(NoMemory) => Err(CertifyRefusal::NoMemory),
    }
}
