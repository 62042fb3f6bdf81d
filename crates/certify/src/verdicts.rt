//! The verdicts of a book.

ghost use Rattle.std.specs.Prelude.{◌≡◌, ◌≤◌, ◌<◌, All, IfOk, length};
ghost use Rattle.property_book.specs.Book.{IsAsked};
ghost use Rattle.certify.specs.Counts.{total_of};
ghost use Rattle.certify.specs.Verdicts.{Answers, Ticks};

use crate::reader::Reader;
use case_walk::{CertifyRefusal, Workers, verdicts_of};
use net_types::Net;
use outside::{Gate, Steps};
use property_book::{Outcome, Property};
use std::alloc::Global;
use std::sync::ledger::Ledger;
use std::thread::Threads;

/// How many cases a book has: for each prefix that a property which applies asks of, the sets of at most as many links as
/// the most permitting of its properties says. This project's own.
pub fn cases(net: &Net, book: &[Property]) -> u64
    requires asked { All IsAsked book.now }
    requires short { length book.now ≤ 64 }
    ensures { result ≡ total_of net.now book.now }
{
    case_walk::cases(net, book)
}

/// The verdict of each property of a book, in the book's order: certified where the result of each case that it asks of
/// implies it, else not certified at the first set of failed links where that is not so, with what is broken then; how many
/// cases there are, and how many were solved, each at one tick. The answer is the same for every number of workers, 1 to 8,
/// and every gate. This project's own.
///
/// # Errors
///
/// [`CertifyRefusal::CasesLimit`] where the book has more than 50,000 cases, before any is solved;
/// [`CertifyRefusal::NoMemory`] where there was none.
#[tactic(auto, using(crate::proofs::VerdictLemmas::answers))]
pub fn certify<R: Threads + Sync, G: Gate + Sync, L: Ledger>(
    rt: &R,
    alloc: Global,
    net: &Net,
    book: &[Property],
    workers: u8,
    gate: &G,
    steps: &mut Steps<L>,
) -> Result<Outcome, CertifyRefusal>
    requires asked { All IsAsked book.now }
    requires short { length book.now ≤ 64 }
    requires some { 0 < workers }
    requires few { workers ≤ 8 }
    ensures answers { Answers net.now book.now result }
    ensures long { IfOk result (λ outcome. length outcome.verdicts ≡ length book.now) }
    ensures ticks { Ticks steps.old steps.new result }
{
    net.valid();
    let workers = Workers {
        rt,
        count: workers,
        gate,
    };
    let reader = Reader { net };
    verdicts_of(&reader, &workers, steps, alloc, net, book)
}
