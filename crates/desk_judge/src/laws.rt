//! What the judge's answers come to: each law is the contract of a function that does nothing.

ghost use Rattle.desk_judge.specs.Laws.{JudgedRunsHold, MeansNoMore, OutcomesAreOne, VerdictsAreOne};

/// A property has one verdict in a network, and a book one outcome: those of `specs/Verdict.antt`.
pub fn law_of_verdicts()
    ensures verdicts { VerdictsAreOne }
    ensures outcomes { OutcomesAreOne }
{}

/// No answer that is meant names a property that there is not.
pub fn law_of_meanings()
    ensures { MeansNoMore }
{}

/// Where a run says that no property lacks a certificate, each property of the book holds in the network after the
/// change.
pub fn law_of_judged_runs()
    ensures { JudgedRunsHold }
{}
