//! What is true of representatives and of the numbers of cases, stated over definitions: each law is the contract of a
//! function that does nothing.

ghost use Rattle.net_types.specs.NetValue.{NetValue};
ghost use Rattle.case_walk.specs.Laws.{CasesAreAskedOnce, FirstBrokenIsOwn, MostIsGreatest, NothingIsReused, OwnHaveNoSpareLink, RepresentativesAgree, RepresentativesAreOwn};

use crate::reader::CaseReader;

/// A set and its representative imply the same properties, and agree on the idle links outside the set; so the first
/// set in which a property is broken is its own representative.
pub fn law_of_representatives<S: CaseReader>()
    ensures agree { (net : NetValue) → RepresentativesAgree (S.analysis net) }
    ensures first { (net : NetValue) → FirstBrokenIsOwn (S.analysis net) }
{}

/// A set is its own representative where no link of it is idle without it, and each representative is its own.
pub fn law_of_own_sets()
    ensures spare { OwnHaveNoSpareLink }
    ensures own { RepresentativesAreOwn }
{}

/// Where no link is idle in any case, cases may be reused, each set is its own representative, and all cases are
/// solved.
pub fn law_of_no_idle_links<S: CaseReader>()
    ensures { (net : NetValue) → NothingIsReused (S.analysis net) }
{}

/// The cases of a book are those of the prefixes of its properties that apply, each once, with the sets that the most
/// permitting of its properties permits.
pub fn law_of_cases()
    ensures once { CasesAreAskedOnce }
    ensures most { MostIsGreatest }
{}
