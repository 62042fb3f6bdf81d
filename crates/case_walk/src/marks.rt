//! How a solved case changes the verdicts of a book.

ghost use Rattle.std.specs.Prelude.{◌≡◌, length};
ghost use Rattle.case_walk.specs.Marks.{AllTurn, IsMarked, is_asked, verdict_with};

use crate::counts::is_of;
use crate::reader::CaseReader;
use net_types::{FailSet, Net, Prefix};
use property_book::{Broken, Property, Verdict};

// The verdict with one set more.
fn verdict_with(verdict: Verdict, set: FailSet, answer: Option<Broken>) -> Verdict
    ensures { result ≡ verdict_with verdict set answer }
{
    match (verdict, answer) {
        (Verdict::Certified, Some(broken)) => Verdict::NotCertified(set, broken),
        _ => verdict,
    }
}

// Whether the property asks of the case.
fn is_asked(net: &Net, prefix: &Prefix, set: FailSet, property: &Property) -> bool
    ensures { result ≡ is_asked net.now prefix.now set property.now }
{
    is_of(net, prefix, property) && set.as_slice().len() <= usize::from(property.failures)
}

// A property's verdict with the case.
fn marked<S: CaseReader>(
    reader: &S,
    net: &Net,
    prefix: &Prefix,
    set: FailSet,
    found: &S::Found,
    property: &Property,
    verdict: Verdict,
) -> Verdict
    requires same { S.net reader.now ≡ net.now }
    requires case { S.is_result net.now prefix.now set found.now }
    ensures { IsMarked net.now (S.analysis net.now) prefix.now set property.now verdict result }
{
    if is_asked(net, prefix, set, property) {
        verdict_with(verdict, set, reader.implied(property, set, found))
    } else {
        verdict
    }
}

/// Marks the verdicts of the properties with the case.
pub(crate) fn mark<S: CaseReader>(
    reader: &S,
    net: &Net,
    prefix: &Prefix,
    set: FailSet,
    found: &S::Found,
    book: &[Property],
    verdicts: &mut [Verdict],
)
    requires same { S.net reader.now ≡ net.now }
    requires case { S.is_result net.now prefix.now set found.now }
    requires long { length book.now ≡ length verdicts.old }
    ensures { AllTurn (IsMarked net.now (S.analysis net.now) prefix.now set) book.now verdicts.old verdicts.new }
{
    for (j, property) in book.iter().enumerate() {
        verdicts[j] = marked(reader, net, prefix, set, found, property, verdicts[j]);
    }
}
