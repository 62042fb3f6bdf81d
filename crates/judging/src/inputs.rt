//! The networks and the book of a change, or the first of them that is refused.

ghost use Rattle.std.specs.Prelude.{◌≡◌, ◌≤◌, All, IfOk, Ok, length};
ghost use Rattle.property_book.specs.Book.{IsAsked};
ghost use Rattle.judging.specs.Inputs.{CanBeJudged, Judges, book_of, inputs_of, inputs_with, network_of, networks_of};

use crate::refusals::{JudgeRefusal, NotJudged};
use bundle_reader::read_bundle;
use net_types::{BundleRefusal, BundleSide, FormRefusal, List, Net, SourceFile};
use property_book::{Property, read_properties};
use std::alloc::Global;

/// What a change is judged by.
#[derive(Drop)]
pub struct Inputs {
    /// The network before the change.
    pub base: Net,
    /// The network after it.
    pub new: Net,
    /// The properties.
    pub book: List<Property>,
}

/// The networks of a change.
#[derive(Drop)]
pub(crate) struct Networks {
    /// The one before it.
    pub(crate) base: Net,
    /// The one after it.
    pub(crate) new: Net,
}

impl Networks {
    fn with(self, book: List<Property>) -> Inputs
        ensures { result ≡ record { base = self.base; new = self.new; book = book } }
    {
        let Networks { base, new } = self;
        Inputs { base, new, book }
    }
}

// The network of a side's files.
#[tactic(auto, unfolding(crate::specs::Inputs::network_of))]
fn network_of(alloc: Global, side: BundleSide, files: &[SourceFile]) -> Result<Net, NotJudged>
    ensures { Judges (network_of side files.now) result }
{
    match read_bundle(alloc, files) {
        Ok(net) => Ok(net),
        Err(BundleRefusal::NoMemory) => Err(NotJudged::NoMemory),
        Err(refusal) => Err(NotJudged::Refused(JudgeRefusal::Bundle(side, refusal))),
    }
}

// The book of a property file.
#[tactic(auto, unfolding(crate::specs::Inputs::book_of))]
fn book_of(alloc: Global, text: &[u8]) -> Result<List<Property>, NotJudged>
    ensures judges { Judges (book_of text.now) result }
    ensures asked { IfOk result (λ book. All IsAsked book) }
    ensures few { IfOk result (λ book. length book ≤ 64) }
{
    match read_properties(alloc, text) {
        Ok(book) => Ok(book),
        Err(FormRefusal::NoMemory) => Err(NotJudged::NoMemory),
        Err(refusal) => Err(NotJudged::Refused(JudgeRefusal::Book(refusal))),
    }
}

// The networks of the files before and after a change.
#[tactic(auto, unfolding(crate::specs::Inputs::networks_of))]
fn networks_of(
    alloc: Global,
    base: &[SourceFile],
    new: &[SourceFile],
) -> Result<Networks, NotJudged>
    ensures { Judges (networks_of base.now new.now) result }
{
    let base = network_of(alloc, BundleSide::Base, base)?;
    let new = network_of(alloc, BundleSide::New, new)?;
    Ok(Networks { base, new })
}

/// The networks of the files before and after a change, and the book of a property file.
///
/// # Errors
///
/// The first refusal that stands: of the files before, of those after, of the property file. Want of memory may
/// come at any time.
#[tactic(auto, unfolding(crate::specs::Inputs::inputs_with))]
pub fn read_inputs(
    alloc: Global,
    base: &[SourceFile],
    new: &[SourceFile],
    book: &[u8],
) -> Result<Inputs, NotJudged>
    ensures judges { Judges (inputs_of base.now new.now book.now) result }
    ensures judged { IfOk result (λ inputs. CanBeJudged inputs) }
{
    let networks = networks_of(alloc, base, new)?;
    let book = book_of(alloc, book)?;
    Ok(networks.with(book))
}

/// The networks of the files before and after a change, with this book.
///
/// # Errors
///
/// The first refusal that stands: of the files before, of those after. Want of memory may come at any time.
#[tactic(auto, unfolding(crate::specs::Inputs::inputs_with))]
pub fn inputs_of(
    alloc: Global,
    base: &[SourceFile],
    new: &[SourceFile],
    book: List<Property>,
) -> Result<Inputs, NotJudged>
    requires asked { All IsAsked book }
    requires few { length book ≤ 64 }
    ensures judges { Judges (inputs_with base.now new.now (Ok book)) result }
    ensures judged { IfOk result (λ inputs. CanBeJudged inputs) }
{
    Ok(networks_of(alloc, base, new)?.with(book))
}
