//! Why a change is not judged.

use net_types::{BundleRefusal, BundleSide, FormRefusal, NoMemory};
use std::alloc::AllocError;

/// Why a change is refused: the first of these that stands, the side before the change being first. Files are
/// numbered in the list of their side.
#[derive(Debug, Drop)]
pub enum JudgeRefusal {
    /// The files of this side make no network.
    Bundle(BundleSide, BundleRefusal),
    /// The book is refused.
    Book(FormRefusal),
    /// In the network of this side the book has this many cases of a prefix and failed links, which are more than
    /// 50,000.
    CasesLimit(BundleSide, u64),
}

/// Why a change is not judged.
#[derive(Debug, Drop)]
pub enum NotJudged {
    /// It is refused.
    Refused(JudgeRefusal),
    /// There was no memory.
    NoMemory,
}

impl From<AllocError> for NotJudged {
    ghost use Rattle.std.specs.Prelude.{◌≡◌};
    ghost use Rattle.judging.specs.declared.refusals.NotJudged.TheVariants.{NoMemory};

    ghost from_gives = { λ _ why. why ≡ NoMemory };

    fn from(_error: AllocError) -> NotJudged {
        NotJudged::NoMemory
    }
}

impl From<NoMemory> for NotJudged {
    ghost use Rattle.std.specs.Prelude.{◌≡◌};
    ghost use Rattle.judging.specs.declared.refusals.NotJudged.TheVariants.{NoMemory};

    ghost from_gives = { λ _ why. why ≡ NoMemory };

    fn from(_error: NoMemory) -> NotJudged {
        NotJudged::NoMemory
    }
}
