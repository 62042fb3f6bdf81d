//! Why a book gets no verdicts.

use net_types::NoMemory;

/// Why a book gets no verdicts.
#[derive(Clone, Copy, PartialEq, Eq, Debug)]
pub enum CertifyRefusal {
    /// It has this many cases, which are too many.
    CasesLimit(u64),
    /// There was no memory.
    NoMemory,
}

impl From<NoMemory> for CertifyRefusal {
    ghost use Rattle.std.specs.Prelude.{◌≡◌};
    ghost use Rattle.case_walk.specs.declared.refusal.CertifyRefusal.TheVariants.{NoMemory};

    ghost from_gives = { λ _ refusal. refusal ≡ NoMemory };

    fn from(_error: NoMemory) -> CertifyRefusal {
        CertifyRefusal::NoMemory
    }
}
