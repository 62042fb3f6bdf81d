//! What a test asserts. Each use of `assert!` costs the prover seconds, so the tests call this instead; and since
//! only tests may abort, each crate of tests has its own.

ghost use Rattle.std.specs.Prelude.{◌≡◌, true};

use std::process::Abort;

/// Ends the test unless the fact holds.
pub fn holds(rt: &impl Abort, fact: bool)
    ensures { fact ≡ true }
{
    assert!(rt; fact);
}
