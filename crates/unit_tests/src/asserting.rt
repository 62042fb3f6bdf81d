//! What a test asserts. Each use of `assert!` costs the prover seconds, so the tests call these instead; and since
//! only tests may abort, each crate of tests has its own.

ghost use Rattle.std.specs.Prelude.{◌≡◌, true};

use std::process::Abort;

/// Ends the test unless the fact holds.
pub fn holds(rt: &impl Abort, fact: bool)
    ensures { fact ≡ true }
{
    assert!(rt; fact);
}

/// The same, and says of which case.
pub fn holds_at(rt: &impl Abort, name: &str, fact: bool)
    ensures { fact ≡ true }
{
    assert!(rt; fact, "{name}");
}
