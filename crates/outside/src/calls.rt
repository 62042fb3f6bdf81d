//! The calls of an object in memory, and those of them that are to fail.

ghost use Rattle.std.specs.Prelude.{◌≡◌, ◌==◌, option_and_then};
ghost use Rattle.std.specs.List.{list_any};
ghost use Rattle.outside.specs.Calls.{following};

use crate::Failed;
use net_types::{List, NoMemory};
use std::alloc::Global;
use std::marker::Model;

/// Counts the calls of an object in memory from 1, and its faults, and knows which calls fail.
/// Calls past the greatest `u64` have no number, and none of them fails; the count of faults stands still there.
#[derive(Debug, Drop)]
pub struct Calls {
    next: Option<u64>,
    failing: List<u64>,
    faults: u64,
}

impl Model for Calls {
    ghost use Rattle.outside.specs.Calls.{CallsValue};

    ghost Value = { CallsValue };

    ghost view = { λ it. record { next = it.next; failing = it.failing; faults = it.faults } };
}

impl Calls {
    ghost use Rattle.std.specs.Prelude.{◌≡◌, ◌≤◌, IfOk, Some, is_err};
    ghost use Rattle.outside.specs.Calls.{fails, begun, with_fault};

    /// No call yet, and no fault.
    pub fn new(alloc: Global, failing: &[u64]) -> Result<Calls, NoMemory>
        ensures { IfOk result (λ calls. calls ≡ record { next = Some 1; failing = failing.now; faults = 0 }) }
    {
        Ok(Calls {
            next: Some(1),
            failing: List::from_slice(alloc, failing)?,
            faults: 0,
        })
    }

    /// Counts a call.
    ///
    /// # Errors
    /// `Failed` exactly where it is one of those that fail, whose fault is counted too.
    pub fn begin(&mut self) -> Result<(), Failed>
        ensures answer { is_err result ≡ fails self.old }
        ensures after { self.new ≡ begun self.old }
        ensures kept { self.old.faults ≤ self.new.faults }
    {
        let failed = self.is_next_listed();
        self.next = following(self.next);
        if failed {
            self.rise();
            return Err(Failed);
        }
        Ok(())
    }

    /// Counts one more fault.
    pub fn rise(&mut self)
        ensures after { self.new ≡ with_fault self.old }
        ensures kept { self.old.faults ≤ self.new.faults }
    {
        self.faults = self.faults.saturating_add(1);
    }

    // Whether the next call is to fail.
    fn is_next_listed(&self) -> bool
        ensures { result ≡ fails self.now }
    {
        match self.next {
            Some(next) => has(self.failing.as_slice(), next),
            None => false,
        }
    }
}

// Whether the number is in the list.
fn has(numbers: &[u64], number: u64) -> bool
    ensures { result ≡ list_any (λ n. n == number) numbers.now }
{
    numbers.iter().any(|n| *n == number)
}

// The number of the call that follows.
fn following(next: Option<u64>) -> Option<u64>
    ensures { result ≡ option_and_then following next }
{
    next.and_then(|n| n.checked_add(1))
}
