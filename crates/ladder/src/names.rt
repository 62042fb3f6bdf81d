//! The host names of a ladder.

ghost use Rattle.std.specs.Prelude.{◌≡◌, ◌<◌, ◌≤◌, ◌*◌, IfOk, string_bytes};
ghost use Rattle.ladder.specs.Names.{two_digits, host_name};

use net_types::NoMemory;
use std::alloc::Global;

// A number below 100 in two digits.
fn two_digits(alloc: Global, number: u8) -> Result<String, NoMemory>
    ensures { IfOk result (λ text. string_bytes text ≡ two_digits number) }
{
    let tens = number / 10;
    let ones = number % 10;
    Ok(format!(in alloc; "{tens}{ones}")?)
}

/// The host name of a router.
#[tactic(auto, unfolding(crate::specs::Names::host_name))]
pub(crate) fn host_name(alloc: Global, columns: u8, router: u8) -> Result<String, NoMemory>
    ensures { IfOk result (λ text. string_bytes text ≡ host_name columns router) }
{
    if router < columns {
        let digits = two_digits(alloc, router)?;
        Ok(format!(in alloc; "a{digits}")?)
    } else {
        let digits = two_digits(alloc, router - columns)?;
        Ok(format!(in alloc; "b{digits}")?)
    }
}
