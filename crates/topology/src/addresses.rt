//! The addresses of a configuration, in the form in which common ones are looked for.

ghost use Rattle.std.specs.Prelude.{◌≡◌, ◌==◌, IfOk, length, map};
ghost use Rattle.std.specs.List.{list_any};
ghost use Rattle.topology.specs.Addresses.{link_addresses, addresses_of, have_one};
ghost use Rattle.topology.specs.Communities.{ascending_numbers};

use crate::ascending::ascending;
use crate::interfaces::link_address;
use net_types::RouterConfig;
use std::alloc::{AllocError, Global};
use std::marker::Model;

/// Numbers in ascending order. Contracts see the list of them.
#[derive(Debug, Drop)]
pub struct Numbers {
    items: Vec<u32>,
}

impl Model for Numbers {
    ghost use Rattle.std.specs.Prelude.{List as Seq, ℕ};
    ghost use Rattle.std.specs.List.Sorted.{IsNonDecreasing};

    ghost Value = { Seq ℕ };

    ghost view = { λ n. n.items.items };

    ghost invariant = { λ n. IsNonDecreasing n.items.items };
}

impl Numbers {
    /// These numbers in ascending order, each once.
    pub fn of(alloc: Global, items: Vec<u32>) -> Result<Numbers, AllocError>
        ensures { IfOk result (λ n. n ≡ ascending_numbers items.items) }
    {
        let items = ascending(alloc, items)?;
        Ok(Numbers { items })
    }

    /// How many there are.
    pub fn len(&self) -> usize
        ensures { result ≡ length self.now }
    {
        self.items.len()
    }

    /// Whether the number is there.
    pub fn has(&self, number: u32) -> bool
        ensures { result ≡ list_any (λ n. number == n) self.now }
    {
        self.items.binary_search(&number).is_ok()
    }

    /// Whether some number is in both.
    pub fn have_one(&self, other: &Numbers) -> bool
        ensures { result ≡ have_one self.now other.now }
    {
        self.items.iter().any(|number| other.has(*number))
    }
}

/// The addresses of a configuration's live interfaces that can be ends of links.
#[derive(Debug, Drop)]
pub struct Addresses {
    /// Each of them.
    pub each: Numbers,
    /// Whether one stands twice.
    pub repeat: bool,
}

// The addresses as they stand.
fn link_addresses(alloc: Global, config: &RouterConfig) -> Result<Vec<u32>, AllocError>
    ensures { IfOk result (λ v. v.items ≡ link_addresses config.now) }
{
    let mut all = Vec::new(alloc);
    for interface in config.interfaces.as_slice() {
        if let Some(address) = link_address(interface) {
            all.push(address)?;
        }
    }
    Ok(all)
}

fn addresses_of(alloc: Global, config: &RouterConfig) -> Result<Addresses, AllocError>
    ensures { IfOk result (λ a. a ≡ addresses_of config.now) }
{
    let all = link_addresses(alloc, config)?;
    let count = all.len();
    let each = Numbers::of(alloc, all)?;
    let repeat = each.len() < count;
    Ok(Addresses { each, repeat })
}

/// The addresses of each configuration.
pub fn all_addresses(alloc: Global, configs: &[RouterConfig]) -> Result<Vec<Addresses>, AllocError>
    ensures { IfOk result (λ v. v.items ≡ map (λ c. addresses_of c) configs.now) }
{
    let mut all = Vec::new(alloc);
    for config in configs {
        all.push(addresses_of(alloc, config)?)?;
    }
    Ok(all)
}
