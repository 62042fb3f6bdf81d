//! The neighbors and the prefixes of BGP in order, each found without a walk through the others.

ghost use Rattle.std.specs.Prelude.{◌≡◌, ◌++◌, ◌∷◌, [], None, OnOk, MatchOption, false, length, slice_get, slice_set};
ghost use Rattle.std.specs.List.{list_any};
ghost use Rattle.net_types.specs.Prefixes.{same_prefix};
ghost use Rattle.frr_reader.specs.Bgp.{place_of_neighbor, with_map};

use crate::by_name::push_within;
use crate::rows::Direction;
use net_types::{List, Neighbor, Prefix, Text};
use std::alloc::{AllocError, Global};
use std::collections::BTreeMap;
use std::marker::Model;

/// Neighbors in order, and the place of each address. Contracts see the list of the neighbors.
#[derive(Debug, Drop)]
pub struct Neighbors {
    items: Vec<Neighbor>,
    places: BTreeMap<u32, usize>,
}

impl Model for Neighbors {
    ghost use Rattle.std.specs.Prelude.{List as Seq};
    ghost use Rattle.net_types.specs.declared.config.Neighbor.{Neighbor};
    ghost use Rattle.frr_reader.specs.Places.{HasAddressPlaces};

    ghost Value = { Seq Neighbor };

    ghost view = { λ all. all.items.items };

    ghost invariant = { λ all. HasAddressPlaces all.items.items all.places };
}

impl Neighbors {
    /// No neighbors.
    pub fn new(alloc: Global) -> Neighbors
        ensures { result ≡ [] }
    {
        Neighbors {
            items: Vec::new(alloc),
            places: BTreeMap::new(alloc),
        }
    }

    /// The neighbors.
    pub fn as_slice(&self) -> &[Neighbor]
        ensures { result.now ≡ self.now }
    {
        self.items.as_slice()
    }

    /// How many neighbors there are.
    fn len(&self) -> usize
        ensures { result ≡ length self.now }
    {
        self.items.len()
    }

    /// The list of the neighbors.
    pub fn into_list(self) -> List<Neighbor>
        ensures { result ≡ self }
    {
        List::from_vec(self.items)
    }

    /// The place of the neighbor of this address.
    pub fn place_of(&self, address: u32) -> Option<usize>
        ensures { result ≡ place_of_neighbor address self.now }
    {
        self.places.get(&address).copied()
    }

    /// Puts a neighbor behind the others, none of which has its address.
    pub fn push(&mut self, neighbor: Neighbor) -> Result<(), AllocError>
        requires { place_of_neighbor neighbor.address self.old ≡ None }
        ensures { OnOk result (self.new ≡ self.old ++ neighbor ∷ []) }
    {
        let place = self.len();
        self.items.reserve(1)?;
        self.places.insert(neighbor.address, place)?;
        push_within(&mut self.items, neighbor);
        Ok(())
    }

    /// Gives the neighbor at this place its map in a direction.
    pub fn set_map(&mut self, place: usize, direction: Direction, name: Text)
        ensures { MatchOption (slice_get self.old place) (self.new ≡ self.old) (λ n. self.new ≡ slice_set self.old place (with_map direction name n)) }
    {
        if place < self.items.len() {
            set_map(direction, name, &mut self.items[place]);
        }
    }
}

fn set_map(direction: Direction, name: Text, neighbor: &mut Neighbor)
    ensures { neighbor.new ≡ with_map direction name neighbor.old }
{
    match direction {
        Direction::Import => neighbor.import = Some(name),
        Direction::Export => neighbor.export = Some(name),
    }
}

/// Prefixes in order, and the place of each. Contracts see the list of them.
#[derive(Debug, Drop)]
pub struct Prefixes {
    items: Vec<Prefix>,
    places: BTreeMap<(u32, u8), usize>,
}

impl Model for Prefixes {
    ghost use Rattle.std.specs.Prelude.{List as Seq};
    ghost use Rattle.net_types.specs.PrefixValue.{PrefixValue};
    ghost use Rattle.frr_reader.specs.Places.{HasPrefixPlaces};

    ghost Value = { Seq PrefixValue };

    ghost view = { λ all. all.items.items };

    ghost invariant = { λ all. HasPrefixPlaces all.items.items all.places };
}

impl Prefixes {
    /// No prefixes.
    pub fn new(alloc: Global) -> Prefixes
        ensures { result ≡ [] }
    {
        Prefixes {
            items: Vec::new(alloc),
            places: BTreeMap::new(alloc),
        }
    }

    /// How many prefixes there are.
    fn len(&self) -> usize
        ensures { result ≡ length self.now }
    {
        self.items.len()
    }

    /// The list of the prefixes.
    pub fn into_list(self) -> List<Prefix>
        ensures { result ≡ self }
    {
        List::from_vec(self.items)
    }

    /// Whether this prefix is there.
    pub fn has(&self, prefix: &Prefix) -> bool
        ensures { result ≡ list_any (λ p. same_prefix p prefix.now) self.now }
    {
        self.places.contains_key(&(prefix.bits, prefix.len))
    }

    /// Puts a prefix behind the others, which it is not among.
    pub fn push(&mut self, prefix: Prefix) -> Result<(), AllocError>
        requires { list_any (λ p. same_prefix p prefix) self.old ≡ false }
        ensures { OnOk result (self.new ≡ self.old ++ prefix ∷ []) }
    {
        let place = self.len();
        self.items.reserve(1)?;
        self.places.insert((prefix.bits, prefix.len), place)?;
        push_within(&mut self.items, prefix);
        Ok(())
    }
}
