//! Items in order, each found by its name without a walk through the others.

ghost use Rattle.std.specs.Prelude.{◌≡◌, ◌≤◌, ◌<◌, ◌++◌, ◌∷◌, [], List as Seq, ℕ, OnOk, length, vec_len, vec_capacity};
ghost use Rattle.std.specs.List.{position_or_len};
ghost use Rattle.net_types.specs.Order.{same_text};
ghost use Rattle.frr_reader.specs.Places.{HasPlaces};

use net_types::{CommunityList, Interface, List, PrefixList, RouteMap, Text};
use std::alloc::{AllocError, Global};
use std::collections::BTreeMap;
use std::marker::Model;

/// What has a name.
pub trait Named {
    ghost name_of: { Self → Seq ℕ };

    /// The name.
    fn name(&self) -> &Text
        ensures { result.now ≡ name_of self.now };
}

impl Named for Interface {
    ghost name_of = { λ i. i.name };

    fn name(&self) -> &Text {
        &self.name
    }
}

impl Named for PrefixList {
    ghost name_of = { λ l. l.name };

    fn name(&self) -> &Text {
        &self.name
    }
}

impl Named for CommunityList {
    ghost name_of = { λ l. l.name };

    fn name(&self) -> &Text {
        &self.name
    }
}

impl Named for RouteMap {
    ghost name_of = { λ m. m.name };

    fn name(&self) -> &Text {
        &self.name
    }
}

/// Places by name.
pub type Places = BTreeMap<String, usize>;

/// Items in order, and the place of each name. Contracts see the list of the items.
#[derive(Debug, Drop)]
pub struct ByName<T: Named> {
    /// The items.
    pub items: Vec<T>,
    places: Places,
}

impl<T: Named> Model for ByName<T> {
    ghost use Rattle.std.specs.Prelude.{List as Seq};
    ghost use Rattle.std.specs.Coded.{coded_list};
    ghost use Rattle.frr_reader.specs.Places.{HasPlaces};

    ghost Value = { Seq T };

    ghost coded = { coded_list T.code };

    ghost view = { λ all. all.items.items };

    ghost invariant = { λ all. HasPlaces T.name_of all.items.items all.places };
}

impl<T: Named + Drop> ByName<T> {
    /// No items.
    #[tactic(auto, using(crate::proofs::PlaceLemmas::places_nil))]
    pub fn new(alloc: Global) -> ByName<T>
        ensures { result ≡ [] }
    {
        ByName {
            items: Vec::new(alloc),
            places: BTreeMap::new(alloc),
        }
    }

    /// The items.
    pub fn as_slice(&self) -> &[T]
        ensures { result.now ≡ self.now }
    {
        self.items.as_slice()
    }

    /// How many items there are.
    pub fn len(&self) -> usize
        ensures { result ≡ length self.now }
    {
        self.items.len()
    }

    /// The list of the items.
    pub fn into_list(self) -> List<T>
        ensures { result ≡ self }
    {
        List::from_vec(self.items)
    }

    /// The list of the items, and the place of each name.
    pub fn into_parts(self) -> (List<T>, Places)
        ensures items { result.0 ≡ self }
        ensures places { HasPlaces T.name_of self result.1 }
    {
        (List::from_vec(self.items), self.places)
    }

    /// The place of the item of this name, or how many there are.
    pub fn place_of(&self, name: &str) -> usize
        ensures { result ≡ position_or_len (λ x. same_text (T.name_of x) name.now) self.now }
    {
        match self.places.get(name) {
            Some(place) => *place,
            None => self.len(),
        }
    }

    /// Puts an item behind the others, none of which has its name.
    pub fn push(&mut self, alloc: Global, item: T) -> Result<(), AllocError>
        requires { length self.old ≤ position_or_len (λ x. same_text (T.name_of x) (T.name_of item)) self.old }
        ensures { OnOk result (self.new ≡ self.old ++ item ∷ []) }
    {
        let name = String::from_str(alloc, item.name().as_str())?;
        let place = self.len();
        self.items.reserve(1)?;
        self.places.insert(name, place)?;
        push_within(&mut self.items, item);
        Ok(())
    }
}

/// Puts an item behind the others, where there is room.
pub fn push_within<T: Drop>(items: &mut Vec<T>, item: T)
    requires { vec_len items.old < vec_capacity items.old }
    ensures { items.new.items ≡ items.old.items ++ item ∷ [] }
{
    let added = items.push(item);
    prove!(added.is_ok());
}
