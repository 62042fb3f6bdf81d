//! What the rows of interfaces and of OSPF do.

ghost use Rattle.std.specs.Prelude.{◌≡◌, Some, IfOk, OnOk, MatchOption, slice_get, slice_set, true};
ghost use Rattle.frr_reader.specs.Answers.{Takes};
ghost use Rattle.frr_reader.specs.Effects.{fresh_interface, place_of, with_interface, interface_line, address_line, area_line, cost_line, shutdown_line, ospf_line, network_line};

use super::Reader;
use crate::by_name::ByName;
use crate::causes::{BAD_VALUE, LineRefusal, OUT_OF_PLACE, REPEATED};
use crate::modes::Mode;
use crate::values;
use frr_policy::Words;
use net_types::{Interface, List, Prefix, Text};
use std::alloc::{AllocError, Global};

impl Reader {
    #[tactic(auto, unfolding(crate::specs::Effects::interface_line))]
    pub(super) fn take_interface(
        &mut self,
        alloc: Global,
        rest: &Words<'_>,
    ) -> Result<(), LineRefusal>
        ensures { Takes (interface_line rest.now self.old) self.new result }
    {
        match values::name(rest) {
            None => Err(BAD_VALUE),
            Some(name) => {
                let name = values::ascii_text(alloc, name)?;
                self.open_place = open_interface(alloc, &mut self.interfaces, name)?;
                self.mode = Mode::InInterface;
                Ok(())
            }
        }
    }

    #[tactic(auto, unfolding(crate::specs::Effects::address_line))]
    pub(super) fn take_address(&mut self, rest: &Words<'_>) -> Result<(), LineRefusal>
        ensures { Takes (address_line rest.now self.old) self.new result }
    {
        let place = self.open_place;
        match values::interface_address(rest) {
            None => Err(BAD_VALUE),
            Some(_address) if place >= self.interfaces.len() => Err(OUT_OF_PLACE),
            Some(_address) if self.interfaces.as_slice()[place].address.is_some() => Err(REPEATED),
            Some(address) => {
                set_address(&mut self.interfaces, place, address);
                Ok(())
            }
        }
    }

    #[tactic(auto, unfolding(crate::specs::Effects::area_line))]
    pub(super) fn take_area(&mut self, rest: &Words<'_>) -> Result<(), LineRefusal>
        ensures { Takes (area_line rest.now self.old) self.new result }
    {
        let place = self.open_place;
        match values::area(rest) {
            None => Err(BAD_VALUE),
            Some(_area) if place >= self.interfaces.len() => Err(OUT_OF_PLACE),
            Some(_area) if self.interfaces.as_slice()[place].ospf => Err(REPEATED),
            Some(_area) => {
                set_ospf(&mut self.interfaces, place);
                Ok(())
            }
        }
    }

    #[tactic(auto, unfolding(crate::specs::Effects::cost_line))]
    pub(super) fn take_cost(&mut self, rest: &Words<'_>) -> Result<(), LineRefusal>
        ensures { Takes (cost_line rest.now self.old) self.new result }
    {
        let place = self.open_place;
        match values::cost(rest) {
            None => Err(BAD_VALUE),
            Some(_cost) if place >= self.interfaces.len() => Err(OUT_OF_PLACE),
            Some(_cost) if self.interfaces.as_slice()[place].cost.is_some() => Err(REPEATED),
            Some(cost) => {
                set_cost(&mut self.interfaces, place, cost);
                Ok(())
            }
        }
    }

    #[tactic(auto, unfolding(crate::specs::Effects::shutdown_line))]
    pub(super) fn take_shutdown(&mut self, rest: &Words<'_>) -> Result<(), LineRefusal>
        ensures { Takes (shutdown_line rest.now self.old) self.new result }
    {
        let place = self.open_place;
        if !values::is_nothing(rest) {
            return Err(BAD_VALUE);
        }
        if place >= self.interfaces.len() {
            return Err(OUT_OF_PLACE);
        }
        set_shutdown(&mut self.interfaces, place);
        Ok(())
    }

    #[tactic(auto, unfolding(crate::specs::Effects::ospf_line))]
    pub(super) fn take_ospf(&mut self, alloc: Global, rest: &Words<'_>) -> Result<(), LineRefusal>
        ensures { Takes (ospf_line rest.now self.old) self.new result }
    {
        if !values::is_nothing(rest) {
            return Err(BAD_VALUE);
        }
        if self.ospf.is_none() {
            self.ospf = Some(List::new(alloc));
        }
        self.mode = Mode::InOspf;
        Ok(())
    }

    #[tactic(auto, unfolding(crate::specs::Effects::network_line))]
    pub(super) fn take_network(&mut self, rest: &Words<'_>) -> Result<(), LineRefusal>
        ensures { Takes (network_line rest.now self.old) self.new result }
    {
        match values::network(rest) {
            None => Err(BAD_VALUE),
            Some(prefix) => {
                if let Some(prefixes) = &mut self.ospf {
                    prefixes.push(prefix)?;
                }
                Ok(())
            }
        }
    }
}

// An interface of which nothing but its name is known.
fn fresh_interface(name: Text) -> Interface
    ensures { result ≡ fresh_interface name }
{
    Interface {
        name,
        address: None,
        shutdown: false,
        ospf: false,
        cost: None,
    }
}

// The place of the interface of this name, which is put behind the others if it is not there.
fn open_interface(
    alloc: Global,
    interfaces: &mut ByName<Interface>,
    name: Text,
) -> Result<usize, AllocError>
    ensures place { IfOk result (λ place. place ≡ place_of name interfaces.old) }
    ensures there { OnOk result (interfaces.new ≡ with_interface name interfaces.old) }
{
    let place = interfaces.place_of(name.as_str());
    if place >= interfaces.len() {
        interfaces.push(alloc, fresh_interface(name))?;
    }
    Ok(place)
}

#[tactic(auto, using(crate::proofs::PlaceLemmas::places_set))]
fn set_address(interfaces: &mut ByName<Interface>, place: usize, address: (u32, Prefix))
    ensures { MatchOption (slice_get interfaces.old place) (interfaces.new ≡ interfaces.old) (λ i. interfaces.new ≡ slice_set interfaces.old place (record i { address = Some address })) }
{
    if place < interfaces.len() {
        interfaces.items[place].address = Some(address);
    }
}

#[tactic(auto, using(crate::proofs::PlaceLemmas::places_set))]
fn set_ospf(interfaces: &mut ByName<Interface>, place: usize)
    ensures { MatchOption (slice_get interfaces.old place) (interfaces.new ≡ interfaces.old) (λ i. interfaces.new ≡ slice_set interfaces.old place (record i { ospf = true })) }
{
    if place < interfaces.len() {
        interfaces.items[place].ospf = true;
    }
}

#[tactic(auto, using(crate::proofs::PlaceLemmas::places_set))]
fn set_cost(interfaces: &mut ByName<Interface>, place: usize, cost: u32)
    ensures { MatchOption (slice_get interfaces.old place) (interfaces.new ≡ interfaces.old) (λ i. interfaces.new ≡ slice_set interfaces.old place (record i { cost = Some cost })) }
{
    if place < interfaces.len() {
        interfaces.items[place].cost = Some(cost);
    }
}

#[tactic(auto, using(crate::proofs::PlaceLemmas::places_set))]
fn set_shutdown(interfaces: &mut ByName<Interface>, place: usize)
    ensures { MatchOption (slice_get interfaces.old place) (interfaces.new ≡ interfaces.old) (λ i. interfaces.new ≡ slice_set interfaces.old place (record i { shutdown = true })) }
{
    if place < interfaces.len() {
        interfaces.items[place].shutdown = true;
    }
}
