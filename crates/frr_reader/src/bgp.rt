//! BGP of a file, so far, and what each of its rows does to it.

ghost use Rattle.std.specs.Prelude.{◌≡◌, ◌<◌, IfOk, IfSome, MatchOption, All, Some, None, option_and_then, is_some};
ghost use Rattle.std.specs.List.{list_any};
ghost use Rattle.net_types.specs.Prefixes.{same_prefix};
ghost use Rattle.frr_reader.specs.Answers.{Takes};
ghost use Rattle.frr_reader.specs.Values.{as_of, one};
ghost use Rattle.frr_reader.specs.Bgp.{fresh_bgp, second, address_in, place_of_neighbor, named_neighbor, no_policy_line, other_as, fresh_neighbor, remote_as_line, direction_of, map_and_direction, map_in, neighbor_map_line, bgp_network_line, redistribution, is_redistributed, connected_line, from_ospf_line, of_neighbor_line, bgp_effect, map_behind, named_map};

use crate::by_key::{Neighbors, Prefixes};
use crate::causes::{BAD_VALUE, LineRefusal, OUT_OF_PLACE, REPEATED};
use crate::rows::{BgpRow, Direction};
use crate::values;
use frr_policy::Words;
use net_types::{BgpConfig, Neighbor, Prefix, Redistribute, read_address};
use std::alloc::{AllocError, Global};
use std::marker::Model;

/// BGP of a file, so far.
#[derive(Debug, Drop)]
pub struct Bgp {
    asn: u32,
    needs_policy: bool,
    networks: Prefixes,
    connected: Redistribute,
    ospf: Redistribute,
    neighbors: Neighbors,
}

impl Model for Bgp {
    ghost use Rattle.net_types.specs.declared.config.BgpConfig.{BgpConfig};

    ghost Value = { BgpConfig };

    ghost view = { λ b. record { asn = b.asn; needs_policy = b.needs_policy; networks = b.networks; connected = b.connected; ospf = b.ospf; neighbors = b.neighbors } };
}

impl Bgp {
    /// BGP of this AS, of which nothing else is known.
    pub fn new(alloc: Global, asn: u32) -> Bgp
        ensures { result ≡ fresh_bgp asn }
    {
        Bgp {
            asn,
            needs_policy: true,
            networks: Prefixes::new(alloc),
            connected: Redistribute::No,
            ospf: Redistribute::No,
            neighbors: Neighbors::new(alloc),
        }
    }

    /// The AS number.
    pub fn asn(&self) -> u32
        ensures { result ≡ self.now.asn }
    {
        self.asn
    }

    /// BGP as a configuration has it.
    pub fn finish(self) -> BgpConfig
        ensures { result ≡ self }
    {
        BgpConfig {
            asn: self.asn,
            needs_policy: self.needs_policy,
            networks: self.networks.into_list(),
            connected: self.connected,
            ospf: self.ospf,
            neighbors: self.neighbors.into_list(),
        }
    }

    /// What a row does, given the words of the line and those behind the row's head.
    #[tactic(auto, unfolding(crate::specs::Bgp::bgp_effect))]
    pub fn take(
        &mut self,
        alloc: Global,
        row: BgpRow,
        line: &Words<'_>,
        rest: &Words<'_>,
    ) -> Result<(), LineRefusal>
        ensures { Takes (bgp_effect row line.now rest.now self.old) self.new result }
    {
        match row {
            BgpRow::NoPolicy => self.take_no_policy(rest),
            BgpRow::RemoteAs => self.take_remote_as(line, rest),
            BgpRow::NeighborMap => self.take_neighbor_map(alloc, line, rest),
            BgpRow::BgpNetwork => self.take_network(rest),
            BgpRow::Connected => self.take_connected(alloc, rest),
            BgpRow::FromOspf => self.take_from_ospf(alloc, rest),
            BgpRow::OfNeighbor => self.take_of_neighbor(line),
        }
    }

    #[tactic(auto, unfolding(crate::specs::Bgp::no_policy_line))]
    fn take_no_policy(&mut self, rest: &Words<'_>) -> Result<(), LineRefusal>
        ensures { Takes (no_policy_line rest.now self.old) self.new result }
    {
        if !values::is_nothing(rest) {
            return Err(BAD_VALUE);
        }
        self.needs_policy = false;
        Ok(())
    }

    // The place of the neighbor with this address.
    fn place_of(&self, address: u32) -> Option<usize>
        ensures { result ≡ place_of_neighbor address self.now.neighbors }
    {
        self.neighbors.place_of(address)
    }

    // The place of the neighbor that the line names.
    fn named(&self, line: &Words<'_>) -> Option<usize>
        ensures { result ≡ named_neighbor line.now self.now }
    {
        self.place_of(address_in(line)?)
    }

    // An AS number behind the head that is not the file's own.
    fn other_as(&self, rest: &Words<'_>) -> Option<u32>
        ensures { result ≡ option_and_then (other_as self.now.asn) (one as_of rest.now) }
    {
        let asn = values::asn(rest)?;
        if asn == self.asn { None } else { Some(asn) }
    }

    #[tactic(auto, unfolding(crate::specs::Bgp::remote_as_line))]
    fn take_remote_as(&mut self, line: &Words<'_>, rest: &Words<'_>) -> Result<(), LineRefusal>
        ensures { Takes (remote_as_line line.now rest.now self.old) self.new result }
    {
        let Some(address) = address_in(line) else {
            return Err(BAD_VALUE);
        };
        let Some(asn) = self.other_as(rest) else {
            return Err(BAD_VALUE);
        };
        if self.place_of(address).is_some() {
            return Err(REPEATED);
        }
        self.neighbors.push(fresh_neighbor(address, asn))?;
        Ok(())
    }

    #[tactic(auto, unfolding(crate::specs::Bgp::neighbor_map_line))]
    fn take_neighbor_map(
        &mut self,
        alloc: Global,
        line: &Words<'_>,
        rest: &Words<'_>,
    ) -> Result<(), LineRefusal>
        ensures { Takes (neighbor_map_line line.now rest.now self.old) self.new result }
    {
        let Some(place) = self.named(line) else {
            return Err(OUT_OF_PLACE);
        };
        let Some((name, direction)) = map_and_direction(rest) else {
            return Err(BAD_VALUE);
        };
        let Some(neighbor) = self.neighbors.as_slice().get(place) else {
            return Err(OUT_OF_PLACE);
        };
        if has_map(direction, neighbor) {
            return Err(REPEATED);
        }
        let name = values::ascii_text(alloc, name)?;
        self.neighbors.set_map(place, direction, name);
        Ok(())
    }

    // Whether a `network` line of this prefix stands before.
    fn has_network(&self, prefix: &Prefix) -> bool
        ensures { result ≡ list_any (λ p. same_prefix p prefix.now) self.now.networks }
    {
        self.networks.has(prefix)
    }

    #[tactic(auto, unfolding(crate::specs::Bgp::bgp_network_line))]
    fn take_network(&mut self, rest: &Words<'_>) -> Result<(), LineRefusal>
        ensures { Takes (bgp_network_line rest.now self.old) self.new result }
    {
        let Some(prefix) = values::masked_prefix(rest) else {
            return Err(BAD_VALUE);
        };
        if self.has_network(&prefix) {
            return Err(REPEATED);
        }
        self.networks.push(prefix)?;
        Ok(())
    }

    #[tactic(auto, unfolding(crate::specs::Bgp::connected_line))]
    fn take_connected(&mut self, alloc: Global, rest: &Words<'_>) -> Result<(), LineRefusal>
        ensures { Takes (connected_line rest.now self.old) self.new result }
    {
        let Some(how) = redistribution(alloc, rest)? else {
            return Err(BAD_VALUE);
        };
        if is_redistributed(&self.connected) {
            return Err(REPEATED);
        }
        self.connected = how;
        Ok(())
    }

    #[tactic(auto, unfolding(crate::specs::Bgp::from_ospf_line))]
    fn take_from_ospf(&mut self, alloc: Global, rest: &Words<'_>) -> Result<(), LineRefusal>
        ensures { Takes (from_ospf_line rest.now self.old) self.new result }
    {
        let Some(how) = redistribution(alloc, rest)? else {
            return Err(BAD_VALUE);
        };
        if is_redistributed(&self.ospf) {
            return Err(REPEATED);
        }
        self.ospf = how;
        Ok(())
    }

    #[tactic(auto, unfolding(crate::specs::Bgp::of_neighbor_line))]
    fn take_of_neighbor(&mut self, line: &Words<'_>) -> Result<(), LineRefusal>
        ensures { Takes (of_neighbor_line line.now self.old) self.new result }
    {
        match self.named(line) {
            Some(_place) => Ok(()),
            None => Err(OUT_OF_PLACE),
        }
    }
}

// The second word.
fn second<'a>(line: &Words<'a>) -> Option<&'a [u8]>
    ensures { MatchOption result (second line.now ≡ None) (λ word. second line.now ≡ Some word.now) }
{
    let mut line = line.again();
    let _first = line.next()?;
    line.next()
}

// The address behind `neighbor`.
fn address_in(line: &Words<'_>) -> Option<u32>
    ensures { result ≡ address_in line.now }
{
    read_address(second(line)?)
}

// A neighbor of which nothing else is known.
fn fresh_neighbor(address: u32, asn: u32) -> Neighbor
    ensures { result ≡ fresh_neighbor address asn }
{
    Neighbor {
        address,
        asn,
        import: None,
        export: None,
    }
}

fn direction_of(word: &[u8]) -> Option<Direction>
    ensures { result ≡ direction_of word.now }
{
    if values::is_same(b"in", word) {
        Some(Direction::Import)
    } else if values::is_same(b"out", word) {
        Some(Direction::Export)
    } else {
        None
    }
}

// The name of a map, then `in` or `out`.
fn map_and_direction<'a>(rest: &Words<'a>) -> Option<(&'a [u8], Direction)>
    ensures ascii { IfSome result (λ m. All (λ b. b < 128) m.0.now) }
    ensures value { MatchOption result (map_and_direction rest.now ≡ None) (λ m. map_and_direction rest.now ≡ Some (m.0.now, m.1)) }
{
    let (name, word) = values::two(rest)?;
    let name = values::name_of(name)?;
    let direction = direction_of(word)?;
    Some((name, direction))
}

fn has_map(direction: Direction, neighbor: &Neighbor) -> bool
    ensures { result ≡ is_some (map_in direction neighbor.now) }
{
    match direction {
        Direction::Import => neighbor.import.is_some(),
        Direction::Export => neighbor.export.is_some(),
    }
}

fn is_redistributed(how: &Redistribute) -> bool
    ensures { result ≡ is_redistributed how.now }
{
    match how {
        Redistribute::No => false,
        Redistribute::Plain | Redistribute::By(_) => true,
    }
}

// The name behind `route-map`, where there are these two words alone.
fn map_behind<'a>(rest: &Words<'a>) -> Option<&'a [u8]>
    ensures ascii { IfSome result (λ name. All (λ b. b < 128) name.now) }
    ensures value { MatchOption result (map_behind rest.now ≡ None) (λ name. map_behind rest.now ≡ Some name.now) }
{
    let (word, name) = values::two(rest)?;
    if values::is_same(b"route-map", word) {
        values::name_of(name)
    } else {
        None
    }
}

// How a `redistribute` line redistributes; none where what is behind its head does not fit.
fn redistribution(alloc: Global, rest: &Words<'_>) -> Result<Option<Redistribute>, AllocError>
    ensures { IfOk result (λ how. how ≡ redistribution rest.now) }
{
    if values::is_nothing(rest) {
        return Ok(Some(Redistribute::Plain));
    }
    match map_behind(rest) {
        Some(name) => Ok(Some(Redistribute::By(values::ascii_text(alloc, name)?))),
        None => Ok(None),
    }
}

/// The route map that a line of this row names, given the words behind the row's head.
#[tactic(auto, unfolding(crate::specs::Bgp::named_map))]
pub fn named_map<'a>(row: BgpRow, rest: &Words<'a>) -> Option<&'a [u8]>
    ensures ascii { IfSome result (λ name. All (λ b. b < 128) name.now) }
    ensures value { MatchOption result (named_map row rest.now ≡ None) (λ name. named_map row rest.now ≡ Some name.now) }
{
    match row {
        BgpRow::NeighborMap => {
            let (name, _direction) = map_and_direction(rest)?;
            Some(name)
        }
        BgpRow::Connected | BgpRow::FromOspf => map_behind(rest),
        BgpRow::NoPolicy | BgpRow::RemoteAs | BgpRow::BgpNetwork | BgpRow::OfNeighbor => None,
    }
}
