//! What the rows of BGP, of lists and of maps do.

ghost use Rattle.std.specs.Prelude.{◌≡◌, OnOk};
ghost use Rattle.std.specs.Option.{option_copied};
ghost use Rattle.frr_reader.specs.Answers.{Takes};
ghost use Rattle.frr_reader.specs.Effects.{with_bgp, bgp_line, by_bgp, with_map_noted, of_bgp_line, family_line, prefix_list_line, community_list_line, open_entry, with_begun, with_change_noted, with_changed, map_row_line, exit_family_line};

use super::Reader;
use crate::bgp::{Bgp, named_map};
use crate::causes::{BAD_VALUE, LineRefusal, OUT_OF_PLACE, REPEATED};
use crate::modes::Mode;
use crate::needs::{self, Needed};
use crate::rows::BgpRow;
use crate::{entries, policy_lines, values};
use frr_policy::{MapStep, Words};
use net_types::{MapEntry, Text};
use std::alloc::{AllocError, Global};

impl Reader {
    // BGP of this AS is open: it is new, or opened once more.
    fn open_bgp(&mut self, alloc: Global, asn: u32) -> Result<(), LineRefusal>
        ensures { Takes (with_bgp asn self.old.bgp self.old) self.new result }
    {
        match &self.bgp {
            None => self.bgp = Some(Bgp::new(alloc, asn)),
            Some(bgp) if bgp.asn() == asn => {}
            Some(_bgp) => return Err(REPEATED),
        }
        self.mode = Mode::InBgp;
        Ok(())
    }

    #[tactic(auto, unfolding(crate::specs::Effects::bgp_line))]
    pub(super) fn take_bgp(&mut self, alloc: Global, rest: &Words<'_>) -> Result<(), LineRefusal>
        ensures { Takes (bgp_line rest.now self.old) self.new result }
    {
        match values::asn(rest) {
            None => Err(BAD_VALUE),
            Some(asn) => self.open_bgp(alloc, asn),
        }
    }

    // Notes the map that a row of BGP names.
    fn note_map(&mut self, alloc: Global, row: BgpRow, rest: &Words<'_>) -> Result<(), AllocError>
        ensures { OnOk result (self.new ≡ with_map_noted row rest.now self.old) }
    {
        if let Some(name) = named_map(row, rest) {
            let name = values::ascii_text(alloc, name)?;
            needs::note(&mut self.needed, self.number, Some(Needed::Map(name)))?;
        }
        Ok(())
    }

    // What a row of BGP makes of it.
    #[tactic(auto, unfolding(crate::specs::Effects::by_bgp))]
    fn change_bgp(
        &mut self,
        alloc: Global,
        row: BgpRow,
        line: &Words<'_>,
        rest: &Words<'_>,
    ) -> Result<(), LineRefusal>
        ensures { Takes (by_bgp row line.now rest.now self.old) self.new result }
    {
        match &mut self.bgp {
            None => Err(OUT_OF_PLACE),
            Some(bgp) => bgp.take(alloc, row, line, rest),
        }
    }

    #[tactic(auto, unfolding(crate::specs::Effects::of_bgp_line))]
    pub(super) fn take_of_bgp(
        &mut self,
        alloc: Global,
        row: BgpRow,
        line: &Words<'_>,
        rest: &Words<'_>,
    ) -> Result<(), LineRefusal>
        ensures { Takes (of_bgp_line row line.now rest.now self.old) self.new result }
    {
        self.change_bgp(alloc, row, line, rest)?;
        self.note_map(alloc, row, rest)?;
        Ok(())
    }

    #[tactic(auto, unfolding(crate::specs::Effects::family_line))]
    pub(super) fn take_family(&mut self, rest: &Words<'_>) -> Result<(), LineRefusal>
        ensures { Takes (family_line rest.now self.old) self.new result }
    {
        if self.bgp.is_none() {
            return Err(OUT_OF_PLACE);
        }
        if !values::is_unicast(rest) {
            return Err(BAD_VALUE);
        }
        self.mode = Mode::InFamily;
        Ok(())
    }

    #[tactic(auto, unfolding(crate::specs::Effects::prefix_list_line))]
    pub(super) fn take_prefix_list(
        &mut self,
        alloc: Global,
        rest: &Words<'_>,
    ) -> Result<(), LineRefusal>
        ensures { Takes (prefix_list_line rest.now self.old) self.new result }
    {
        let (name, entry) = policy_lines::prefix_entry(alloc, rest, &self.prefix_lists)?;
        entries::add_prefix_entry(alloc, &mut self.prefix_lists, name, entry)?;
        Ok(())
    }

    #[tactic(auto, unfolding(crate::specs::Effects::community_list_line))]
    pub(super) fn take_community_list(
        &mut self,
        alloc: Global,
        rest: &Words<'_>,
    ) -> Result<(), LineRefusal>
        ensures { Takes (community_list_line rest.now self.old) self.new result }
    {
        let (name, entry) = policy_lines::community_entry(alloc, rest, &self.community_lists)?;
        entries::add_community_entry(alloc, &mut self.community_lists, name, entry)?;
        Ok(())
    }

    // The entry whose block is open, or was last.
    fn open_entry(&self) -> Option<&MapEntry>
        ensures { option_copied result ≡ open_entry self.now }
    {
        entries::entry_at(self.maps.as_slice(), self.open_map, self.open_entry)
    }

    // A new entry of the map of this name is open.
    #[tactic(auto, unfolding(crate::specs::Effects::with_begun))]
    fn begin_entry(&mut self, alloc: Global, name: Text, entry: MapEntry) -> Result<(), AllocError>
        ensures { OnOk result (self.new ≡ with_begun name entry self.old) }
    {
        let map = self.maps.place_of(name.as_str());
        let among = entries::entries_at(self.maps.as_slice(), map);
        let place = entries::place_for(among, u32::from(entry.seq));
        entries::add_map_entry(alloc, &mut self.maps, name, entry)?;
        self.open_map = map;
        self.open_entry = place;
        self.mode = Mode::InMap;
        Ok(())
    }

    // Notes what a line needs that makes this of the open entry.
    fn note_change(&mut self, alloc: Global, entry: &MapEntry) -> Result<(), AllocError>
        ensures { OnOk result (self.new ≡ with_change_noted (open_entry self.old) entry.now self.old) }
    {
        let old = entries::entry_at(self.maps.as_slice(), self.open_map, self.open_entry);
        match old {
            None => Ok(()),
            Some(old) => needs::note_change(&mut self.needed, alloc, self.number, old, entry),
        }
    }

    // The open entry is now this.
    fn change_entry(&mut self, alloc: Global, entry: MapEntry) -> Result<(), AllocError>
        ensures { OnOk result (self.new ≡ with_changed entry self.old) }
    {
        self.note_change(alloc, &entry)?;
        entries::set_entry(alloc, &mut self.maps, self.open_map, self.open_entry, entry);
        Ok(())
    }

    #[tactic(auto, unfolding(crate::specs::Effects::map_row_line))]
    pub(super) fn take_map(&mut self, alloc: Global, line: &Words<'_>) -> Result<(), LineRefusal>
        ensures { Takes (map_row_line line.now self.old) self.new result }
    {
        match policy_lines::map_step(alloc, line, &self.maps, self.open_entry())? {
            MapStep::Begin(name, entry) => self.begin_entry(alloc, name, entry)?,
            MapStep::Change(entry) => self.change_entry(alloc, entry)?,
        }
        Ok(())
    }

    #[tactic(auto, unfolding(crate::specs::Effects::exit_family_line))]
    pub(super) fn take_exit_family(&mut self, rest: &Words<'_>) -> Result<(), LineRefusal>
        ensures { Takes (exit_family_line rest.now self.old) self.new result }
    {
        if self.bgp.is_none() {
            return Err(OUT_OF_PLACE);
        }
        if !values::is_nothing(rest) {
            return Err(BAD_VALUE);
        }
        self.mode = Mode::InBgp;
        Ok(())
    }
}
