//! What is known of a file after some of its lines, and what each row does to it.

ghost use Rattle.std.specs.Prelude.{◌≡◌};
ghost use Rattle.frr_reader.specs.Answers.{Takes};
ghost use Rattle.frr_reader.specs.State.{start};
ghost use Rattle.frr_reader.specs.Reading.{judged, config_of};
ghost use Rattle.frr_reader.specs.HasNames.{HasNames};
ghost use Rattle.frr_reader.specs.Effects.{effect, host_line, exit_line, end_line};

mod interface_rows;
mod policy_rows;

use crate::bgp::Bgp;
use crate::by_name::ByName;
use crate::causes::{BAD_VALUE, LineRefusal, REPEATED};
use crate::modes::Mode;
use crate::needs::{self, Names, Need};
use crate::rows::Row;
use crate::values;
use frr_policy::Words;
use net_types::{
    BgpConfig, CommunityList, Interface, List, Prefix, PrefixList, ReadRefusal, RouteMap,
    RouterConfig, Text,
};
use std::alloc::Global;
use std::marker::Model;

/// The configuration so far, and where in the file the next line stands.
#[derive(Debug, Drop)]
pub struct Reader {
    // the number of the line
    number: u64,
    mode: Mode,
    // the places of what is open, or was last: the interface, and the map and its entry
    open_place: usize,
    open_map: usize,
    open_entry: usize,
    host: Option<Text>,
    interfaces: ByName<Interface>,
    ospf: Option<List<Prefix>>,
    bgp: Option<Bgp>,
    prefix_lists: ByName<PrefixList>,
    community_lists: ByName<CommunityList>,
    maps: ByName<RouteMap>,
    // what the lines need of the whole file
    needed: Vec<Need>,
}

impl Model for Reader {
    ghost use Rattle.frr_reader.specs.State.{State};

    ghost Value = { State };

    ghost view = { λ r. record { number = r.number; mode = r.mode; open_place = r.open_place; open_map = r.open_map; open_entry = r.open_entry; host = r.host; interfaces = r.interfaces; ospf = r.ospf; bgp = r.bgp; prefix_lists = r.prefix_lists; community_lists = r.community_lists; maps = r.maps; needed = r.needed.items } };
}

impl Reader {
    /// Before the first line.
    pub fn new(alloc: Global) -> Reader
        ensures { result ≡ start }
    {
        Reader {
            number: 0,
            mode: Mode::Top,
            open_place: 0,
            open_map: 0,
            open_entry: 0,
            host: None,
            interfaces: ByName::new(alloc),
            ospf: None,
            bgp: None,
            prefix_lists: ByName::new(alloc),
            community_lists: ByName::new(alloc),
            maps: ByName::new(alloc),
            needed: Vec::new(alloc),
        }
    }

    /// The mode of the next line.
    pub fn mode(&self) -> Mode
        ensures { result ≡ self.now.mode }
    {
        self.mode
    }

    /// The next line has this number.
    pub fn begin_line(&mut self, number: u64)
        ensures { self.new ≡ record self.old { number = number } }
    {
        self.number = number;
    }

    /// The next line stands in this mode.
    pub fn enter(&mut self, mode: Mode)
        ensures { self.new ≡ record self.old { mode = mode } }
    {
        self.mode = mode;
    }

    /// The configuration, where the host has a name, and the file has what its lines need.
    pub fn finish(self) -> Result<RouterConfig, ReadRefusal>
        ensures { result ≡ config_of self self.host }
    {
        let Reader {
            host,
            interfaces,
            ospf,
            bgp,
            prefix_lists,
            community_lists,
            maps,
            needed,
            ..
        } = self;
        let Some(host) = host else {
            return Err(ReadRefusal::NoHostname);
        };
        let (prefix_lists, prefix_list_names) = prefix_lists.into_parts();
        let (community_lists, community_list_names) = community_lists.into_parts();
        let (maps, map_names) = maps.into_parts();
        let config = RouterConfig {
            host,
            interfaces: interfaces.into_list(),
            ospf,
            bgp: finished(bgp),
            prefix_lists,
            community_lists,
            maps,
        };
        let names = Names {
            prefix_lists: prefix_list_names,
            community_lists: community_list_names,
            maps: map_names,
        };
        judge(config, &names, needed.as_slice())
    }

    /// What the row does, given the words of the line and those behind the row's head.
    #[tactic(auto, unfolding(crate::specs::Effects::effect))]
    pub fn take(
        &mut self,
        alloc: Global,
        row: Row,
        line: &Words<'_>,
        rest: &Words<'_>,
    ) -> Result<(), LineRefusal>
        ensures { Takes (effect row line.now rest.now self.old) self.new result }
    {
        match row {
            Row::HostName => self.take_host(alloc, rest),
            Row::OpenInterface => self.take_interface(alloc, rest),
            Row::OpenBgp => self.take_bgp(alloc, rest),
            Row::OpenOspf => self.take_ospf(alloc, rest),
            Row::PrefixListLine => self.take_prefix_list(alloc, rest),
            Row::CommunityListLine => self.take_community_list(alloc, rest),
            Row::MapLine => self.take_map(alloc, line),
            Row::Address => self.take_address(rest),
            Row::Area => self.take_area(rest),
            Row::Cost => self.take_cost(rest),
            Row::Shutdown => self.take_shutdown(rest),
            Row::OspfNetwork => self.take_network(rest),
            Row::OfBgp(row) => self.take_of_bgp(alloc, row, line, rest),
            Row::OpenFamily => self.take_family(rest),
            Row::Exit => self.take_exit(rest),
            Row::End => self.take_end(rest),
            Row::ExitFamily => self.take_exit_family(rest),
            Row::NoEffect => Ok(()),
        }
    }

    #[tactic(auto, unfolding(crate::specs::Effects::host_line))]
    fn take_host(&mut self, alloc: Global, rest: &Words<'_>) -> Result<(), LineRefusal>
        ensures { Takes (host_line rest.now self.old) self.new result }
    {
        match values::host(rest) {
            None => Err(BAD_VALUE),
            Some(_host) if self.host.is_some() => Err(REPEATED),
            Some(host) => {
                self.host = Some(values::ascii_text(alloc, host)?);
                Ok(())
            }
        }
    }

    #[tactic(auto, unfolding(crate::specs::Effects::exit_line))]
    fn take_exit(&mut self, rest: &Words<'_>) -> Result<(), LineRefusal>
        ensures { Takes (exit_line rest.now self.old) self.new result }
    {
        if !values::is_nothing(rest) {
            return Err(BAD_VALUE);
        }
        self.mode = self.mode.outer();
        Ok(())
    }

    #[tactic(auto, unfolding(crate::specs::Effects::end_line))]
    fn take_end(&mut self, rest: &Words<'_>) -> Result<(), LineRefusal>
        ensures { Takes (end_line rest.now self.old) self.new result }
    {
        if !values::is_nothing(rest) {
            return Err(BAD_VALUE);
        }
        self.mode = Mode::Top;
        Ok(())
    }
}

fn finished(bgp: Option<Bgp>) -> Option<BgpConfig>
    ensures { result ≡ bgp }
{
    match bgp {
        Some(bgp) => Some(bgp.finish()),
        None => None,
    }
}

// The configuration, where the file has what its lines need.
#[tactic(auto, unfolding(crate::specs::Reading::judged))]
fn judge(config: RouterConfig, names: &Names, needed: &[Need]) -> Result<RouterConfig, ReadRefusal>
    requires { HasNames config names.now }
    ensures { result ≡ judged config needed.now }
{
    if let Some(line) = needs::first_undefined(&config, names, needed) {
        return Err(ReadRefusal::Undefined(line));
    }
    if let Some(line) = needs::first_foreign(&config, needed) {
        return Err(ReadRefusal::ForeignAs(line));
    }
    Ok(config)
}
