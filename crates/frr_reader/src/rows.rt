//! The rows of the line table, as data: one here for each in `specs/Table.antt`.

ghost use Rattle.std.specs.Prelude.{◌≡◌, map};
ghost use Rattle.frr_reader.specs.declared.rows.LineForm.{LineForm as Form};
ghost use Rattle.frr_reader.specs.Table.{table, form};

use crate::modes::Mode;

/// What a line does.
#[derive(Clone, Copy, PartialEq, Eq, Debug)]
pub enum Row {
    /// Names the host.
    HostName,
    /// Opens an interface.
    OpenInterface,
    /// Opens BGP.
    OpenBgp,
    /// Opens OSPF.
    OpenOspf,
    /// Adds an entry to a prefix list.
    PrefixListLine,
    /// Adds an entry to a community list.
    CommunityListLine,
    /// Opens a new entry of a route map, or changes the open one.
    MapLine,
    /// Gives the interface its address.
    Address,
    /// Runs OSPF on the interface.
    Area,
    /// Gives the interface its OSPF cost.
    Cost,
    /// Shuts the interface down.
    Shutdown,
    /// Adds a prefix to OSPF.
    OspfNetwork,
    /// Is of BGP alone.
    OfBgp(BgpRow),
    /// Opens BGP's address family.
    OpenFamily,
    /// Goes to the mode round this one.
    Exit,
    /// Goes to the top.
    End,
    /// Goes from the address family to BGP.
    ExitFamily,
    /// Nothing, but that it is taken in its mode.
    NoEffect,
}

/// What a line of BGP does.
#[derive(Clone, Copy, PartialEq, Eq, Debug)]
pub enum BgpRow {
    /// Lets sessions without a policy pass routes.
    NoPolicy,
    /// Adds a neighbor.
    RemoteAs,
    /// Gives a neighbor its route map in a direction.
    NeighborMap,
    /// Adds a prefix.
    BgpNetwork,
    /// Redistributes connected prefixes.
    Connected,
    /// Redistributes OSPF's routes.
    FromOspf,
    /// Nothing, but that its neighbor has to be there.
    OfNeighbor,
}

/// A direction of a session.
#[derive(Clone, Copy, PartialEq, Eq, Debug)]
pub enum Direction {
    /// For what comes in.
    Import,
    /// For what goes out.
    Export,
}

/// A row's place in the table.
#[derive(Clone, Copy, Debug)]
pub struct LineForm {
    /// The modes that it stands in.
    pub modes: &'static [Mode],
    /// The words that its lines begin with; `_` is any word.
    pub head: &'static str,
    /// What it is.
    pub row: Row,
}

const TOP: &[Mode] = &[Mode::Top];

const INTERFACE: &[Mode] = &[Mode::InInterface];

const OSPF: &[Mode] = &[Mode::InOspf];

const BGP: &[Mode] = &[Mode::InBgp];

const BGP_AND_FAMILY: &[Mode] = &[Mode::InBgp, Mode::InFamily];

const FAMILY: &[Mode] = &[Mode::InFamily];

const MAP: &[Mode] = &[Mode::InMap];

const EVERY: &[Mode] = &[
    Mode::Top,
    Mode::InInterface,
    Mode::InBgp,
    Mode::InOspf,
    Mode::InMap,
    Mode::InFamily,
];

static TABLE: [LineForm; 53] = [
    LineForm {
        modes: TOP,
        head: "hostname",
        row: Row::HostName,
    },
    LineForm {
        modes: TOP,
        head: "interface",
        row: Row::OpenInterface,
    },
    LineForm {
        modes: TOP,
        head: "router bgp",
        row: Row::OpenBgp,
    },
    LineForm {
        modes: TOP,
        head: "router ospf",
        row: Row::OpenOspf,
    },
    LineForm {
        modes: TOP,
        head: "ip prefix-list",
        row: Row::PrefixListLine,
    },
    LineForm {
        modes: TOP,
        head: "bgp community-list",
        row: Row::CommunityListLine,
    },
    LineForm {
        modes: TOP,
        head: "ip community-list",
        row: Row::CommunityListLine,
    },
    LineForm {
        modes: TOP,
        head: "route-map",
        row: Row::MapLine,
    },
    LineForm {
        modes: TOP,
        head: "frr version",
        row: Row::NoEffect,
    },
    LineForm {
        modes: TOP,
        head: "frr defaults traditional",
        row: Row::NoEffect,
    },
    LineForm {
        modes: TOP,
        head: "log",
        row: Row::NoEffect,
    },
    LineForm {
        modes: TOP,
        head: "service integrated-vtysh-config",
        row: Row::NoEffect,
    },
    LineForm {
        modes: TOP,
        head: "line vty",
        row: Row::NoEffect,
    },
    LineForm {
        modes: TOP,
        head: "ip forwarding",
        row: Row::NoEffect,
    },
    LineForm {
        modes: TOP,
        head: "ipv6 forwarding",
        row: Row::NoEffect,
    },
    LineForm {
        modes: TOP,
        head: "no ip forwarding",
        row: Row::NoEffect,
    },
    LineForm {
        modes: TOP,
        head: "no ipv6 forwarding",
        row: Row::NoEffect,
    },
    LineForm {
        modes: TOP,
        head: "Building configuration...",
        row: Row::NoEffect,
    },
    LineForm {
        modes: TOP,
        head: "Current configuration:",
        row: Row::NoEffect,
    },
    LineForm {
        modes: INTERFACE,
        head: "ip address",
        row: Row::Address,
    },
    LineForm {
        modes: INTERFACE,
        head: "ip ospf area",
        row: Row::Area,
    },
    LineForm {
        modes: INTERFACE,
        head: "ip ospf cost",
        row: Row::Cost,
    },
    LineForm {
        modes: INTERFACE,
        head: "shutdown",
        row: Row::Shutdown,
    },
    LineForm {
        modes: INTERFACE,
        head: "description",
        row: Row::NoEffect,
    },
    LineForm {
        modes: INTERFACE,
        head: "ip ospf network",
        row: Row::NoEffect,
    },
    LineForm {
        modes: OSPF,
        head: "network",
        row: Row::OspfNetwork,
    },
    LineForm {
        modes: OSPF,
        head: "ospf router-id",
        row: Row::NoEffect,
    },
    LineForm {
        modes: BGP,
        head: "no bgp ebgp-requires-policy",
        row: Row::OfBgp(BgpRow::NoPolicy),
    },
    LineForm {
        modes: BGP,
        head: "neighbor _ remote-as",
        row: Row::OfBgp(BgpRow::RemoteAs),
    },
    LineForm {
        modes: BGP,
        head: "address-family",
        row: Row::OpenFamily,
    },
    LineForm {
        modes: BGP,
        head: "bgp router-id",
        row: Row::NoEffect,
    },
    LineForm {
        modes: BGP,
        head: "bgp log-neighbor-changes",
        row: Row::NoEffect,
    },
    LineForm {
        modes: BGP,
        head: "no bgp network import-check",
        row: Row::NoEffect,
    },
    LineForm {
        modes: BGP_AND_FAMILY,
        head: "neighbor _ route-map",
        row: Row::OfBgp(BgpRow::NeighborMap),
    },
    LineForm {
        modes: BGP_AND_FAMILY,
        head: "network",
        row: Row::OfBgp(BgpRow::BgpNetwork),
    },
    LineForm {
        modes: BGP_AND_FAMILY,
        head: "redistribute connected",
        row: Row::OfBgp(BgpRow::Connected),
    },
    LineForm {
        modes: BGP_AND_FAMILY,
        head: "redistribute ospf",
        row: Row::OfBgp(BgpRow::FromOspf),
    },
    LineForm {
        modes: BGP_AND_FAMILY,
        head: "neighbor _ activate",
        row: Row::OfBgp(BgpRow::OfNeighbor),
    },
    LineForm {
        modes: BGP_AND_FAMILY,
        head: "neighbor _ description",
        row: Row::OfBgp(BgpRow::OfNeighbor),
    },
    LineForm {
        modes: BGP_AND_FAMILY,
        head: "neighbor _ timers",
        row: Row::OfBgp(BgpRow::OfNeighbor),
    },
    LineForm {
        modes: BGP_AND_FAMILY,
        head: "neighbor _ send-community",
        row: Row::OfBgp(BgpRow::OfNeighbor),
    },
    LineForm {
        modes: FAMILY,
        head: "exit-address-family",
        row: Row::ExitFamily,
    },
    LineForm {
        modes: MAP,
        head: "match community",
        row: Row::MapLine,
    },
    LineForm {
        modes: MAP,
        head: "match ip address prefix-list",
        row: Row::MapLine,
    },
    LineForm {
        modes: MAP,
        head: "set local-preference",
        row: Row::MapLine,
    },
    LineForm {
        modes: MAP,
        head: "set metric",
        row: Row::MapLine,
    },
    LineForm {
        modes: MAP,
        head: "set weight",
        row: Row::MapLine,
    },
    LineForm {
        modes: MAP,
        head: "set origin",
        row: Row::MapLine,
    },
    LineForm {
        modes: MAP,
        head: "set community",
        row: Row::MapLine,
    },
    LineForm {
        modes: MAP,
        head: "set comm-list",
        row: Row::MapLine,
    },
    LineForm {
        modes: MAP,
        head: "set as-path prepend",
        row: Row::MapLine,
    },
    LineForm {
        modes: EVERY,
        head: "exit",
        row: Row::Exit,
    },
    LineForm {
        modes: EVERY,
        head: "end",
        row: Row::End,
    },
];

/// The line table.
pub fn table() -> &'static [LineForm]
    ensures { map (λ (f : Form). form f.modes.now f.head.now f.row) result.now ≡ table }
{
    &TABLE
}
