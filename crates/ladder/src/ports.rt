//! What a router of a ladder has on its links.

ghost use Rattle.std.specs.Prelude.{◌≡◌, IfOk};
ghost use Rattle.ladder.specs.Ports.{port_of, ports_of};

use crate::links::LadderLink;
use net_types::{List, NoMemory};
use std::alloc::Global;

/// The end of a link at a router.
#[derive(Clone, Copy, Debug)]
pub(crate) struct Port {
    /// The link's number.
    pub(crate) link: u8,
    /// The last part of the router's own address on it, 1 or 2.
    pub(crate) own: u8,
    /// The last part of the other router's address.
    pub(crate) theirs: u8,
    /// The other router.
    pub(crate) other: u8,
    /// Whether the two speak BGP over it.
    pub(crate) session: bool,
}

fn port_of(router: u8, link: LadderLink) -> Option<Port>
    ensures { result ≡ port_of router link }
{
    if link.low == router {
        return Some(Port {
            link: link.number,
            own: 1,
            theirs: 2,
            other: link.high,
            session: link.session,
        });
    }
    if link.high == router {
        return Some(Port {
            link: link.number,
            own: 2,
            theirs: 1,
            other: link.low,
            session: link.session,
        });
    }
    None
}

/// The ends of the links at a router, in the links' order.
pub(crate) fn ports_of(
    alloc: Global,
    links: &[LadderLink],
    router: u8,
) -> Result<List<Port>, NoMemory>
    ensures { IfOk result (λ ports. ports ≡ ports_of links.now router) }
{
    let mut ports = List::new(alloc);
    for link in links {
        if let Some(port) = port_of(router, *link) {
            ports.push(port)?;
        }
    }
    Ok(ports)
}
