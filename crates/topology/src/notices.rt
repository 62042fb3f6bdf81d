//! Notices: the neighbor lines that make no session.

ghost use Rattle.std.specs.Prelude.{◌≡◌, ◌≤◌, ◌++◌, IfOk, OnOk, length, map};
ghost use Rattle.topology.specs.Notices.{neighbors_of, is_session_with, makes_session, notices_of, notices_from, notices};

use crate::ascending::ascending;
use net_types::{Link, Neighbor, Notice, RouterConfig};
use std::alloc::{AllocError, Global};

// The neighbor lines of a configuration's BGP.
fn neighbors_of(config: &RouterConfig) -> &[Neighbor]
    ensures { result.now ≡ neighbors_of config.now }
{
    match &config.bgp {
        Some(bgp) => bgp.neighbors.as_slice(),
        None => &[],
    }
}

// Whether the link is a session of this router with the address at its other end.
fn is_session_with(link: &Link, router: u8, address: u32) -> bool
    ensures { result ≡ is_session_with router address link.now }
{
    let up = link.low.router == router && link.high.address == address;
    let down = link.high.router == router && link.low.address == address;
    link.session && (up || down)
}

// Whether a neighbor line with this address makes a session of the router.
fn makes_session(links: &[Link], router: u8, address: u32) -> bool
    ensures { result ≡ makes_session links.now router address }
{
    links
        .iter()
        .any(|link| is_session_with(link, router, address))
}

// Puts the notices of one router behind the others.
fn push_notices(
    all: &mut Vec<Notice>,
    links: &[Link],
    router: u8,
    config: &RouterConfig,
) -> Result<(), AllocError>
    ensures { OnOk result (all.new.items ≡ all.old.items ++ notices_of links.now router config.now) }
{
    for neighbor in neighbors_of(config) {
        if !makes_session(links, router, neighbor.address) {
            all.push(Notice {
                router,
                address: neighbor.address,
            })?;
        }
    }
    Ok(())
}

// The notices of the routers, as their lines stand.
fn lines(
    alloc: Global,
    links: &[Link],
    configs: &[&RouterConfig],
) -> Result<Vec<Notice>, AllocError>
    requires { length configs.now ≤ 64 }
    ensures { IfOk result (λ v. v.items ≡ notices_from links.now 0 (map (λ c. c.now) configs.now)) }
{
    let mut all = Vec::new(alloc);
    for (router, config) in configs.iter().enumerate() {
        push_notices(&mut all, links, router as u8, config)?;
    }
    Ok(all)
}

/// The notices of routers with these configurations, by router and then by address.
pub fn notices(
    alloc: Global,
    links: &[Link],
    configs: &[&RouterConfig],
) -> Result<Vec<Notice>, AllocError>
    requires { length configs.now ≤ 64 }
    ensures { IfOk result (λ v. v.items ≡ notices links.now (map (λ c. c.now) configs.now)) }
{
    ascending(alloc, lines(alloc, links, configs)?)
}
