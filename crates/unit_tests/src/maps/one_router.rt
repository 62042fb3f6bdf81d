//! Networks of one router, a, with a prefix list, a community list and a map of two entries. Community 0
//! is NO_EXPORT, and community 1 is NO_ADVERTISE.

ghost use Rattle.std.specs.Prelude.{◌≡◌, IfOk, length};

use crate::networks::network_of;
use net_types::{BundleRefusal, Net, NoMemory};
use std::alloc::Global;

const LISTS: &str = "hostname a
ip prefix-list OURS seq 5 permit 10.9.0.0/24
bgp community-list standard KEPT seq 5 permit no-export
router bgp 65001
route-map M ";

const MATCHES: &str = " 10
 match ip address prefix-list OURS
 match community KEPT
";

const OTHERS: &str = "
route-map M permit 20
 set local-preference 50
";

// The configuration of the router, in pieces.
fn configuration(alloc: Global, permit: bool, line: &str) -> Result<String, NoMemory> {
    let action = if permit { "permit" } else { "deny" };
    let mut text = String::from_str(alloc, LISTS)?;
    for piece in [action, MATCHES, line, OTHERS] {
        text.push_str(piece)?;
    }
    Ok(text)
}

/// The network of the router. The first entry of its map, a permit or a deny, is for what both lists permit, and has
/// this line; the second sets local preference 50 for every route.
pub(super) fn network(alloc: Global, permit: bool, line: &str) -> Result<Net, BundleRefusal>
    ensures { IfOk result (λ net. length net.routers ≡ 1) }
{
    let text = configuration(alloc, permit, line)?;
    network_of(alloc, &[text.as_str()], 1)
}
