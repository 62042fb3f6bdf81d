//! A network of three routers and of sessions with policies of many kinds. Communities 0 and 1 are 65000:1 and
//! 65000:2, community 2 is NO_EXPORT, and community 3 NO_ADVERTISE. List NOT-ONE denies community 0 before it would
//! permit it.

use crate::networks::network_of;
use net_types::{BundleRefusal, Net};
use std::alloc::Global;

/// Links, by their places in the network. Where not named, they are between routers a and b, and a policy is open.
pub(super) const PLAIN: u8 = 0;

/// The export adds community 0, and the import takes what lacks it.
pub(super) const ADDED_AND_DENIED: u8 = 1;

/// The export adds community 0, and the import takes what holds it.
pub(super) const ADDED_AND_ASKED: u8 = 2;

/// The import takes what holds community 0.
pub(super) const ASKED: u8 = 3;

/// The import raises what list NOT-ONE permits.
pub(super) const RAISED: u8 = 4;

/// The import puts the receiver in front twice.
pub(super) const LONGER: u8 = 5;

/// The import denies what holds both communities.
pub(super) const NOT_BOTH: u8 = 6;

/// The import takes what holds either of the two.
pub(super) const EITHER: u8 = 7;

/// The export lets out what holds community 0.
pub(super) const LET_OUT: u8 = 8;

/// The export lets out what lacks it.
pub(super) const KEPT_IN: u8 = 9;

/// The export adds NO_EXPORT.
pub(super) const STAMPED_OUT: u8 = 10;

/// The import sets MED 7.
pub(super) const OF_MED_7: u8 = 11;

/// The import adds NO_EXPORT.
pub(super) const STAMPED: u8 = 12;

/// Between routers a and d.
pub(super) const A_AND_D: u8 = 13;

/// Between routers b and d.
pub(super) const B_AND_D: u8 = 14;

/// No session, and so closed policies at both ends.
pub(super) const SILENT: u8 = 15;

// Routers a and b have number 1 and 2 in addresses and in their AS, and the maps of the links at both ends.
const A: &str = "hostname a
router bgp 65001
 no bgp ebgp-requires-policy
bgp community-list standard ONE seq 5 permit 65000:1
bgp community-list standard NOT-ONE seq 5 deny 65000:1
bgp community-list standard NOT-ONE seq 10 permit 65000:1
bgp community-list standard BOTH seq 5 permit 65000:1 65000:2
bgp community-list standard EITHER seq 5 permit 65000:1
bgp community-list standard EITHER seq 10 permit 65000:2
route-map IF-ONE permit 10
 match community ONE
route-map UNLESS-ONE deny 10
 match community ONE
route-map UNLESS-ONE permit 20
route-map RAISE permit 10
 match community NOT-ONE
 set local-preference 200
route-map RAISE permit 20
route-map UNLESS-BOTH deny 10
 match community BOTH
route-map UNLESS-BOTH permit 20
route-map IF-EITHER permit 10
 match community EITHER
route-map ADD-ONE permit 10
 set community 65000:1 additive
route-map STAMP permit 10
 set community no-export additive
route-map MED permit 10
 set metric 7
route-map LONGER permit 10
 set as-path prepend 65001 65001
interface e0
 ip address 10.0.0.1/24
router bgp 65001
 neighbor 10.0.0.2 remote-as 65002
interface e1
 ip address 10.0.1.1/24
router bgp 65001
 neighbor 10.0.1.2 remote-as 65002
 neighbor 10.0.1.2 route-map ADD-ONE out
 neighbor 10.0.1.2 route-map UNLESS-ONE in
interface e2
 ip address 10.0.2.1/24
router bgp 65001
 neighbor 10.0.2.2 remote-as 65002
 neighbor 10.0.2.2 route-map ADD-ONE out
 neighbor 10.0.2.2 route-map IF-ONE in
interface e3
 ip address 10.0.3.1/24
router bgp 65001
 neighbor 10.0.3.2 remote-as 65002
 neighbor 10.0.3.2 route-map IF-ONE in
interface e4
 ip address 10.0.4.1/24
router bgp 65001
 neighbor 10.0.4.2 remote-as 65002
 neighbor 10.0.4.2 route-map RAISE in
interface e5
 ip address 10.0.5.1/24
router bgp 65001
 neighbor 10.0.5.2 remote-as 65002
 neighbor 10.0.5.2 route-map LONGER in
interface e6
 ip address 10.0.6.1/24
router bgp 65001
 neighbor 10.0.6.2 remote-as 65002
 neighbor 10.0.6.2 route-map UNLESS-BOTH in
interface e7
 ip address 10.0.7.1/24
router bgp 65001
 neighbor 10.0.7.2 remote-as 65002
 neighbor 10.0.7.2 route-map IF-EITHER in
interface e8
 ip address 10.0.8.1/24
router bgp 65001
 neighbor 10.0.8.2 remote-as 65002
 neighbor 10.0.8.2 route-map IF-ONE out
interface e9
 ip address 10.0.9.1/24
router bgp 65001
 neighbor 10.0.9.2 remote-as 65002
 neighbor 10.0.9.2 route-map UNLESS-ONE out
interface e10
 ip address 10.0.10.1/24
router bgp 65001
 neighbor 10.0.10.2 remote-as 65002
 neighbor 10.0.10.2 route-map STAMP out
interface e11
 ip address 10.0.11.1/24
router bgp 65001
 neighbor 10.0.11.2 remote-as 65002
 neighbor 10.0.11.2 route-map MED in
interface e12
 ip address 10.0.12.1/24
router bgp 65001
 neighbor 10.0.12.2 remote-as 65002
 neighbor 10.0.12.2 route-map STAMP in
interface e13
 ip address 10.0.13.1/24
router bgp 65001
 neighbor 10.0.13.3 remote-as 65003
interface e15
 ip address 10.0.15.1/24
";

const B: &str = "hostname b
router bgp 65002
 no bgp ebgp-requires-policy
bgp community-list standard ONE seq 5 permit 65000:1
bgp community-list standard NOT-ONE seq 5 deny 65000:1
bgp community-list standard NOT-ONE seq 10 permit 65000:1
bgp community-list standard BOTH seq 5 permit 65000:1 65000:2
bgp community-list standard EITHER seq 5 permit 65000:1
bgp community-list standard EITHER seq 10 permit 65000:2
route-map IF-ONE permit 10
 match community ONE
route-map UNLESS-ONE deny 10
 match community ONE
route-map UNLESS-ONE permit 20
route-map RAISE permit 10
 match community NOT-ONE
 set local-preference 200
route-map RAISE permit 20
route-map UNLESS-BOTH deny 10
 match community BOTH
route-map UNLESS-BOTH permit 20
route-map IF-EITHER permit 10
 match community EITHER
route-map ADD-ONE permit 10
 set community 65000:1 additive
route-map STAMP permit 10
 set community no-export additive
route-map MED permit 10
 set metric 7
route-map LONGER permit 10
 set as-path prepend 65002 65002
interface e0
 ip address 10.0.0.2/24
router bgp 65002
 neighbor 10.0.0.1 remote-as 65001
interface e1
 ip address 10.0.1.2/24
router bgp 65002
 neighbor 10.0.1.1 remote-as 65001
 neighbor 10.0.1.1 route-map ADD-ONE out
 neighbor 10.0.1.1 route-map UNLESS-ONE in
interface e2
 ip address 10.0.2.2/24
router bgp 65002
 neighbor 10.0.2.1 remote-as 65001
 neighbor 10.0.2.1 route-map ADD-ONE out
 neighbor 10.0.2.1 route-map IF-ONE in
interface e3
 ip address 10.0.3.2/24
router bgp 65002
 neighbor 10.0.3.1 remote-as 65001
 neighbor 10.0.3.1 route-map IF-ONE in
interface e4
 ip address 10.0.4.2/24
router bgp 65002
 neighbor 10.0.4.1 remote-as 65001
 neighbor 10.0.4.1 route-map RAISE in
interface e5
 ip address 10.0.5.2/24
router bgp 65002
 neighbor 10.0.5.1 remote-as 65001
 neighbor 10.0.5.1 route-map LONGER in
interface e6
 ip address 10.0.6.2/24
router bgp 65002
 neighbor 10.0.6.1 remote-as 65001
 neighbor 10.0.6.1 route-map UNLESS-BOTH in
interface e7
 ip address 10.0.7.2/24
router bgp 65002
 neighbor 10.0.7.1 remote-as 65001
 neighbor 10.0.7.1 route-map IF-EITHER in
interface e8
 ip address 10.0.8.2/24
router bgp 65002
 neighbor 10.0.8.1 remote-as 65001
 neighbor 10.0.8.1 route-map IF-ONE out
interface e9
 ip address 10.0.9.2/24
router bgp 65002
 neighbor 10.0.9.1 remote-as 65001
 neighbor 10.0.9.1 route-map UNLESS-ONE out
interface e10
 ip address 10.0.10.2/24
router bgp 65002
 neighbor 10.0.10.1 remote-as 65001
 neighbor 10.0.10.1 route-map STAMP out
interface e11
 ip address 10.0.11.2/24
router bgp 65002
 neighbor 10.0.11.1 remote-as 65001
 neighbor 10.0.11.1 route-map MED in
interface e12
 ip address 10.0.12.2/24
router bgp 65002
 neighbor 10.0.12.1 remote-as 65001
 neighbor 10.0.12.1 route-map STAMP in
interface e14
 ip address 10.0.14.2/24
router bgp 65002
 neighbor 10.0.14.3 remote-as 65003
interface e15
 ip address 10.0.15.2/24
";

const D: &str = "hostname d
router bgp 65003
 no bgp ebgp-requires-policy
interface e13
 ip address 10.0.13.3/24
router bgp 65003
 neighbor 10.0.13.1 remote-as 65001
interface e14
 ip address 10.0.14.3/24
router bgp 65003
 neighbor 10.0.14.2 remote-as 65002
";

/// Routers a, b and d are 0, 1 and 2.
pub(super) fn network(alloc: Global) -> Result<Net, BundleRefusal> {
    network_of(alloc, &[A, B, D], 3)
}
