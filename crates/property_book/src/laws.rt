//! What is true of forwarding and of properties, stated over definitions: each law is the contract of a
//! function that does nothing.

ghost use Rattle.property_book.specs.Laws.{HoldsWithFewer, HopsGoAlongArcs, IsolatedAreStuck, IsolatedReachNobody, LearnedGoBack, LearnedGoOneWay, LearnedGoToSenders, OthersGoByHops, OwnersDeliver, OwnersEndWalks, OwnersGoAround, OwnersReach, ReachByOspf, ReachEndsAtOwners, ReachGoesOn, ReachIsNoLoop, SoleOwnersAreWaypoints, StuckAreIsolated, WalksGoOn, WaypointsCount, WaypointsGoOn};
ghost use Rattle.property_book.specs.QuietLaws.{LocalRoutesAreStable, NothingIsLearned, SomeAreStable};

/// An owner delivers: it forwards to nobody, so a walk from it has no step, and it reaches.
pub fn law_of_owners()
    ensures deliver { OwnersDeliver }
    ensures end { OwnersEndWalks }
    ensures reach { OwnersReach }
{}

/// The traffic of a router that is no owner and has a learned label goes to the sender of that label alone; at a
/// stable labelling this is the router from which the label came.
pub fn law_of_learned_labels()
    ensures sender { LearnedGoToSenders }
    ensures one { LearnedGoOneWay }
    ensures back { LearnedGoBack }
{}

/// Without a learned label traffic goes to the next hops of OSPF.
pub fn law_of_next_hops()
    ensures hops { OthersGoByHops }
    ensures arcs { HopsGoAlongArcs }
{}

/// A walk goes on from its last router.
pub fn law_of_walks()
    ensures { WalksGoOn }
{}

/// A router that is no owner reaches exactly where it forwards to some router and each to which it forwards
/// reaches; so exactly where its traffic is stuck nowhere and never goes round. Some walk of it then ends at an
/// owner. Without learned labels exactly the owners and the routers with a distance reach.
pub fn law_of_reach()
    ensures next { ReachGoesOn }
    ensures loops { ReachIsNoLoop }
    ensures ends { ReachEndsAtOwners }
    ensures ospf { ReachByOspf }
{}

/// At a stable labelling, with the distances of OSPF, the isolated routers are those that are no owners and
/// forward to nobody; and none of them reaches.
pub fn law_of_isolation()
    ensures stuck { IsolatedAreStuck }
    ensures isolated { StuckAreIsolated }
    ensures reach { IsolatedReachNobody }
{}

/// In a network without sessions the labelling of local routes is the one stable labelling, and nothing is learned.
pub fn law_of_quiet_networks()
    ensures labels { LocalRoutesAreStable }
    ensures some { SomeAreStable }
    ensures learned { NothingIsLearned }
{}

/// Traffic goes through the router where it begins, from an owner through no other, else through those through
/// which it goes from each next router.
pub fn law_of_waypoints()
    ensures itself { WaypointsCount }
    ensures owners { OwnersGoAround }
    ensures sole { SoleOwnersAreWaypoints }
    ensures next { WaypointsGoOn }
{}

/// What holds with up to so many failed links holds with up to fewer.
pub fn law_of_fewer_failures()
    ensures { HoldsWithFewer }
{}
