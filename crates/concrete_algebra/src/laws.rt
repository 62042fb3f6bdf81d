//! What is true of every network, stated over definitions: each law is the contract of a function that
//! does nothing.

ghost use Rattle.concrete_algebra.specs.Chains.{CandidatePathsAreShort, ChainsAreShort, LabelPathsAreShort, LabelsHaveChains, PathsAreChains, PathsAreHeld};
ghost use Rattle.concrete_algebra.specs.Laws.{NetworksRoute, DeletesAreNamed};
ghost use Rattle.concrete_algebra.specs.Origins.{NoOriginIsStable, NoOriginNoLabels, NothingOriginated};
ghost use Rattle.concrete_algebra.specs.Readings.{DeletesByMember, FirstCommunityPermits, FirstEntryGives, FirstPrefixPermits, ImportsSet, NoEntryGives, OpenArcsCarry, OpenOspfBrings, OthersLeaveTheirs, OthersMayTakeTheirs, OwnersBring, OwnersByOwning, OwnersKeepTheirs, SetCommunitiesAreHeld, SetsByMember};

/// In the problem of every network the ends of arcs that are up are routers, and over an arc a path grows by
/// the sender, once and at most 10 times more, and by the receiver, at most 10 times, who was not on it.
pub fn law_of_routing()
    ensures { NetworksRoute }
{}

/// A community list deletes a community exactly where its first entry that names it is a permit.
pub fn law_of_deletes()
    ensures { DeletesAreNamed }
{}

/// Each route of a stable labelling came over a chain of distinct routers from one that originates it; each
/// router on its path holds a route; and paths, also those of candidates that nobody holds, have at most 21
/// entries for each router.
pub fn law_of_chains()
    ensures chains { LabelsHaveChains }
    ensures short { ChainsAreShort }
    ensures paths { PathsAreChains }
    ensures held { PathsAreHeld }
    ensures labels { LabelPathsAreShort }
    ensures candidates { CandidatePathsAreShort }
{}

/// Where no router originates a route, no stable labelling has a label, and the labelling without labels is
/// stable. A router without `network` lines that redistributes nothing originates nothing.
pub fn law_of_origins()
    ensures labels { NoOriginNoLabels }
    ensures stable { NoOriginIsStable }
    ensures nothing { NothingOriginated }
{}

/// In lists and maps the first entry that matches decides, wherever it stands; and what an entry makes of
/// communities, asked of one community: what it adds is held also where its list deletes that.
pub fn law_of_entries()
    ensures first { FirstEntryGives }
    ensures none { NoEntryGives }
    ensures prefixes { FirstPrefixPermits }
    ensures communities { FirstCommunityPermits }
    ensures sets { SetsByMember }
    ensures deletes { DeletesByMember }
    ensures held { SetCommunitiesAreHeld }
{}

/// What an arc carries whose two sides are open; and that what is carried has the weight and the preference
/// that the receiver's import map sets.
pub fn law_of_routes()
    ensures arcs { OpenArcsCarry }
    ensures imports { ImportsSet }
{}

/// Exactly which route a router originates where policies are open. OSPF's distance makes no difference to an
/// owner.
pub fn law_of_local_routes()
    ensures owners { OwnersByOwning }
    ensures ospf { OpenOspfBrings }
    ensures brings { OwnersBring }
{}

/// The local route of an owner is a candidate whatever the owner holds; that of another router exactly where
/// it holds no learned route.
pub fn law_of_candidates()
    ensures owners { OwnersKeepTheirs }
    ensures others { OthersMayTakeTheirs }
    ensures learned { OthersLeaveTheirs }
{}
