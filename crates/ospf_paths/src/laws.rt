//! What is true of the distances of every network, stated over definitions: each law is the contract of
//! a function that does nothing.

ghost use Rattle.ospf_paths.specs.Laws.{FarRoutersHop, TightArcsApproach, LeastWalksGoOn, LeastWalksAreTight, DistancesAreOne, DistancesAreSmall, DistanceListIs, SlackLinksKeepDistances, SlackLinksKeepTightArcs, HeldLinksComeBack, FailuresLengthen, FailingIsLacking, EndsAreAlike};

/// A router with a distance that is no owner has a next hop.
pub fn law_of_hops()
    ensures { FarRoutersHop }
{}

/// A tight arc, and so one to a next hop, goes to a router that is nearer.
pub fn law_of_approach()
    ensures { TightArcsApproach }
{}

/// After the first arc of a least walk, which is tight, there is a least walk again.
pub fn law_of_rests()
    ensures { LeastWalksGoOn }
{}

/// All arcs of a least walk are tight.
pub fn law_of_least_walks()
    ensures { LeastWalksAreTight }
{}

/// One network, prefix and failure set has one list of distances.
pub fn law_of_one_list()
    ensures { DistancesAreOne }
{}

/// Each distance is below 2 to the power of 32.
pub fn law_of_size()
    ensures { DistancesAreSmall }
{}

/// The distance list of `specs/DistanceList.antt` is the list of distances.
pub fn law_of_distance_list()
    ensures { DistanceListIs }
{}

/// Where no direction of a link is tight, its failure changes no distance.
pub fn law_of_slack_links()
    ensures distances { SlackLinksKeepDistances }
    ensures arcs { SlackLinksKeepTightArcs }
{}

/// A failure set is what is left of it without one of its links, with that link.
pub fn law_of_held_links()
    ensures { HeldLinksComeBack }
{}

/// Failures bring no router nearer, and give none a distance.
pub fn law_of_more_failures()
    ensures { FailuresLengthen }
{}

/// The failure of links does what it does that they are no adjacencies.
pub fn law_of_failed_links()
    ensures { FailingIsLacking }
{}

/// Both ends of a link are treated alike.
pub fn law_of_ends()
    ensures { EndsAreAlike }
{}
