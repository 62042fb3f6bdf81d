//! What is true of the possible routes of every network: each law is the contract of a function that does nothing.

ghost use Rattle.possible_fixpoint.specs.Laws.{AllIsHeldAlive, FedReachTheCut, FlowIsLawful, FlowLengthens, IdleArcsAddNothing, IdleLinksKeepPossible, LeastIsOne, NetworksSettle, PossibleFalls, PossibleHoldsLabels, PossibleIsLeast, PossibleIsShort, SolutionsHoldLabels};

/// The flow of each network is lawful, whatever has failed and whatever is alive.
pub fn law_of_flow()
    ensures { FlowIsLawful }
{}

/// A lawful flow, and so that of each network, has one least solution.
pub fn law_of_possible()
    ensures least { PossibleIsLeast }
    ensures one { LeastIsOne }
    ensures networks { NetworksSettle }
{}

/// With less alive, less is possible.
pub fn law_of_less_alive()
    ensures { PossibleFalls }
{}

/// What stable labellings hold is possible, as long as all of it is alive, and where nothing has been dropped it is.
pub fn law_of_held_routes()
    ensures all { AllIsHeldAlive }
    ensures solutions { SolutionsHoldLabels }
    ensures least { PossibleHoldsLabels }
{}

/// The failure of links that are idle changes no row.
pub fn law_of_idle_arcs()
    ensures arcs { IdleArcsAddNothing }
    ensures links { IdleLinksKeepPossible }
{}

/// The rows of the least solution are short, and so is each row below.
pub fn law_of_short_rows()
    ensures { PossibleIsShort }
{}

/// What an arc of a network gives is longer than what it is given, up to 21 entries for each router; so routers that
/// feed each other have paths of so many entries in every solution above.
pub fn law_of_climbing()
    ensures flow { FlowLengthens }
    ensures fed { FedReachTheCut }
{}
