//! What is true of the machine: each law is the contract of a function that does nothing.

ghost use Rattle.review_rules.specs.Laws.{AcceptedAreKept, DecisionsAreSteps, KeptRepliesStay, MergesAreSound, RepeatsChangeNothing, TablesStayValid};

/// A merge is accepted exactly where no rule of it is broken, each said in its own words.
pub fn law_of_merges()
    ensures { MergesAreSound }
{}

/// Valid tables stay valid.
pub fn law_of_validity()
    ensures { TablesStayValid }
{}

/// Requests with repeats of accepted ones leave the state that they leave without them.
pub fn law_of_repeats()
    ensures { RepeatsChangeNothing }
{}

/// A request that is repeated is repeated at every later state, with the same reply.
pub fn law_of_kept_replies()
    ensures { KeptRepliesStay }
{}

/// A request that is accepted, asked again, is repeated with its reply.
pub fn law_of_kept_commands()
    ensures { AcceptedAreKept }
{}

/// A decision says which outcome the step of the machine has.
pub fn law_of_decisions()
    ensures { DecisionsAreSteps }
{}
