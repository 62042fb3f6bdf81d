//! What is true of rounds and of the results of cases: each law is the contract of a function that does nothing.

ghost use Rattle.refine_rounds.specs.Results.{FirstQuietRoundIsLast, ResultsAreCertain, ResultsContain, ResultsDropNothingHeld};
ghost use Rattle.refine_rounds.specs.Reuse.{IdleLinksAre, IdleLinksBringNothing, IdleLinksMayFail};
ghost use Rattle.refine_rounds.specs.Rounds.{CertainRoutersHold, HeldStaysAlive, RoundsAreSound, SureIsThere};
ghost use Rattle.refine_rounds.specs.Steps.{BeatenIs, LastRoundDropsNothing, ResultIsSound, StepDropsBeaten};

/// A round drops nothing that a stable labelling holds: certain routers hold a route, sure candidates are there, and so
/// what they beat is held nowhere.
pub fn law_of_rounds()
    ensures certain { CertainRoutersHold }
    ensures sure { SureIsThere }
    ensures kept { HeldStaysAlive }
    ensures rounds { RoundsAreSound }
{}

/// A round drops what its test finds beaten, the first round that drops nothing is the last, and what is alive then is
/// sound.
pub fn law_of_steps()
    ensures beaten { BeatenIs }
    ensures drops { StepDropsBeaten }
    ensures last { LastRoundDropsNothing }
    ensures first { FirstQuietRoundIsLast }
    ensures result { ResultIsSound }
{}

/// Of the result of each case: each label of each stable labelling is in its router's row and came by what is alive,
/// each certain router holds a route, and what a round drops is held nowhere.
pub fn law_of_results()
    ensures containment { ResultsContain }
    ensures certainty { ResultsAreCertain }
    ensures drops { ResultsDropNothingHeld }
{}

/// The idle links of a result are those of its case, and nothing comes over them.
pub fn law_of_idle_links()
    ensures links { IdleLinksAre }
    ensures nothing { IdleLinksBringNothing }
{}

/// The result of a failure set is that of the set without a link which is idle there, and the same links outside the set
/// are idle.
pub fn law_of_reuse()
    ensures { IdleLinksMayFail }
{}
