//! What the words of the definition mean, and what it says: each law is the contract of a function that does nothing.

ghost use Rattle.implication.specs.Laws.{AnswersAreOne, ExceptionIs, HopsAre, HopsOfCasesFall, IdleLinksKeepAnswers, ImpliedHolds, LearningIs, ReachTrails, SolidIs, SolidIsLeast, StepsBackAre, ViewsAreInside, WaypointTrails};

/// Hops are those of OSPF, steps back go along the arcs that may bring a route, a router may learn where one does, and
/// all of them go to routers.
pub fn law_of_views()
    ensures hops { HopsAre }
    ensures backs { StepsBackAre }
    ensures learning { LearningIs }
    ensures inside { ViewsAreInside }
{}

/// The exception of a waypoint is taken where no owner may learn.
pub fn law_of_exceptions()
    ensures { ExceptionIs }
{}

/// Solid is what its rule says; where distances fall from hop to hop, as they do in a case, the least and the greatest of
/// such sets agree.
pub fn law_of_solid_routers()
    ensures rule { SolidIs }
    ensures least { SolidIsLeast }
    ensures falling { HopsOfCasesFall }
{}

/// What is in every closed set is what some steps lead to.
pub fn law_of_trails()
    ensures reach { ReachTrails }
    ensures waypoint { WaypointTrails }
{}

/// There is one answer, and what is implied is true in every stable labelling.
pub fn law_of_answers()
    ensures one { AnswersAreOne }
    ensures holds { ImpliedHolds }
{}

/// Where an idle link fails too, the result implies the same.
pub fn law_of_idle_links()
    ensures { IdleLinksKeepAnswers }
{}
