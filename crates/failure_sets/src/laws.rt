//! What is true of the permitted failure sets, of places and of counts, stated over definitions: each law
//! is the contract of a function that does nothing.

ghost use Rattle.failure_sets.specs.Laws.{HoldsThePermitted, HoldsEachOnce, StandInOrder, EmptySetIsFirst, PlacesArePositions, NextIsBehind, NextIsLeast, FewerComeEarlier, CountsAreSums, CountsInClosedForm, SumsOfPairsAndTriples};

/// The permitted sets stand in the list, each once and in order, and no others.
pub fn law_of_the_list()
    ensures permitted { HoldsThePermitted }
    ensures once { HoldsEachOnce }
    ensures order { StandInOrder }
    ensures first { EmptySetIsFirst }
{}

/// The place of a permitted set is its position in the list.
pub fn law_of_places()
    ensures { PlacesArePositions }
{}

/// The next set is the entry behind, which is the least set that comes after.
pub fn law_of_next()
    ensures behind { NextIsBehind }
    ensures least { NextIsLeast }
{}

/// A set without one of its links is permitted, and comes earlier.
pub fn law_of_fewer_links()
    ensures { FewerComeEarlier }
{}

/// The number of sets is the sum of the binomial coefficients.
pub fn law_of_counts()
    ensures sums { CountsAreSums }
    ensures closed { CountsInClosedForm }
    ensures sizes { SumsOfPairsAndTriples }
{}
