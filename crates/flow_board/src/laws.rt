//! What is true of all raises, stated over definitions: each law is the contract of a function that does nothing.

ghost use Rattle.flow_board.specs.Laws.{BothIsJoin, MetIsBetween, RaiseIsSeen};

/// A raise changed one of the words that it met exactly where its row is not below them; what a seat meets is at or above
/// the join of the start and its own raises; and the raises of two seats are joined router by router.
pub fn law_of_raises()
    ensures seen { RaiseIsSeen }
    ensures met { MetIsBetween }
    ensures both { BothIsJoin }
{}
