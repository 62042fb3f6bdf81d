//! Laws of conversations, one after the other.

ghost use Rattle.serving.specs.Calm.{AcceptedAreAnswered, CalmTurnsAreAnswered};
ghost use Rattle.serving.specs.Repeats.{RepeatsActOnce, RepeatsAreAnswered, TurnsAreSteps};

/// Where no count of faults rose, each conversation gets its answer, or 507 with all unchanged.
pub fn law_of_calm_turns()
    ensures { CalmTurnsAreAnswered }
{}

/// A command that breaks no rule is accepted in such a conversation, or answered 507 with all unchanged.
pub fn law_of_accepted_commands()
    ensures { AcceptedAreAnswered }
{}

/// Conversations that ask again for what was accepted before change nothing: without them the others leave the same
/// state. Each gets the reply of the first time, or 507; or, where the door failed, a beginning of it, or nothing.
pub fn law_of_repeats()
    ensures once { RepeatsActOnce }
    ensures answered { RepeatsAreAnswered }
{}

/// Conversations that were served one after the other are steps, of which the law of repeats speaks.
pub fn law_of_turns()
    ensures { TurnsAreSteps }
{}
