//! Laws of the answer.

ghost use Rattle.http_desk.specs.Serves.{CutsDontMatter, HasOneAnswer, RepeatsActOnce};

/// A conversation has at most one answer.
pub fn law_of_one_answer()
    ensures { HasOneAnswer }
{}

/// A reply depends on the conversation's bytes and the state alone, but for want of the keeper and of memory.
pub fn law_of_cuts()
    ensures { CutsDontMatter }
{}

/// A command that was accepted before under its key gets the reply of then, and changes nothing.
pub fn law_of_repeats()
    ensures { RepeatsActOnce }
{}
