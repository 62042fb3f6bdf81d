//! Laws of what is answered.

ghost use Rattle.desk_replies.specs.Laws.{HavePhrases, NamesAreInOrder};

/// The codes of the desk have these phrases.
pub fn law_of_phrases()
    ensures { HavePhrases }
{}

/// The names of those who approved a review are told in byte order, each once.
pub fn law_of_names()
    ensures { NamesAreInOrder }
{}
