//! What is true of lines and states, stated over definitions: each law is the contract of a function that does
//! nothing.

ghost use Rattle.frr_reader.specs.FirstRefusal.{IsReadOnce};
ghost use Rattle.frr_reader.specs.LineLaws.{EachLineIsPlaced, EachLineHasItsCause, EachIsTakenInnermost, SameMapHeads};
ghost use Rattle.frr_reader.specs.StateLaws.{OpensTheNamedInterface, ChangesTheOpenInterface, LosesNoEntry, OpensWhatItBegins, ChangesTheOpenEntry};

/// Lines are numbered one after another, and the last reaches to the file's end; each cause of a line by
/// itself; a line is taken in the innermost mode that has a row with its head; and the heads of the lines of
/// maps are those that `frr_policy` reads.
pub fn law_of_lines()
    ensures places { EachLineIsPlaced }
    ensures causes { EachLineHasItsCause }
    ensures innermost { EachIsTakenInnermost }
    ensures heads { SameMapHeads }
{}

/// What a line opens is what it names, what it changes is what is open, and all else stays.
pub fn law_of_states()
    ensures interface { OpensTheNamedInterface }
    ensures interfaces { ChangesTheOpenInterface }
    ensures entries { LosesNoEntry }
    ensures opened { OpensWhatItBegins }
    ensures changed { ChangesTheOpenEntry }
{}

/// Each file has a configuration or a refusal, never both, and only one: the refusal of its first refused
/// line, or what is missing after the last one.
pub fn law_of_reading(_text: &[u8])
    ensures { IsReadOnce _text.now }
{}
