//! What is true of numbers and refusals, stated over definitions: each law is the contract of a function that
//! does nothing.

ghost use Rattle.frr_policy.specs.Laws.{EachIsNumbered, EachIsAdded, ListsRefuseForTheRest, EachIsRefusedMapLine};

/// An entry without a written number gets the least multiple of 5 above all of its list; an entry is added
/// unless its number is there, or 64 entries are.
pub fn law_of_numbering()
    ensures next { EachIsNumbered }
    ensures added { EachIsAdded }
{}

/// The causes of lines of lists and maps, each by itself.
pub fn law_of_refusals()
    ensures lists { ListsRefuseForTheRest }
    ensures maps { EachIsRefusedMapLine }
{}
