//! The idle links of the sets that were gone over.

ghost use Rattle.std.specs.Prelude.{ℕ, ◌≡◌, ◌<◌, ◌≤◌, length, Some, true};
ghost use Rattle.net_types.specs.FailSets.{holds, without};
ghost use Rattle.failure_sets.specs.SetOrder.{IsPermitted};
ghost use Rattle.failure_sets.specs.SetList.{place_of};
ghost use Rattle.case_walk.specs.Words.{has_in, word_of, spare_in};

use failure_sets::place;
use net_types::{Bits64, FailSet};

/// The word of the set.
pub(crate) fn word_at(words: &[Bits64], links: u8, set: FailSet) -> Bits64
    requires links { links ≤ 64 }
    requires set { IsPermitted links 3 set }
    requires within { place_of links set < length words.now }
    ensures { word_of links words.now set ≡ Some result }
{
    words[place(links, set) as usize]
}

// Whether the link is in the word of the set without it.
fn is_idle_before(words: &[Bits64], links: u8, set: FailSet, link: u8) -> bool
    requires links { links ≤ 64 }
    requires set { IsPermitted links 3 set }
    requires link { holds set link ≡ true }
    requires within { place_of links set ≤ length words.now }
    ensures { result ≡ has_in link (word_of links words.now (without set link)) }
{
    word_at(words, links, set.without(link)).has(link)
}

/// The least link of the set that is in the word of the set without it.
#[tactic(auto, unfolding(crate::specs::Words::spare_in))]
pub(crate) fn find_spare(words: &[Bits64], links: u8, set: FailSet) -> Option<u8>
    requires links { links ≤ 64 }
    requires set { IsPermitted links 3 set }
    requires within { place_of links set ≤ length words.now }
    ensures { result ≡ spare_in links words.now set }
{
    for link in set.as_slice() {
        if is_idle_before(words, links, set, *link) {
            return Some(*link);
        }
    }
    None
}
