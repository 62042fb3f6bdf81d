//! What is true of the words of the project, stated over definitions: each law is the contract of a
//! function that does nothing.

ghost use Rattle.net_types.specs.Laws.{AddressesLieInTheirSubnets, CoversEachAddress, OverlapsAtAnAddress, SamePrefixIsOne, PrefixesAreApart, OnePrefixIsFirst, EarlierIsEarlier, CoveringComesFirst, BetterIsAhead, OneIsBetter, BetterGoesOn, UpGoesToTheHigher, DownGoesBack, AdjacenciesAreCrossed, OnlyAdjacenciesAreCrossed, EntriesAreOwned, OwnersHaveEntries, StubsAreOwned, WithoutHoldsTheOthers, WithoutIsFailureSet, WordsAreSets, WordsChangeByOne, WordsHaveEnds, SameMembersAreOneSet, NumbersReadBack, NumbersHaveOneText, AddressesReadBack, AddressesHaveOneText, PrefixesReadBack, PrefixesHaveOneText, CommunitiesReadBack, NamedCommunitiesAreRead};

/// A prefix is a set of addresses: it covers another where it holds each address of the other, and two
/// overlap where they share one.
pub fn law_of_addresses()
    ensures subnets { AddressesLieInTheirSubnets }
    ensures covers { CoversEachAddress }
    ensures overlaps { OverlapsAtAnAddress }
{}

/// Prefixes have one order, in which a prefix comes before those that it covers.
pub fn law_of_prefixes()
    ensures same { SamePrefixIsOne }
    ensures apart { PrefixesAreApart }
    ensures first { OnePrefixIsFirst }
    ensures earlier { EarlierIsEarlier }
    ensures covering { CoveringComesFirst }
{}

/// A route is better than another exactly where it is ahead: by weight, or with equal weight by preference,
/// and so on, MED being compared where both come from one router.
pub fn law_of_order()
    ensures { BetterIsAhead }
{}

/// No route is better than itself, and what is better than a better one is better.
pub fn law_of_better()
    ensures one { OneIsBetter }
    ensures on { BetterGoesOn }
{}

/// A link's two arcs: up from the lower router number to the higher, down back, each at the cost of the
/// interface that it leaves by.
pub fn law_of_arcs()
    ensures up { UpGoesToTheHigher }
    ensures down { DownGoesBack }
    ensures crossed { AdjacenciesAreCrossed }
    ensures only { OnlyAdjacenciesAreCrossed }
{}

/// A router owns the prefixes of its entries, and its stubs are theirs.
pub fn law_of_owners()
    ensures entries { EntriesAreOwned }
    ensures owners { OwnersHaveEntries }
    ensures stubs { StubsAreOwned }
{}

/// A failure set without a link holds the others.
pub fn law_of_failure_sets()
    ensures others { WithoutHoldsTheOthers }
    ensures valid { WithoutIsFailureSet }
{}

/// Sets of numbers below 64, which contracts see as words, asked of one number.
pub fn law_of_words()
    ensures joined { WordsAreSets }
    ensures one { WordsChangeByOne }
    ensures ends { WordsHaveEnds }
    ensures same { SameMembersAreOneSet }
{}

/// A number is read from its decimal text alone.
pub fn law_of_numbers()
    ensures back { NumbersReadBack }
    ensures one { NumbersHaveOneText }
{}

/// Addresses and prefixes are read from the texts that are written of them, and from no others.
pub fn law_of_texts()
    ensures addresses { AddressesReadBack }
    ensures one_address { AddressesHaveOneText }
    ensures prefixes { PrefixesReadBack }
    ensures one_prefix { PrefixesHaveOneText }
{}

/// Communities are read from their halves or names.
pub fn law_of_communities()
    ensures halves { CommunitiesReadBack }
    ensures names { NamedCommunitiesAreRead }
{}
