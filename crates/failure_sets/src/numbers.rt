//! How many failure sets there are, and where each stands.

ghost use Rattle.std.specs.Prelude.{ℕ, ◌≡◌, ◌≤◌, ◌<◌, ◌^◌, ◌∷◌, [], length, Some};
ghost use Rattle.std.specs.List.{slice_get};
ghost use Rattle.failure_sets.specs.SetOrder.{IsPermitted};
ghost use Rattle.failure_sets.specs.SetList.{failure_sets, place_of};
ghost use Rattle.failure_sets.specs.Places.{choose, place_among};

use net_types::FailSet;

/// How many permitted sets there are: of at most `most` links, each below `links`.
#[tactic(auto, using(crate::proofs::NumberLemmas::count_none, crate::proofs::NumberLemmas::count_one, crate::proofs::NumberLemmas::count_two, crate::proofs::NumberLemmas::count_three))]
pub fn count(links: u8, most: u8) -> u64
    requires links { links ≤ 64 }
    requires most { most ≤ 3 }
    ensures number { result ≡ length (failure_sets links most) }
    ensures small { result < 2 ^ 32 }
{
    let many = u64::from(links);
    match most {
        0 => 1,
        1 => 1 + many,
        2 => 1 + many + pairs(many),
        _ => 1 + many + pairs(many) + triples(many),
    }
}

/// The place of the set in the order of the permitted sets, from 0.
pub fn place(links: u8, set: FailSet) -> u64
    requires links { links ≤ 64 }
    requires set { IsPermitted links 3 set }
    ensures place { result ≡ place_of links set }
    ensures position { (most : ℕ) → length set ≤ most → slice_get (failure_sets links most) result ≡ Some set }
    ensures small { result < 2 ^ 32 }
{
    let many = u64::from(links);
    match *set.as_slice() {
        [] => 0,
        [a] => 1 + u64::from(a),
        [a, b] => 1 + many + place_of_pair(many, 0, u64::from(a), u64::from(b)),
        [a, b, c, ..] => {
            1 + many + pairs(many) + place_of_triple(many, u64::from(a), u64::from(b), u64::from(c))
        }
    }
}

/// How many sets of two numbers `many` numbers have.
#[tactic(auto, using(crate::proofs::NumberLemmas::pairs_are))]
fn pairs(many: u64) -> u64
    requires { many ≤ 64 }
    ensures number { result ≡ choose many 2 }
    ensures small { result ≤ 2048 }
{
    many * many.saturating_sub(1) / 2
}

/// How many sets of three numbers `many` numbers have.
#[tactic(auto, using(crate::proofs::NumberLemmas::triples_are))]
fn triples(many: u64) -> u64
    requires { many ≤ 64 }
    ensures number { result ≡ choose many 3 }
    ensures small { result ≤ 65536 }
{
    many * many.saturating_sub(1) * many.saturating_sub(2) / 6
}

/// The place of a set of two links among the sets of two links from `least` on and below `many`.
fn place_of_pair(many: u64, least: u64, a: u64, b: u64) -> u64
    requires many { many ≤ 64 }
    requires least { least ≤ a }
    requires order { a < b }
    requires below { b < many }
    ensures place { result ≡ place_among many least (a ∷ b ∷ []) }
    ensures small { result ≤ 4096 }
{
    pairs(many - least) - pairs(many - a) + (b - a - 1)
}

/// The place of a set of three links among the sets of three links below `many`.
fn place_of_triple(many: u64, a: u64, b: u64, c: u64) -> u64
    requires many { many ≤ 64 }
    requires low { a < b }
    requires high { b < c }
    requires below { c < many }
    ensures place { result ≡ place_among many 0 (a ∷ b ∷ c ∷ []) }
    ensures small { result ≤ 131072 }
{
    triples(many) - triples(many - a) + place_of_pair(many, a + 1, b, c)
}
