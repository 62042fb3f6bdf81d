//! The walk through all permitted sets in order.

ghost use Rattle.std.specs.Prelude.{ℕ, ◌≡◌, ◌≤◌, ◌<◌, ◌+◌, ◌∷◌, [], length, Some, MatchOption};
ghost use Rattle.std.specs.List.{slice_get};
ghost use Rattle.failure_sets.specs.SetOrder.{IsPermitted, IsLast, IsLeastAfter};
ghost use Rattle.failure_sets.specs.SetList.{failure_sets, next_of};
ghost use Rattle.failure_sets.specs.Steps.{next_in_size, first_of_size};

use net_types::FailSet;

/// The first set, which is the empty one.
pub fn first() -> FailSet
    ensures empty { result ≡ [] }
    ensures permitted { (links most : ℕ) → IsPermitted links most result }
    ensures first { (links most : ℕ) → slice_get (failure_sets links most) 0 ≡ Some result }
{
    FailSet::empty()
}

/// The set behind this one in the order of the permitted sets, none behind the last.
pub fn next(links: u8, most: u8, set: FailSet) -> Option<FailSet>
    requires links { links ≤ 64 }
    requires most { most ≤ 3 }
    requires set { IsPermitted links most set }
    ensures behind { result ≡ next_of links most set }
    ensures least { MatchOption result (IsLast links most set) (λ next. IsLeastAfter links most set next) }
{
    let size = set.as_slice().len();
    match next_of_size(links, set) {
        Some(next) => Some(next),
        None if size < usize::from(most) => first_of(links, size + 1),
        None => None,
    }
}

/// The set behind this one, among the sets of as many links.
#[tactic(auto, using(crate::proofs::StepLemmas::empty_ends))]
fn next_of_size(links: u8, set: FailSet) -> Option<FailSet>
    requires links { links ≤ 64 }
    requires set { IsPermitted links 3 set }
    ensures { result ≡ next_in_size links set }
{
    match *set.as_slice() {
        [] => None,
        [a] => next_single(links, a),
        [a, b] => next_pair(links, a, b),
        [a, b, c, ..] => next_triple(links, a, b, c),
    }
}

/// The first set of `size` links, if there are as many links.
#[tactic(auto, using(crate::proofs::StepLemmas::first_single, crate::proofs::StepLemmas::first_two, crate::proofs::StepLemmas::first_three, crate::proofs::StepLemmas::first_missing))]
fn first_of(links: u8, size: usize) -> Option<FailSet>
    requires least { 1 ≤ size }
    requires most { size ≤ 3 }
    ensures { result ≡ first_of_size links size }
{
    if usize::from(links) < size {
        return None;
    }
    if size == 1 {
        return Some(single(0));
    }
    if size == 2 {
        return Some(pair(0, 1));
    }
    Some(triple(0, 1, 2))
}

/// The set of one link behind that of `a`.
#[tactic(auto, using(crate::proofs::StepLemmas::single_goes_up, crate::proofs::StepLemmas::single_ends))]
fn next_single(links: u8, a: u8) -> Option<FailSet>
    requires links { links ≤ 64 }
    requires a { a < links }
    ensures { result ≡ next_in_size links (a ∷ []) }
{
    if a + 1 < links {
        return Some(single(a + 1));
    }
    None
}

/// The set of two links behind that of `a` and `b`.
#[tactic(auto, using(crate::proofs::StepLemmas::pair_goes_up, crate::proofs::StepLemmas::pair_goes_over, crate::proofs::StepLemmas::pair_ends))]
fn next_pair(links: u8, a: u8, b: u8) -> Option<FailSet>
    requires links { links ≤ 64 }
    requires order { a < b }
    requires below { b < links }
    ensures { result ≡ next_in_size links (a ∷ b ∷ []) }
{
    if b + 1 < links {
        return Some(pair(a, b + 1));
    }
    if a + 2 < links {
        return Some(pair(a + 1, a + 2));
    }
    None
}

/// The set of three links behind that of `a`, `b` and `c`.
#[tactic(auto, using(crate::proofs::StepLemmas::triple_goes_up, crate::proofs::StepLemmas::triple_goes_over, crate::proofs::StepLemmas::triple_starts_over, crate::proofs::StepLemmas::triple_ends))]
fn next_triple(links: u8, a: u8, b: u8, c: u8) -> Option<FailSet>
    requires links { links ≤ 64 }
    requires low { a < b }
    requires high { b < c }
    requires below { c < links }
    ensures { result ≡ next_in_size links (a ∷ b ∷ c ∷ []) }
{
    if c + 1 < links {
        return Some(triple(a, b, c + 1));
    }
    if b + 2 < links {
        return Some(triple(a, b + 1, b + 2));
    }
    if a + 3 < links {
        return Some(triple(a + 1, a + 2, a + 3));
    }
    None
}

/// The set of this link.
fn single(a: u8) -> FailSet
    ensures { result ≡ a ∷ [] }
{
    FailSet {
        count: 1,
        links: [a, 255, 255],
    }
}

/// The set of these links.
fn pair(a: u8, b: u8) -> FailSet
    requires { a < b }
    ensures { result ≡ a ∷ b ∷ [] }
{
    FailSet {
        count: 2,
        links: [a, b, 255],
    }
}

/// The set of these links.
fn triple(a: u8, b: u8, c: u8) -> FailSet
    requires low { a < b }
    requires high { b < c }
    ensures { result ≡ a ∷ b ∷ c ∷ [] }
{
    FailSet {
        count: 3,
        links: [a, b, c],
    }
}
