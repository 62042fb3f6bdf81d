//! Candidates of a router, and when one beats another.

ghost use Rattle.std.specs.Prelude.{◌≡◌};
ghost use Rattle.abstract_route.specs.Beats.{beats as does_beat, by_less, by_med, by_more, sender_rank};

use crate::{Range, Row};
use std::cmp::Ordering;

/// What may come to a router from one place.
#[derive(Clone, Copy, PartialEq, Eq, Debug)]
pub struct Candidate {
    /// What is known of its routes.
    pub row: Row,
    /// The router that they are learned from; `None` where they are local.
    pub sender: Option<u8>,
}

/// Whether the worst route of `a` is better than the best of `b`, at the first step of the comparison of
/// routes where the two differ. Where none differs, `a` does not beat `b`.
pub fn beats(a: &Candidate, b: &Candidate) -> bool
    ensures { result ≡ does_beat a.now b.now }
{
    let by_weight = more_first(a.row.weight, b.row.weight);
    let by_preference = more_first(a.row.preference, b.row.preference);
    let by_source = rank_of(a.sender).cmp(&rank_of(b.sender));
    let by_length = less_first(a.row.length, b.row.length);
    let by_origin = less_first(a.row.origin, b.row.origin);
    by_weight
        .then(by_preference)
        .then(by_source)
        .then(by_length)
        .then(by_origin)
        .then(med_first(a, b))
        .is_lt()
}

fn more_first(a: Range, b: Range) -> Ordering
    ensures { result ≡ by_more a b }
{
    b.high.cmp(&a.low)
}

fn less_first(a: Range, b: Range) -> Ordering
    ensures { result ≡ by_less a b }
{
    a.high.cmp(&b.low)
}

fn rank_of(sender: Option<u8>) -> u8
    ensures { result ≡ sender_rank sender }
{
    match sender {
        None => 0,
        Some(_) => 1,
    }
}

fn med_first(a: &Candidate, b: &Candidate) -> Ordering
    ensures { result ≡ by_med a.now b.now }
{
    match (a.sender, b.sender) {
        (Some(u), Some(v)) if u == v => less_first(a.row.med, b.row.med),
        _ => Ordering::Equal,
    }
}
