//! Which of two routes is better.

ghost use Rattle.std.specs.Prelude.{◌≡◌};
ghost use Rattle.net_types.specs.Better.{is_better, med_step, source_rank};

use net_types::{Net, Route, Source, same_router};
use std::cmp::Ordering;

// Local comes before learned.
fn source_rank(source: Source) -> u8
    ensures { result ≡ source_rank source }
{
    match source {
        Source::Local => 0,
        Source::Learned(_) => 1,
    }
}

// By MED, where both routes are learned from one router.
fn by_med(net: &Net, a: &Route, b: &Route) -> Ordering
    ensures { result ≡ med_step net.now a.now.source b.now.source a.now.med b.now.med }
{
    match (a.source, b.source) {
        (Source::Learned(over), Source::Learned(other)) => {
            if same_router(net.sender_of(over), net.sender_of(other)) {
                a.med.cmp(&b.med)
            } else {
                Ordering::Equal
            }
        }
        _ => Ordering::Equal,
    }
}

/// Whether `a` is better than `b`: the first step that sees a difference decides. The steps are greater
/// weight, greater local preference, local before learned, shorter path, lower origin, and lower MED where
/// both are learned from one router; after these neither is better. After RFC 4271, 9.1.1 and 9.1.2.2;
/// weight, local before learned and the open tie are this project's own.
pub fn better(net: &Net, a: &Route, b: &Route) -> bool
    ensures { result ≡ is_better net.now a.now b.now }
{
    let by_weight = b.weight.cmp(&a.weight);
    let by_preference = b.preference.cmp(&a.preference);
    let by_source = source_rank(a.source).cmp(&source_rank(b.source));
    let by_length = a.path.len().cmp(&b.path.len());
    let by_origin = a.origin.rank().cmp(&b.origin.rank());
    by_weight
        .then(by_preference)
        .then(by_source)
        .then(by_length)
        .then(by_origin)
        .then(by_med(net, a, b))
        .is_lt()
}
