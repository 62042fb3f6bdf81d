//! Whether a result implies a property, and else what is broken first.

ghost use Rattle.std.specs.Prelude.{ℕ, ◌≡◌, ◌<◌, ◌==◌, ◌&&◌, not, true, false, List as Seq, Option, Some, IfNone, IfSome, MatchOption, option_map};
ghost use Rattle.net_types.specs.Numbering.{router_number};
ghost use Rattle.net_types.specs.Sets.{has};
ghost use Rattle.net_types.specs.Turns.{set_of};
ghost use Rattle.refine_rounds.specs.Results.{result_of};
ghost use Rattle.implication.specs.View.{owners_plain, view_of};
ghost use Rattle.implication.specs.Closed.{IsLeast};
ghost use Rattle.implication.specs.Implied.{Bypasses, HoldsWith, IsAnswer, IsKindBroken, IsKindImplied, IsReachImplied, IsWaypointImplied, LacksRoute};
ghost use Rattle.implication.specs.OnTheWay.{AreNear, IsSeen, has_sure_route, view_seen};

use crate::nearby::{Nearby, all_nearby};
use crate::seen::Seen;
use crate::sure_routes::{has_sure_route, solid};
use crate::ways::{Way, reached};
use net_types::{Bits64, FailSet, Net, Text};
use property_book::{Broken, Kind, Property};
use refine_rounds::CaseResult;

// The least member.
fn least(set: Bits64) -> Option<u8>
    ensures least { MatchOption result ((x : ℕ) → x < 64 → has set x ≡ false) (λ x. IsLeast (λ y. has set y ≡ true) x) }
    ensures below { IfSome result (λ x. x < 64) }
{
    for number in 0..64u8 {
        if set.has(number) {
            return Some(number);
        }
    }
    None
}

// The owners that may learn.
#[tactic(auto, using(certain_fixpoint::proofs::PassLemmas::set_none, certain_fixpoint::proofs::PassLemmas::set_with, certain_fixpoint::proofs::PassLemmas::set_same))]
fn learning_owners(seen: &Seen<'_>) -> Bits64
    requires { IsSeen seen.now }
    ensures { result ≡ set_of (λ u. (view_seen seen.now).owner u && (view_seen seen.now).may_learn u) (view_seen seen.now).count }
{
    seen.net.valid();
    let count = seen.count();
    let mut found = Bits64::EMPTY;
    for router in 0..count {
        if seen.owner(router) && seen.may_learn(router) {
            found = found.with(router);
        }
    }
    found
}

// Whether no owner may learn.
#[tactic(auto, using(crate::proofs::SetLemmas::every_if_none))]
fn owners_plain(seen: &Seen<'_>) -> bool
    requires { IsSeen seen.now }
    ensures { result ≡ owners_plain (view_seen seen.now) }
{
    learning_owners(seen).is_empty()
}

// The members with no sure route.
#[tactic(auto, using(certain_fixpoint::proofs::PassLemmas::set_none, certain_fixpoint::proofs::PassLemmas::set_with, certain_fixpoint::proofs::PassLemmas::set_same))]
fn lacking(seen: &Seen<'_>, set: Bits64, solid: Bits64) -> Bits64
    requires { IsSeen seen.now }
    ensures { result ≡ set_of (λ u. has set u && not (has_sure_route (view_seen seen.now) solid u)) (view_seen seen.now).count }
{
    seen.net.valid();
    let count = seen.count();
    let mut found = Bits64::EMPTY;
    for router in 0..count {
        if set.has(router) && !has_sure_route(seen, solid, router) {
            found = found.with(router);
        }
    }
    found
}

// The owners other than the waypoint among the members.
#[tactic(auto, using(certain_fixpoint::proofs::PassLemmas::set_none, certain_fixpoint::proofs::PassLemmas::set_with, certain_fixpoint::proofs::PassLemmas::set_same))]
fn bypassing(seen: &Seen<'_>, set: Bits64, via: u8) -> Bits64
    requires { IsSeen seen.now }
    ensures { result ≡ set_of (λ u. has set u && ((view_seen seen.now).owner u && not (u == via))) (view_seen seen.now).count }
{
    seen.net.valid();
    let count = seen.count();
    let mut found = Bits64::EMPTY;
    for router in 0..count {
        if set.has(router) && (seen.owner(router) && router != via) {
            found = found.with(router);
        }
    }
    found
}

// The least router that traffic of the start may come to and that has no sure route.
fn without_route(seen: &Seen<'_>, start: u8) -> Option<u8>
    requires seen { IsSeen seen.now }
    requires start { start < (view_seen seen.now).count }
    ensures { MatchOption result (IsReachImplied (view_seen seen.now) start) (IsLeast (LacksRoute (view_seen seen.now) start)) }
{
    let set = reached(seen, Way::Back, start);
    let lacking = lacking(seen, set, solid(seen));
    least(lacking)
}

// The least owner other than the waypoint where traffic of the start may end that does not visit the waypoint.
fn around(seen: &Seen<'_>, via: u8, start: u8) -> Option<u8>
    requires seen { IsSeen seen.now }
    requires via { via < (view_seen seen.now).count }
    requires start { start < (view_seen seen.now).count }
    ensures { MatchOption result (IsWaypointImplied (view_seen seen.now) via start) (IsLeast (Bypasses (view_seen seen.now) via start)) }
{
    let excepting = owners_plain(seen);
    let set = reached(seen, Way::Around(via, excepting), start);
    let found = bypassing(seen, set, via);
    least(found)
}

// What breaks reach.
fn unsure(seen: &Seen<'_>, start: u8) -> Option<Broken>
    requires seen { IsSeen seen.now }
    requires start { start < (view_seen seen.now).count }
    ensures { MatchOption result (IsKindImplied seen.now.net.now (view_seen seen.now) start Kind.Reach) (IsKindBroken seen.now.net.now (view_seen seen.now) start Kind.Reach) }
{
    match without_route(seen, start) {
        None => None,
        Some(router) => Some(Broken::NoSureRoute(router)),
    }
}

// What breaks first of an isolated router.
#[tactic(auto, using(crate::proofs::AnswerLemmas::isolation_kind))]
fn unisolated(seen: &Seen<'_>, start: u8) -> Option<Broken>
    requires seen { IsSeen seen.now }
    requires start { start < (view_seen seen.now).count }
    ensures { MatchOption result (IsKindImplied seen.now.net.now (view_seen seen.now) start Kind.Isolated) (IsKindBroken seen.now.net.now (view_seen seen.now) start Kind.Isolated) }
{
    if seen.owner(start) {
        Some(Broken::IsOwner)
    } else if seen.may_learn(start) {
        Some(Broken::MayLearn)
    } else if seen.has_distance(start) {
        Some(Broken::HasOspf)
    } else {
        None
    }
}

fn bypass_at(router: Option<u8>) -> Option<Broken>
    ensures { result ≡ option_map (λ (u : ℕ). Broken.Bypass u) router }
{
    match router {
        Some(router) => Some(Broken::Bypass(router)),
        None => None,
    }
}

// What breaks a waypoint with this host and number.
fn bypassed(seen: &Seen<'_>, host: &Text, via: u8, start: u8) -> Option<Broken>
    requires seen { IsSeen seen.now }
    requires at { router_number seen.now.net.now host.now ≡ Some via }
    requires via { via < (view_seen seen.now).count }
    requires start { start < (view_seen seen.now).count }
    ensures { MatchOption result (IsKindImplied seen.now.net.now (view_seen seen.now) start (Kind.Waypoint host.now)) (IsKindBroken seen.now.net.now (view_seen seen.now) start (Kind.Waypoint host.now)) }
{
    bypass_at(around(seen, via, start))
}

// What breaks a waypoint with this host.
#[tactic(auto, using(crate::proofs::AnswerLemmas::waypoint_nowhere))]
fn unvisited(seen: &Seen<'_>, host: &Text, start: u8) -> Option<Broken>
    requires seen { IsSeen seen.now }
    requires start { start < (view_seen seen.now).count }
    ensures { MatchOption result (IsKindImplied seen.now.net.now (view_seen seen.now) start (Kind.Waypoint host.now)) (IsKindBroken seen.now.net.now (view_seen seen.now) start (Kind.Waypoint host.now)) }
{
    match seen.net.router_number(host.as_bytes()) {
        None => None,
        Some(via) => bypassed(seen, host, via, start),
    }
}

// What breaks first of a kind of property.
fn breaking(seen: &Seen<'_>, kind: &Kind, start: u8) -> Option<Broken>
    requires seen { IsSeen seen.now }
    requires start { start < (view_seen seen.now).count }
    ensures { MatchOption result (IsKindImplied seen.now.net.now (view_seen seen.now) start kind.now) (IsKindBroken seen.now.net.now (view_seen seen.now) start kind.now) }
{
    match kind {
        Kind::Reach => unsure(seen, start),
        Kind::Isolated => unisolated(seen, start),
        Kind::Waypoint(host) => unvisited(seen, host, start),
    }
}

// None where what is seen implies the property, else what breaks it first.
#[tactic(auto, using(crate::proofs::TellLemmas::is_seen, crate::proofs::AnswerLemmas::answer_at, crate::proofs::AnswerLemmas::answer_nowhere))]
fn answer_on(seen: &Seen<'_>, property: &Property) -> Option<Broken>
    requires prefix { seen.now.prefix ≡ property.now.prefix }
    requires known { seen.now.known.now ≡ result_of seen.now.net.now seen.now.prefix seen.now.failed.now }
    requires near { AreNear (view_seen seen.now) seen.now.nearby.now.hops seen.now.nearby.now.backs }
    ensures { IsAnswer seen.now.net.now property.now seen.now.failed.now seen.now.known.now result }
{
    seen.net.valid();
    match seen.net.router_number(property.router.as_bytes()) {
        Some(start) => breaking(seen, &property.kind, start),
        None => None,
    }
}

// None where what is known implies the property, else what breaks it first.
fn answer(
    net: &Net,
    property: &Property,
    failed: FailSet,
    known: &CaseResult,
    nearby: &Nearby,
) -> Option<Broken>
    requires known { known.now ≡ result_of net.now property.now.prefix failed }
    requires near { AreNear (view_of net.now property.now.prefix failed known.now) nearby.now.hops nearby.now.backs }
    ensures { IsAnswer net.now property.now failed known.now result }
{
    let seen = Seen {
        net,
        prefix: property.prefix,
        failed: &failed,
        known,
        nearby,
    };
    answer_on(&seen, property)
}

/// None where what is known implies the property, which is then true in every stable labelling; else what breaks it first:
/// the least router without a sure route, the first cause why a router is not isolated, or the least owner that may be
/// reached around the waypoint. What is known is the result of the property's prefix with these links failed, and where
/// one step leads in it. Nothing is said of a property that names a router which is not there: it counts as implied. This
/// project's own.
#[tactic(auto, using(crate::proofs::TellLemmas::answer_holds))]
pub fn implied_with(
    net: &Net,
    property: &Property,
    failed: FailSet,
    known: &CaseResult,
    nearby: &Nearby,
) -> Option<Broken>
    requires known { known.now ≡ result_of net.now property.now.prefix failed }
    requires near { AreNear (view_of net.now property.now.prefix failed known.now) nearby.now.hops nearby.now.backs }
    ensures answer { IsAnswer net.now property.now failed known.now result }
    ensures holds { IfNone result (HoldsWith net.now property.now failed) }
{
    net.valid();
    answer(net, property, failed, known, nearby)
}

/// The same, where only one property is asked of the case.
pub fn implied(
    net: &Net,
    property: &Property,
    failed: FailSet,
    known: &CaseResult,
) -> Option<Broken>
    requires { known.now ≡ result_of net.now property.now.prefix failed }
    ensures answer { IsAnswer net.now property.now failed known.now result }
    ensures holds { IfNone result (HoldsWith net.now property.now failed) }
{
    let nearby = all_nearby(net, &property.prefix, failed, known);
    implied_with(net, property, failed, known, &nearby)
}
