//! Where steps back and hops lead from a router, in one step and in all.

ghost use Rattle.std.specs.Prelude.{◌≡◌, ◌<◌, ◌+◌, ◌==◌, ◌&&◌, ◌||◌, not};
ghost use Rattle.implication.specs.View.{surely_learned};
ghost use Rattle.implication.specs.Implied.{leads_around, reach_leads};
ghost use Rattle.implication.specs.OnTheWay.{AreAfter, IsReached, IsSeen, IsSetOf, IsWayInside, leads, view_seen};

use crate::seen::Seen;
use net_types::Bits64;

/// How a set of routers grows: by steps back, or around a waypoint, with its exception or without.
#[derive(Clone, Copy, PartialEq, Eq, Debug)]
pub(crate) enum Way {
    /// By steps back, going past no owner.
    Back,
    /// By steps back and hops, past neither the waypoint nor an owner.
    Around(u8, bool),
}

// The steps back that lead on, past no owner.
fn after_back(seen: &Seen<'_>, from: u8) -> Bits64
    requires seen { IsSeen seen.now }
    requires from { from < (view_seen seen.now).count }
    ensures { IsSetOf (reach_leads (view_seen seen.now) from) (view_seen seen.now).count result }
{
    if seen.owner(from) {
        Bits64::EMPTY
    } else {
        seen.backs(from)
    }
}

// The steps back that the exception does not leave out.
fn backs_unless(seen: &Seen<'_>, via: u8, excepting: bool, from: u8) -> Bits64
    requires seen { IsSeen seen.now }
    requires via { via < (view_seen seen.now).count }
    requires from { from < (view_seen seen.now).count }
    ensures { IsSetOf (λ v. (view_seen seen.now).back from v && not (excepting && (view_seen seen.now).must_have from via)) (view_seen seen.now).count result }
{
    if excepting && seen.must_have(from, via) {
        Bits64::EMPTY
    } else {
        seen.backs(from)
    }
}

// The hops, where the router has not surely learned.
fn hops_unless(seen: &Seen<'_>, from: u8) -> Bits64
    requires seen { IsSeen seen.now }
    requires from { from < (view_seen seen.now).count }
    ensures { IsSetOf (λ v. not (surely_learned (view_seen seen.now) from) && (view_seen seen.now).hop from v) (view_seen seen.now).count result }
{
    if seen.surely_learned(from) {
        Bits64::EMPTY
    } else {
        seen.hops(from)
    }
}

// Whether nothing leads on from the router: it is the waypoint or an owner.
fn stops(seen: &Seen<'_>, via: u8, from: u8) -> bool
    requires { from < (view_seen seen.now).count }
    ensures { result ≡ (from == via || (view_seen seen.now).owner from) }
{
    from == via || seen.owner(from)
}

// Where a router leads on to, past neither the waypoint nor an owner.
fn after_around(seen: &Seen<'_>, via: u8, excepting: bool, from: u8) -> Bits64
    requires seen { IsSeen seen.now }
    requires via { via < (view_seen seen.now).count }
    requires from { from < (view_seen seen.now).count }
    ensures { IsSetOf (leads_around (view_seen seen.now) via excepting from) (view_seen seen.now).count result }
{
    if stops(seen, via, from) {
        Bits64::EMPTY
    } else {
        backs_unless(seen, via, excepting, from).union(hops_unless(seen, from))
    }
}

// The routers that a router leads on to.
fn after(seen: &Seen<'_>, way: Way, from: u8) -> Bits64
    requires seen { IsSeen seen.now }
    requires way { IsWayInside (view_seen seen.now) way }
    requires from { from < (view_seen seen.now).count }
    ensures { IsSetOf (leads (view_seen seen.now) way from) (view_seen seen.now).count result }
{
    match way {
        Way::Back => after_back(seen, from),
        Way::Around(via, excepting) => after_around(seen, via, excepting, from),
    }
}

// What was found, with what a member leads on to.
fn with_after(seen: &Seen<'_>, way: Way, set: Bits64, found: Bits64, from: u8) -> Bits64
    requires seen { IsSeen seen.now }
    requires way { IsWayInside (view_seen seen.now) way }
    requires from { from < (view_seen seen.now).count }
    requires before { AreAfter (leads (view_seen seen.now) way) (view_seen seen.now).count set from found }
    ensures { AreAfter (leads (view_seen seen.now) way) (view_seen seen.now).count set (from + 1) result }
{
    seen.net.valid();
    if set.has(from) {
        found.union(after(seen, way, from))
    } else {
        found
    }
}

// What the members lead on to.
fn all_after(seen: &Seen<'_>, way: Way, set: Bits64) -> Bits64
    requires seen { IsSeen seen.now }
    requires way { IsWayInside (view_seen seen.now) way }
    ensures { AreAfter (leads (view_seen seen.now) way) (view_seen seen.now).count set (view_seen seen.now).count result }
{
    let count = seen.count();
    let mut found = Bits64::EMPTY;
    for from in 0..count {
        found = with_after(seen, way, set, found, from);
    }
    found
}

/// The start and all that it leads to in some steps.
pub(crate) fn reached(seen: &Seen<'_>, way: Way, start: u8) -> Bits64
    requires seen { IsSeen seen.now }
    requires way { IsWayInside (view_seen seen.now) way }
    requires start { start < (view_seen seen.now).count }
    ensures { IsReached (leads (view_seen seen.now) way) start result }
{
    seen.net.valid();
    let mut set = Bits64::EMPTY.with(start);
    let mut next = set.union(all_after(seen, way, set));
    while next != set {
        set = next;
        next = set.union(all_after(seen, way, set));
    }
    set
}
