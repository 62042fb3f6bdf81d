//! Ascending lists without repeats.

ghost use Rattle.std.specs.Prelude.{◌≡◌, IfOk, None};
ghost use Rattle.std.specs.Ordering.{is_lt};
ghost use Rattle.topology.specs.Ascending.{IsLinear, ascending, is_last, once_behind};

use net_types::{Notice, Prefix};
use std::alloc::{AllocError, Global};
use std::cmp::Ordering;

/// What has an order: which two are one, and which comes before the other.
pub trait Ranked: Copy {
    ghost use Rattle.std.specs.Prelude.{◌≡◌, Bool};

    ghost same: { Self → Self → Bool };

    ghost before: { Self → Self → Bool };

    /// Whether the two are one.
    fn is_one_with(&self, other: &Self) -> bool
        ensures { result ≡ same self.now other.now };

    /// Whether this comes before the other.
    fn comes_before(&self, other: &Self) -> bool
        ensures { result ≡ before self.now other.now };
}

impl Ranked for Prefix {
    ghost use Rattle.net_types.specs.Prefixes.{same_prefix, prefix_before};

    ghost same = { same_prefix };

    ghost before = { prefix_before };

    fn is_one_with(&self, other: &Prefix) -> bool {
        self.is_same(other)
    }

    fn comes_before(&self, other: &Prefix) -> bool {
        self.is_before(other)
    }
}

impl Ranked for u32 {
    ghost use Rattle.std.specs.Prelude.{nat_eq, nat_lt};

    ghost same = { nat_eq };

    ghost before = { nat_lt };

    fn is_one_with(&self, other: &u32) -> bool {
        *self == *other
    }

    fn comes_before(&self, other: &u32) -> bool {
        *self < *other
    }
}

impl Ranked for Notice {
    ghost use Rattle.net_types.specs.NetFacts.{notice_before};
    ghost use Rattle.topology.specs.Notices.{same_notice};

    ghost same = { same_notice };

    ghost before = { notice_before };

    fn is_one_with(&self, other: &Notice) -> bool {
        self.router == other.router && self.address == other.address
    }

    fn comes_before(&self, other: &Notice) -> bool {
        self.router < other.router || self.router == other.router && self.address < other.address
    }
}

// Which of the two comes first.
fn rank<T: Ranked>(a: &T, b: &T) -> Ordering
    ensures { is_lt result ≡ T.before a.now b.now }
{
    if a.comes_before(b) {
        Ordering::Less
    } else if b.comes_before(a) {
        Ordering::Greater
    } else {
        Ordering::Equal
    }
}

fn is_last<T: Ranked>(last: &Option<T>, item: &T) -> bool
    ensures { result ≡ is_last T.same last.now item.now }
{
    match last {
        Some(last) => last.is_one_with(item),
        None => false,
    }
}

// The items but each that is one with the one kept before it.
fn each_once<T: Ranked>(alloc: Global, items: &[T]) -> Result<Vec<T>, AllocError>
    ensures { IfOk result (λ v. v.items ≡ once_behind T.same None items.now) }
{
    let mut all = Vec::new(alloc);
    let mut last = None;
    for item in items {
        if !is_last(&last, item) {
            all.push(*item)?;
            last = Some(*item);
        }
    }
    Ok(all)
}

/// The items in ascending order, each once.
pub fn ascending<T: Ranked>(alloc: Global, items: Vec<T>) -> Result<Vec<T>, AllocError>
    requires { IsLinear T.same T.before }
    ensures { IfOk result (λ v. v.items ≡ ascending T.same T.before items.items) }
{
    let mut sorted = items;
    sorted.sort_unstable_by(|a, b| rank(a, b));
    each_once(alloc, &sorted)
}
