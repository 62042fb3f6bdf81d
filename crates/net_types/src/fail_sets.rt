//! Sets of at most three failed links.

ghost use Rattle.std.specs.Prelude.{◌≡◌, ◌↔◌, [], IsSome, IfSome};
ghost use Rattle.net_types.specs.FailSets.{IsFailureSet, holds, without};

use std::marker::Model;

/// A set of at most three links, which have failed. Contracts see the ascending list of their numbers.
#[derive(Clone, Copy, PartialEq, Eq, Debug)]
pub struct FailSet {
    /// How many links there are.
    pub count: u8,
    /// Their numbers, ascending, the places past `count` holding 255.
    pub links: [u8; 3],
}

impl Model for FailSet {
    ghost use Rattle.std.specs.Prelude.{List as Seq, ℕ, length, take};
    ghost use Rattle.std.specs.Coded.{coded_list, coded_ℕ};
    ghost use Rattle.net_types.specs.FailSets.{IsPadded, padded};

    ghost Value = { Seq ℕ };

    ghost coded = { coded_list coded_ℕ };

    ghost view = { λ s. take s.count s.links };

    ghost invariant = { λ s. IsPadded s.count s.links };

    ghost inverse = { λ v. record { count = length v; links = padded v } };

    ghost inverse_ok = { λ a h. λ i. record { count = h.long i; links = h.rest i } };
}

impl FailSet {
    /// The set of no link.
    pub fn empty() -> FailSet
        ensures { result ≡ [] }
    {
        FailSet {
            count: 0,
            links: [255; 3],
        }
    }

    /// The set of these links, or none where they are not ascending or more than three.
    pub fn of(links: &[u8]) -> Option<FailSet>
        ensures some { IsSome result ↔ IsFailureSet links.now }
        ensures set { IfSome result (λ s. s ≡ links.now) }
    {
        match links {
            [] => Some(FailSet::empty()),
            [a] => Some(FailSet {
                count: 1,
                links: [*a, 255, 255],
            }),
            [a, b] if a < b => Some(FailSet {
                count: 2,
                links: [*a, *b, 255],
            }),
            [a, b, c] if a < b && b < c => Some(FailSet {
                count: 3,
                links: [*a, *b, *c],
            }),
            _ => None,
        }
    }

    /// The links, ascending.
    pub fn as_slice(&self) -> &[u8]
        ensures set { result.now ≡ self.now }
        ensures valid { IsFailureSet self.now }
    {
        &self.links[..usize::from(self.count)]
    }

    /// Whether the link is in the set.
    pub fn holds(&self, link: u8) -> bool
        ensures { result ≡ holds self.now link }
    {
        self.as_slice().iter().any(|number| *number == link)
    }

    /// The set without the link.
    pub fn without(&self, link: u8) -> FailSet
        ensures { result ≡ without self.now link }
    {
        match *self.as_slice() {
            [a, b, c] if a == link => FailSet {
                count: 2,
                links: [b, c, 255],
            },
            [a, b, c] if b == link => FailSet {
                count: 2,
                links: [a, c, 255],
            },
            [a, b, c] if c == link => FailSet {
                count: 2,
                links: [a, b, 255],
            },
            [a, b] if a == link => FailSet {
                count: 1,
                links: [b, 255, 255],
            },
            [a, b] if b == link => FailSet {
                count: 1,
                links: [a, 255, 255],
            },
            [a] if a == link => FailSet::empty(),
            _ => *self,
        }
    }
}
