//! Routes of BGP.

ghost use Rattle.std.specs.Prelude.{◌≡◌, IfOk};
ghost use Rattle.net_types.specs.Routes.{sent_med};

use crate::{Arc, Bits64, List, NoMemory, Origin};
use std::alloc::Global;

/// Where a route comes from.
#[derive(Clone, Copy, PartialEq, Eq, Debug)]
pub enum Source {
    /// The router originates it.
    Local,
    /// It was learned over this arc.
    Learned(Arc),
}

impl Source {
    /// The MED that is sent of a route with this source and MED: 0 of a learned one (RFC 4271, section 5.1.4).
    pub fn sent_med(self, med: u32) -> u32
        ensures { result ≡ sent_med self med }
    {
        match self {
            Source::Local => med,
            Source::Learned(_) => 0,
        }
    }
}

/// A route of BGP at one router, with the attributes of RFC 4271, section 5.
#[derive(Debug, Drop)]
pub struct Route {
    /// The weight: local to the router, the greater the better. This project's own.
    pub weight: u32,
    /// The local preference.
    pub preference: u32,
    /// The AS path, as router numbers in place of their AS numbers, the nearest first.
    pub path: List<u8>,
    /// The origin.
    pub origin: Origin,
    /// The multi-exit discriminator.
    pub med: u32,
    /// The communities (RFC 1997), as numbers of the network's list of communities.
    pub communities: Bits64,
    /// Where it comes from.
    pub source: Source,
}

impl Route {
    /// The same route once more.
    ///
    /// # Errors
    ///
    /// [`NoMemory`] where there was none for its path.
    pub fn copy(&self, alloc: Global) -> Result<Route, NoMemory>
        ensures { IfOk result (λ copy. copy ≡ self.now) }
    {
        Ok(Route {
            weight: self.weight,
            preference: self.preference,
            path: List::from_slice(alloc, self.path.as_slice())?,
            origin: self.origin,
            med: self.med,
            communities: self.communities,
            source: self.source,
        })
    }
}
