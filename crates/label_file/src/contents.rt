//! What a label file says.

use net_types::{FailSet, List, Prefix, Route};

/// What each router of a network holds.
#[derive(Debug, Drop)]
pub struct Labels {
    /// The prefix of the routes.
    pub prefix: Prefix,
    /// The links that have failed.
    pub failed: FailSet,
    /// For each router, by its number, the route that it holds.
    pub labels: List<Option<Route>>,
}

/// What one table says: this router holds this route.
#[derive(Debug, Drop)]
pub(crate) struct Label {
    /// The router's number.
    pub(crate) router: u8,
    /// The route.
    pub(crate) route: Route,
}
