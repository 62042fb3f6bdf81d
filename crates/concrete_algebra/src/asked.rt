//! What is asked of a labelling: one prefix of a network, with some links failed.

use net_types::{FailSet, Net, Prefix};

/// A prefix of a network, with these links failed and these OSPF distances, one for each router. What it
/// means is their routing problem, `problem_asked` of `specs/Findings.antt`.
#[derive(Clone, Copy)]
pub(crate) struct Asked<'a> {
    pub net: &'a Net,
    pub prefix: Prefix,
    pub failed: &'a FailSet,
    pub distances: &'a [Option<u64>],
}
