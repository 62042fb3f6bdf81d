//! The words of the project: what a router's configuration, a network, a route and a refusal are.
//!
//! Decides: how addresses, prefixes, numbers, names, communities and origins are read from text, which
//! prefix covers which, which numbers routers and communities have, what is true of every network
//! (`specs/NetFacts.antt`), and, as definitions, distance, next hop and the order of routes. What a file
//! means, `frr_reader` decides.
//! Stands on: nothing of the project.
//! Promises: each reader gives the value of exactly the texts that its definition reads, a `Net` keeps its
//! validity, and the laws of `specs/Laws.antt`. Not: that a network came from any file.
#![tactic(auto)]

mod address_texts;
mod addresses;
mod arcs;
mod bits;
mod communities;
mod config;
mod cuts;
mod distances;
mod fail_sets;
mod laws;
mod lists;
mod names;
mod network;
mod no_memory;
mod numbers;
mod prefixes;
mod refusals;
mod routes;
mod texts;

pub use address_texts::{address_text, prefix_text};
pub use addresses::{read_address, read_interface};
pub use arcs::{Arc, same_router};
pub use bits::Bits64;
pub use communities::{NO_ADVERTISE, NO_EXPORT, read_community};
pub use config::{
    BgpConfig, CommunityEntry, CommunityList, Interface, MapEntry, Neighbor, Origin, PrefixEntry,
    PrefixList, Redistribute, RouteMap, RouterConfig, SetCommunity, Sets, SourceFile, read_origin,
};
pub use cuts::cut;
pub use distances::distance_at;
pub use fail_sets::FailSet;
pub use laws::{
    law_of_addresses, law_of_arcs, law_of_better, law_of_communities, law_of_failure_sets,
    law_of_numbers, law_of_order, law_of_owners, law_of_prefixes, law_of_texts, law_of_words,
};
pub use lists::List;
pub use names::{is_host, is_name};
pub use network::{
    End, Link, Net, NetCommunityEntry, NetCommunityList, NetMap, NetMapEntry, NetSetCommunity,
    NetSets, Notice, Owned, Policy, Router, community_among, entry_of, is_owned,
};
pub use no_memory::NoMemory;
pub use numbers::read_number;
pub use prefixes::Prefix;
pub use refusals::{BundleRefusal, BundleSide, FormRefusal, NetRefusal, ReadRefusal};
pub use routes::{Route, Source};
pub use texts::Text;
