//! The least pairs of configurations that have a host, an AS number or an address in common.

ghost use Rattle.std.specs.Prelude.{◌≡◌, ◌<◌, ◌≤◌, IfOk, IfSome, false, position, length};
ghost use Rattle.topology.specs.Pairs.{partner, least_pair};
ghost use Rattle.topology.specs.Addresses.{repeats, share_one};
ghost use Rattle.topology.specs.Live.{same_host, same_number, same_asn};
ghost use Rattle.topology.specs.Network.{host_pair, asn_pair, address_pair};

use crate::addresses::{Addresses, all_addresses};
use crate::order::is_same;
use crate::sessions::asn_of;
use net_types::RouterConfig;
use std::alloc::{AllocError, Global};

// The first of the others that has this configuration's host.
fn of_host(config: &RouterConfig, others: &[RouterConfig]) -> Option<usize>
    ensures value { result ≡ position (λ y. same_host config.now y) others.now }
    ensures within { IfSome result (λ at. at < length others.now) }
{
    others.iter().position(|other| is_same(config, other))
}

// How far behind the configuration the first other one of its host stands.
fn host_partner(config: &RouterConfig, others: &[RouterConfig]) -> Option<usize>
    ensures value { result ≡ partner (λ _. false) same_host config.now others.now }
    ensures within { IfSome result (λ far. far ≤ length others.now) }
{
    match of_host(config, others) {
        Some(between) => Some(between + 1),
        None => None,
    }
}

/// The least pair of positions of one host.
pub fn host_pair(configs: &[RouterConfig]) -> Option<(usize, usize)>
    ensures { result ≡ host_pair configs.now }
{
    for (at, config) in configs.iter().enumerate() {
        if let Some(far) = host_partner(config, &configs[at + 1..]) {
            return Some((at, at + far));
        }
    }
    None
}

// Whether both numbers are there and are one.
fn same_number(a: Option<u32>, b: Option<u32>) -> bool
    ensures { result ≡ same_number a b }
{
    match (a, b) {
        (Some(a), Some(b)) => a == b,
        _ => false,
    }
}

// Whether the two have one AS number.
fn is_same_asn(a: &RouterConfig, b: &RouterConfig) -> bool
    ensures { result ≡ same_asn a.now b.now }
{
    same_number(asn_of(a), asn_of(b))
}

// The first of the others that has this configuration's AS number.
fn of_asn(config: &RouterConfig, others: &[RouterConfig]) -> Option<usize>
    ensures value { result ≡ position (λ y. same_asn config.now y) others.now }
    ensures within { IfSome result (λ at. at < length others.now) }
{
    others.iter().position(|other| is_same_asn(config, other))
}

// How far behind the configuration the first other one of its AS number stands.
fn asn_partner(config: &RouterConfig, others: &[RouterConfig]) -> Option<usize>
    ensures value { result ≡ partner (λ _. false) same_asn config.now others.now }
    ensures within { IfSome result (λ far. far ≤ length others.now) }
{
    match of_asn(config, others) {
        Some(between) => Some(between + 1),
        None => None,
    }
}

/// The least pair of positions of one AS number.
pub fn asn_pair(configs: &[RouterConfig]) -> Option<(usize, usize)>
    ensures { result ≡ asn_pair configs.now }
{
    for (at, config) in configs.iter().enumerate() {
        if let Some(far) = asn_partner(config, &configs[at + 1..]) {
            return Some((at, at + far));
        }
    }
    None
}

// The first of the others that has one of these addresses.
fn at_address(here: &Addresses, others: &[Addresses]) -> Option<usize>
    ensures value { result ≡ position (λ y. share_one here.now y) others.now }
    ensures within { IfSome result (λ at. at < length others.now) }
{
    others
        .iter()
        .position(|other| here.each.have_one(&other.each))
}

// How far behind these addresses the first others stand that have one in common with them; 0 where one
// stands twice among these.
fn address_partner(here: &Addresses, others: &[Addresses]) -> Option<usize>
    ensures value { result ≡ partner repeats share_one here.now others.now }
    ensures within { IfSome result (λ far. far ≤ length others.now) }
{
    if here.repeat {
        return Some(0);
    }
    match at_address(here, others) {
        Some(between) => Some(between + 1),
        None => None,
    }
}

// The least pair of positions, maybe of one twice, of one address.
fn least_at_address(all: &[Addresses]) -> Option<(usize, usize)>
    ensures { result ≡ least_pair repeats share_one 0 all.now }
{
    for (at, here) in all.iter().enumerate() {
        if let Some(far) = address_partner(here, &all[at + 1..]) {
            return Some((at, at + far));
        }
    }
    None
}

/// The least pair of positions, maybe of one configuration twice, of one address.
pub fn address_pair(
    alloc: Global,
    configs: &[RouterConfig],
) -> Result<Option<(usize, usize)>, AllocError>
    ensures { IfOk result (λ pair. pair ≡ address_pair configs.now) }
{
    let all = all_addresses(alloc, configs)?;
    Ok(least_at_address(&all))
}
