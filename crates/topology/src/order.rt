//! The configurations in the order of their hosts.

ghost use Rattle.std.specs.Prelude.{◌≡◌, ◌≤◌, IfOk, OnOk, map, length};
ghost use Rattle.std.specs.List.{list_any, position_or_len};
ghost use Rattle.net_types.specs.Order.{same_text, text_before};
ghost use Rattle.topology.specs.Ascending.{put};
ghost use Rattle.topology.specs.Live.{in_order, host_before, same_host};

use net_types::RouterConfig;
use std::alloc::{AllocError, Global};

// Whether the one host comes before the other in byte order.
fn is_before(a: &RouterConfig, b: &RouterConfig) -> bool
    ensures { result ≡ host_before a.now b.now }
{
    a.host.as_bytes().cmp(b.host.as_bytes()).is_lt()
}

/// Whether the two have one host.
pub fn is_same(a: &RouterConfig, b: &RouterConfig) -> bool
    ensures { result ≡ same_host a.now b.now }
{
    a.host.as_bytes() == b.host.as_bytes()
}

// The place of a configuration among those in order.
fn place(done: &[&RouterConfig], config: &RouterConfig) -> usize
    ensures value { result ≡ position_or_len (λ c. host_before config.now c.now) done.now }
    ensures within { result ≤ length done.now }
{
    done.iter().take_while(|c| !is_before(config, c)).count()
}

fn is_there(done: &[&RouterConfig], config: &RouterConfig) -> bool
    ensures { result ≡ list_any (λ c. same_host c.now config.now) done.now }
{
    done.iter().any(|c| is_same(c, config))
}

// Puts a configuration at its place among those in order, unless one of its host is there.
fn put<'a>(done: &mut Vec<&'a RouterConfig>, config: &'a RouterConfig) -> Result<(), AllocError>
    ensures { OnOk result (map (λ c. c.now) done.new.items ≡ put same_host host_before (map (λ c. c.now) done.old.items) config.now) }
{
    if is_there(done, config) {
        return Ok(());
    }
    let place = place(done, config);
    done.insert(place, config)?;
    Ok(())
}

/// The configurations in byte order of their hosts.
pub fn in_order<'a>(
    alloc: Global,
    configs: &'a [RouterConfig],
) -> Result<Vec<&'a RouterConfig>, AllocError>
    ensures { IfOk result (λ v. map (λ c. c.now) v.items ≡ in_order configs.now) }
{
    let mut done: Vec<&'a RouterConfig> = Vec::new(alloc);
    for config in configs {
        put(&mut done, config)?;
    }
    Ok(done)
}
