//! Limits of bundles and of networks.

ghost use Rattle.std.specs.Prelude.{◌≤◌, IfOk, All};
ghost use Rattle.net_types.specs.ConfigFacts.{IsConfig};

use crate::asserting::holds;
use bundle_reader::read_bundle;
use frr_reader::read_router;
use net_types::{BundleRefusal, List, NetRefusal, ReadRefusal, RouterConfig, SourceFile, Text};
use std::alloc::Global;
use std::test::Fail;
use topology::build;

// A configuration with this host and nothing else.
fn config(alloc: Global, host: &str) -> Result<RouterConfig, ReadRefusal>
    ensures { IfOk result IsConfig }
{
    let text = format!(in alloc; "hostname {host}\n")?;
    read_router(alloc, text.as_bytes())
}

// Configurations of hosts with numbers below the count.
fn configs(alloc: Global, count: u32) -> Result<Vec<RouterConfig>, ReadRefusal>
    ensures { IfOk result (λ v. All IsConfig v.items) }
{
    let mut all = Vec::new(alloc);
    for number in 0..count {
        let host = format!(in alloc; "h{number}")?;
        all.push(config(alloc, &host)?)?;
    }
    Ok(all)
}

#[test]
fn many_routers(rt: HostRuntime) -> Result<(), Fail> {
    let alloc = rt.alloc();
    let refusal = build(alloc, &configs(alloc, 65)?).err();
    holds(&rt, refusal == Some(NetRefusal::TooManyRouters(65)));
    let net = build(alloc, &configs(alloc, 64)?)?;
    holds(&rt, net.routers().len() == 64);
    Ok(())
}

// The refusal of files of so many newlines each.
fn refusal_of(alloc: Global, sizes: &[usize]) -> Result<Option<BundleRefusal>, Fail> {
    let mut files = Vec::new(alloc);
    for size in sizes {
        files.push(SourceFile {
            name: Text::from_str(alloc, "router.conf")?,
            text: List::from_vec(vec![in alloc; b'\n'; *size]?),
        })?;
    }
    Ok(read_bundle(alloc, &files).err())
}

#[test]
fn limits_of_a_bundle(rt: HostRuntime) -> Result<(), Fail> {
    let alloc = rt.alloc();
    let unnamed = Some(BundleRefusal::InFile(0, ReadRefusal::NoHostname));
    holds(
        &rt,
        refusal_of(alloc, &[0; 65])? == Some(BundleRefusal::TooManyFiles(65)),
    );
    holds(&rt, refusal_of(alloc, &[0; 64])? == unnamed);
    let mut sizes = vec![in alloc; 262_144; 16]?;
    holds(&rt, refusal_of(alloc, &sizes)? == unnamed);
    sizes.push(1)?;
    holds(
        &rt,
        refusal_of(alloc, &sizes)? == Some(BundleRefusal::TooLarge(4_194_305)),
    );
    Ok(())
}
