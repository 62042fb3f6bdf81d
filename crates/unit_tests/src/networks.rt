//! Networks of small configurations.

ghost use Rattle.std.specs.Prelude.{◌≡◌, IfOk, length};

use bundle_reader::read_bundle;
use net_types::{BundleRefusal, List, Net, NetRefusal, SourceFile, Text};
use std::alloc::Global;

/// The network of these configurations; another number of routers than this is refused, with that number, so that a
/// caller knows how many there are.
pub fn network_of(alloc: Global, texts: &[&str], routers: usize) -> Result<Net, BundleRefusal>
    ensures { IfOk result (λ net. length net.routers ≡ routers) }
{
    let mut files = Vec::new(alloc);
    for text in texts {
        files.push(SourceFile {
            name: Text::from_str(alloc, "router.conf")?,
            text: List::from_slice(alloc, text.as_bytes())?,
        })?;
    }
    let net = read_bundle(alloc, files.as_slice())?;
    let count = net.routers().len();
    if count == routers {
        Ok(net)
    } else {
        Err(BundleRefusal::InNet(NetRefusal::TooManyRouters(count as u64)))
    }
}
