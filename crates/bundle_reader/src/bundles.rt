//! The network of a folder's files, or their first refusal.

ghost use Rattle.std.specs.Prelude.{◌≡◌, IfOk, All};
ghost use Rattle.net_types.specs.ConfigFacts.{IsConfig};
ghost use Rattle.frr_reader.specs.Reading.{reading, Answers};
ghost use Rattle.topology.specs.Meaning.{SessionsHaveAsns};
ghost use Rattle.topology.specs.Network.{network_of};
ghost use Rattle.bundle_reader.specs.Files.{IsNetAnswer, IsAnswerOn};
ghost use Rattle.bundle_reader.specs.Bundle.{bytes_of, named, configs_of, in_net, bundle_of, BundleAnswers};

use frr_reader::read_router;
use net_types::{BundleRefusal, List, Net, NetRefusal, ReadRefusal, RouterConfig, SourceFile};
use std::alloc::Global;
use topology::build;

// The greatest number of files, and of bytes of their texts together.
const MAX_FILES: usize = 64;

const MAX_BYTES: u64 = 4_194_304;

/// The network of the files, or the first refusal that stands, in the order of `BundleRefusal`. The answer
/// may also be want of memory, which stands in no other refusal.
///
/// Files are numbered by their place in the list, which a caller gives in the byte order of their names.
pub fn read_bundle(alloc: Global, files: &[SourceFile]) -> Result<Net, BundleRefusal>
    ensures exact { BundleAnswers (bundle_of files.now) result }
    ensures meaning { IsAnswerOn files.now result }
    ensures sessions { IfOk result (λ net. SessionsHaveAsns net) }
{
    if files.len() > MAX_FILES {
        return Err(BundleRefusal::TooManyFiles(files.len() as u64));
    }
    let bytes = bytes_of(files);
    if bytes > MAX_BYTES {
        return Err(BundleRefusal::TooLarge(bytes));
    }
    match configs_of(alloc, files) {
        Ok(configs) => net_of(alloc, configs.as_slice()),
        Err(refusal) => Err(refusal),
    }
}

// The bytes of all texts, at most the greatest u64.
fn bytes_of(files: &[SourceFile]) -> u64
    ensures { result ≡ named (bytes_of files.now) }
{
    let mut bytes: u64 = 0;
    for file in files {
        bytes = bytes.saturating_add(file.text.len() as u64);
    }
    bytes
}

// What a file says.
fn read_file(alloc: Global, file: &SourceFile) -> Result<RouterConfig, ReadRefusal>
    ensures exact { Answers (reading file.now.text) result }
    ensures valid { IfOk result IsConfig }
{
    read_router(alloc, file.text.as_slice())
}

// What the files say, or the first of them that is refused.
fn configs_of(alloc: Global, files: &[SourceFile]) -> Result<List<RouterConfig>, BundleRefusal>
    ensures exact { BundleAnswers (configs_of 0 files.now) result }
    ensures valid { IfOk result (λ configs. All IsConfig configs) }
{
    let mut configs = Vec::new(alloc);
    for (at, file) in files.iter().enumerate() {
        match read_file(alloc, file) {
            Ok(config) => configs.push(config)?,
            Err(ReadRefusal::NoMemory) => return Err(BundleRefusal::NoMemory),
            Err(refusal) => return Err(BundleRefusal::InFile(at as u64, refusal)),
        }
    }
    Ok(List::from_vec(configs))
}

// The network of configurations, as that of files.
fn net_of(alloc: Global, configs: &[RouterConfig]) -> Result<Net, BundleRefusal>
    requires { All IsConfig configs.now }
    ensures exact { BundleAnswers (in_net (network_of configs.now)) result }
    ensures meaning { IsNetAnswer configs.now result }
    ensures sessions { IfOk result (λ net. SessionsHaveAsns net) }
{
    match build(alloc, configs) {
        Ok(net) => Ok(net),
        Err(NetRefusal::NoMemory) => Err(BundleRefusal::NoMemory),
        Err(refusal) => Err(BundleRefusal::InNet(refusal)),
    }
}
