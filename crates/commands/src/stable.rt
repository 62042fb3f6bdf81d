//! The command `stable`: whether a labelling is stable.

ghost use Rattle.std.specs.Prelude.{◌≡◌, ◌<◌, ◌^◌, ℕ, IfOk, Some, length, string_bytes};
ghost use Rattle.net_types.specs.Distance.{AreDistances, distance_at};
ghost use Rattle.bundle_reader.specs.Bundle.{bundle_of};
ghost use Rattle.ospf_paths.specs.DistanceList.{distance_list};
ghost use Rattle.concrete_algebra.specs.Problem.{problem_of};
ghost use Rattle.outside.specs.Content.{Content};
ghost use Rattle.concrete_algebra.specs.Answers.{IsAnswer};
ghost use Rattle.label_file.specs.Facts.{AreLabels};
ghost use Rattle.commands.specs.StableEnding.{IsStability, broken_line, labels_in, network_of, problem_at, proposed, stable_inputs, stable_line};
ghost use Rattle.commands.specs.Stops.{Comes, Gives, HasCause, IsCalm};

use crate::answer::Answer;
use crate::folder::{read_file, read_folder};
use crate::refusals::{Bundle, Form, Refusal};
use crate::stop::Stop;
use bundle_reader::read_bundle;
use concrete_algebra::{StableAnswer, check_stable};
use label_file::{Labels, read_labels};
use net_types::{
    BundleRefusal, FailSet, FormRefusal, List, Net, NoMemory, Prefix, Route, SourceFile, Text,
};
use ospf_paths::distances;
use outside::Shelf;
use std::alloc::Global;

/// A network, and the labels that are proposed for it.
#[derive(Drop)]
pub struct Proposal {
    /// The network.
    pub net: Net,
    /// The labels.
    pub labels: Labels,
}

// The network of files or why they make none, unless there was no memory.
fn read(alloc: Global, files: &[SourceFile]) -> Result<Result<Net, BundleRefusal>, NoMemory>
    ensures { IfOk result (λ read. bundle_of files.now ≡ read) }
{
    match read_bundle(alloc, files) {
        Ok(net) => Ok(Ok(net)),
        Err(BundleRefusal::NoMemory) => Err(NoMemory),
        Err(refusal) => Ok(Err(refusal)),
    }
}

// The network of the files of a folder.
fn network_of(alloc: Global, files: List<SourceFile>) -> Result<Net, Stop>
    ensures gives { Gives (network_of files) result }
    ensures calm { IsCalm result }
{
    match read(alloc, files.as_slice())? {
        Ok(net) => Ok(net),
        Err(refusal) => Err(Stop::Refused(Refusal::Bundle(Bundle::Only, files, refusal))),
    }
}

// The labels of a label file on the network.
#[tactic(auto, unfolding(crate::specs::StableEnding::labels_in))]
fn labels_in(alloc: Global, net: &Net, text: &[u8]) -> Result<Labels, Stop>
    ensures gives { Gives (labels_in net.now text.now) result }
    ensures kept { IfOk result (λ labels. AreLabels net.now labels) }
    ensures calm { IsCalm result }
{
    match read_labels(alloc, net, text) {
        Ok(labels) => Ok(labels),
        Err(FormRefusal::NoMemory) => Err(Stop::NoMemory),
        Err(refusal) => Err(Stop::Refused(Refusal::Form(Form::Labels, refusal))),
    }
}

// The network and its labels, from files that were read.
fn proposed(alloc: Global, files: List<SourceFile>, text: &[u8]) -> Result<Proposal, Stop>
    ensures gives { Gives (proposed files text.now) result }
    ensures kept { IfOk result (λ proposal. AreLabels proposal.net proposal.labels) }
    ensures calm { IsCalm result }
{
    let net = network_of(alloc, files)?;
    let labels = labels_in(alloc, &net, text)?;
    Ok(Proposal { net, labels })
}

// The inputs of `stable`, step by step: the first step that refuses decides.
#[tactic(auto, unfolding(crate::specs::StableEnding::stable_inputs))]
fn stable_inputs<F: Shelf>(
    alloc: Global,
    shelf: &mut F,
    bundle: &str,
    labels: &str,
) -> Result<Proposal, Stop>
    ensures cause { HasCause (F.faults shelf.old) (F.faults shelf.new) result }
    ensures same { F.content shelf.new ≡ F.content shelf.old }
    ensures told { (c : Content) → F.content shelf.old ≡ Some c → Gives (stable_inputs c bundle.now labels.now) result }
    ensures kept { IfOk result (λ proposal. AreLabels proposal.net proposal.labels) }
{
    let files = read_folder(alloc, shelf, Bundle::Only, bundle)?;
    let text = read_file(alloc, shelf, labels)?;
    proposed(alloc, files, text.as_slice())
}

#[tactic(auto, unfolding(crate::specs::StableEnding::stable_line))]
fn stable_line(alloc: Global) -> Result<String, NoMemory>
    ensures { IfOk result (λ line. string_bytes line ≡ stable_line) }
{
    Ok(String::from_str(alloc, "stable\n")?)
}

#[tactic(auto, unfolding(crate::specs::StableEnding::broken_line))]
fn broken_line(alloc: Global, host: &str) -> Result<String, NoMemory>
    ensures { IfOk result (λ line. string_bytes line ≡ broken_line host.now) }
{
    Ok(format!(in alloc; "not stable at {host}\n")?)
}

// What the test of stability answers at the distances of OSPF.
fn tested_at(
    alloc: Global,
    net: &Net,
    prefix: Prefix,
    failed: FailSet,
    distances: &[Option<u64>],
    labels: &[Option<Route>],
) -> Result<StableAnswer, NoMemory>
    requires long { length labels.now ≡ length net.now.routers }
    requires exact { AreDistances net.now prefix failed distances.now }
    requires small { (u distance : ℕ) → distance_at distances.now u ≡ Some distance → distance < 2 ^ 32 }
    ensures { IfOk result (λ answer. IsAnswer (problem_of net.now prefix failed (distance_list net.now prefix failed)) labels.now answer) }
{
    net.valid();
    check_stable(alloc, net, prefix, failed, distances, labels)
}

// What the test of stability answers of a proposal.
fn tested(alloc: Global, proposal: &Proposal) -> Result<StableAnswer, NoMemory>
    requires { AreLabels proposal.now.net proposal.now.labels }
    ensures { IfOk result (λ answer. IsAnswer (problem_at proposal.now) proposal.now.labels.labels answer) }
{
    let Proposal { net, labels } = proposal;
    let distances = distances(alloc, net, labels.prefix, labels.failed)?;
    tested_at(
        alloc,
        net,
        labels.prefix,
        labels.failed,
        distances.as_slice(),
        labels.labels.as_slice(),
    )
}

// The answer in words.
fn said(alloc: Global, proposal: &Proposal, tested: StableAnswer) -> Result<Answer, NoMemory>
    requires { IsAnswer (problem_at proposal.now) proposal.now.labels.labels tested }
    ensures { IfOk result (λ answer. IsStability proposal.now answer.text answer.good) }
{
    match tested {
        StableAnswer::Stable => Ok(Answer {
            text: Text::from_string(stable_line(alloc)?),
            good: true,
        }),
        StableAnswer::Breaks(router) => Ok(Answer {
            text: Text::from_string(broken_line(alloc, proposal.net.host_of(router))?),
            good: false,
        }),
    }
}

// The answer on a proposal.
fn answer_on(alloc: Global, proposal: &Proposal) -> Result<Answer, NoMemory>
    requires { AreLabels proposal.now.net proposal.now.labels }
    ensures { IfOk result (λ answer. IsStability proposal.now answer.text answer.good) }
{
    let tested = tested(alloc, proposal)?;
    said(alloc, proposal, tested)
}

/// Whether the labels of a label file are stable on the network of a folder, or the first step that refuses.
pub fn stable<F: Shelf>(
    alloc: Global,
    shelf: &mut F,
    bundle: &str,
    labels: &str,
) -> Result<Answer, Stop>
    ensures cause { HasCause (F.faults shelf.old) (F.faults shelf.new) result }
    ensures same { F.content shelf.new ≡ F.content shelf.old }
    ensures told { (c : Content) → F.content shelf.old ≡ Some c → Comes IsStability (stable_inputs c bundle.now labels.now) result }
{
    let proposal = stable_inputs(alloc, shelf, bundle, labels)?;
    Ok(answer_on(alloc, &proposal)?)
}
