//! The configuration files of a ladder.

ghost use Rattle.std.specs.Prelude.{◌≡◌, ◌<◌, ◌≤◌, ◌+◌, ◌*◌, ◌%◌, IfOk, length, string_bytes};
ghost use Rattle.ladder.specs.Files.{file_name, file_of, file_text, interface_line, interface_lines, ladder_files, neighbor_line, neighbor_lines, network_line, speaker_lines};

use crate::links::{LadderLink, ladder_links};
use crate::names::host_name;
use crate::ports::{Port, ports_of};
use net_types::{List, NoMemory, SourceFile, Text};
use std::alloc::Global;

// The AS number of a router.
fn asn_of(router: u8) -> u32
    ensures { result ≡ 65001 + router }
{
    65001 + u32::from(router)
}

// The block of the interface of a port.
#[tactic(auto, unfolding(crate::specs::Files::interface_line))]
fn interface_line(alloc: Global, number: usize, port: &Port) -> Result<String, NoMemory>
    ensures { IfOk result (λ text. string_bytes text ≡ interface_line number port.now) }
{
    let Port { link, own, .. } = *port;
    Ok(format!(in alloc; "interface eth{number}\n ip address 10.0.{link}.{own}/30\n")?)
}

fn interface_lines(alloc: Global, ports: &[Port]) -> Result<String, NoMemory>
    ensures { IfOk result (λ text. string_bytes text ≡ interface_lines 0 ports.now) }
{
    let mut text = String::new(alloc);
    for (i, port) in ports.iter().enumerate() {
        let line = interface_line(alloc, i, port)?;
        text.push_str(line.as_str())?;
    }
    Ok(text)
}

// The line of the neighbor on a port, if they speak BGP.
#[tactic(auto, unfolding(crate::specs::Files::neighbor_line))]
fn neighbor_line(alloc: Global, port: &Port) -> Result<String, NoMemory>
    ensures { IfOk result (λ text. string_bytes text ≡ neighbor_line port.now) }
{
    if !port.session {
        return Ok(String::new(alloc));
    }
    let Port { link, theirs, .. } = *port;
    let asn = asn_of(port.other);
    Ok(format!(in alloc; " neighbor 10.0.{link}.{theirs} remote-as {asn}\n")?)
}

fn neighbor_lines(alloc: Global, ports: &[Port]) -> Result<String, NoMemory>
    ensures { IfOk result (λ text. string_bytes text ≡ neighbor_lines ports.now) }
{
    let mut text = String::new(alloc);
    for port in ports {
        let line = neighbor_line(alloc, port)?;
        text.push_str(line.as_str())?;
    }
    Ok(text)
}

// The line of the prefix that the first router originates.
#[tactic(auto, unfolding(crate::specs::Files::network_line))]
fn network_line(router: u8) -> &'static str
    ensures { result.now ≡ network_line router }
{
    if router == 0 {
        " network 10.9.0.0/24\n"
    } else {
        ""
    }
}

// The block of a router's BGP.
#[tactic(auto, unfolding(crate::specs::Files::speaker_lines))]
fn speaker_lines(alloc: Global, router: u8, neighbors: &str) -> Result<String, NoMemory>
    ensures { IfOk result (λ text. string_bytes text ≡ speaker_lines router neighbors.now) }
{
    let asn = asn_of(router);
    let network = network_line(router);
    Ok(format!(in alloc; "router bgp {asn}\n no bgp ebgp-requires-policy\n{neighbors}{network}")?)
}

// The text of a router's file.
#[tactic(auto, unfolding(crate::specs::Files::file_text))]
fn file_text(alloc: Global, host: &str, router: u8, ports: &[Port]) -> Result<String, NoMemory>
    ensures { IfOk result (λ text. string_bytes text ≡ file_text host.now router ports.now) }
{
    let interfaces = interface_lines(alloc, ports)?;
    let neighbors = neighbor_lines(alloc, ports)?;
    let speaker = speaker_lines(alloc, router, neighbors.as_str())?;
    Ok(format!(in alloc; "hostname {host}\n{interfaces}{speaker}")?)
}

// The name of a router's file.
fn file_name(alloc: Global, host: &str) -> Result<Text, NoMemory>
    ensures { IfOk result (λ name. name ≡ file_name host.now) }
{
    Ok(Text::from_string(format!(in alloc; "{host}.conf")?))
}

// The file of a router.
#[tactic(auto, unfolding(crate::specs::Files::file_of))]
fn file_of(
    alloc: Global,
    columns: u8,
    links: &[LadderLink],
    router: u8,
) -> Result<SourceFile, NoMemory>
    ensures { IfOk result (λ file. file ≡ file_of columns links.now router) }
{
    let host = host_name(alloc, columns, router)?;
    let ports = ports_of(alloc, links, router)?;
    let text = file_text(alloc, host.as_str(), router, ports.as_slice())?;
    Ok(SourceFile {
        name: file_name(alloc, host.as_str())?,
        text: List::from_vec(text.into_bytes()),
    })
}

/// The configuration files of a ladder with so many columns, in the order of their names. This project's own.
///
/// # Errors
///
/// [`NoMemory`] where there was none.
#[tactic(auto, using(crate::proofs::FileLemmas::one_file_more))]
pub fn generate(alloc: Global, columns: u8) -> Result<List<SourceFile>, NoMemory>
    requires odd { columns % 2 ≡ 1 }
    requires least { 3 ≤ columns }
    requires most { columns ≤ 21 }
    ensures { IfOk result (λ files. files ≡ ladder_files columns) }
{
    let links = ladder_links(alloc, columns)?;
    let mut files = List::new(alloc);
    for router in 0..2 * columns {
        files.push(file_of(alloc, columns, links.as_slice(), router)?)?;
    }
    Ok(files)
}
