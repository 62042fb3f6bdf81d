//! The report's text.

ghost use Rattle.std.specs.Prelude.{◌≡◌, ◌++◌, IfOk, OnOk, codes, length, string_bytes};
ghost use Rattle.net_types.specs.Then.{◌then◌};
ghost use Rattle.report_text.specs.Report.{barred_text, broken_text, more_links, notice_line, notice_lines, property_line, property_lines, report_of, set_text, side_line, side_lines, framed, all_notices, verdict_text};

use net_types::{FailSet, Net, NoMemory, Notice, address_text};
use property_book::{Barred, Broken, Outcome, Property, Verdict};
use std::alloc::Global;

/// A side of a report: a network, and what was found in it.
#[derive(Clone, Copy)]
pub struct Side<'a> {
    /// The network.
    pub net: &'a Net,
    /// What was found.
    pub outcome: &'a Outcome,
}

fn barred_text(bar: Barred) -> &'static str
    ensures { result.now ≡ barred_text bar }
{
    match bar {
        Barred::UnknownRouter => "unknown router",
        Barred::NotOwned => "prefix not owned",
        Barred::Overlaps => "prefix overlaps",
    }
}

fn broken_text(alloc: Global, net: &Net, broken: Broken) -> Result<String, NoMemory>
    ensures { IfOk result (λ text. string_bytes text ≡ broken_text net.now broken) }
{
    Ok(match broken {
        Broken::NoSureRoute(router) => {
            let host = net.host_of(router);
            format!(in alloc; "no sure route at {host}")?
        }
        Broken::IsOwner => String::from_str(alloc, "is an owner")?,
        Broken::MayLearn => String::from_str(alloc, "may learn a route")?,
        Broken::HasOspf => String::from_str(alloc, "has an OSPF route")?,
        Broken::Bypass(router) => {
            let host = net.host_of(router);
            format!(in alloc; "reaches owner {host} around the waypoint")?
        }
    })
}

// A failure set: its links in braces, joined by commas.
fn set_text(alloc: Global, failed: &FailSet) -> Result<String, NoMemory>
    ensures { IfOk result (λ text. string_bytes text ≡ set_text failed.now) }
{
    Ok(match *failed.as_slice() {
        [] => String::from_str(alloc, "{}")?,
        [a] => format!(in alloc; "{{{a}}}")?,
        [a, b] => format!(in alloc; "{{{a},{b}}}")?,
        [a, b, c, ..] => format!(in alloc; "{{{a},{b},{c}}}")?,
    })
}

#[tactic(auto, unfolding(crate::specs::Report::verdict_text))]
fn verdict_text(alloc: Global, net: &Net, verdict: &Verdict) -> Result<String, NoMemory>
    ensures { IfOk result (λ text. string_bytes text ≡ verdict_text net.now verdict.now) }
{
    match verdict {
        Verdict::Certified => Ok(String::from_str(alloc, "certified")?),
        Verdict::NotCertified(failed, broken) => {
            let set = set_text(alloc, failed)?;
            let cause = broken_text(alloc, net, *broken)?;
            Ok(format!(in alloc; "not certified at {set} by {cause}")?)
        }
        Verdict::NotApplicable(bar) => {
            let cause = barred_text(*bar);
            Ok(format!(in alloc; "not applicable by {cause}")?)
        }
    }
}

#[tactic(auto, unfolding(crate::specs::Report::side_line))]
fn side_line(alloc: Global, side: &str, net: &Net, outcome: &Outcome) -> Result<String, NoMemory>
    ensures { IfOk result (λ text. string_bytes text ≡ side_line side.now net.now outcome.now) }
{
    let (routers, links) = (net.routers().len(), net.links().len());
    let (solved, total) = (outcome.solved, outcome.total);
    Ok(format!(in alloc; "{side}: routers {routers}, links {links}, solved {solved} of {total}\n")?)
}

#[tactic(auto, unfolding(crate::specs::Report::property_line))]
fn property_line(
    alloc: Global,
    base: &Net,
    new: &Net,
    property: &Property,
    on_base: &Verdict,
    on_new: &Verdict,
) -> Result<String, NoMemory>
    ensures { IfOk result (λ text. string_bytes text ≡ property_line base.now new.now property.now on_base.now on_new.now) }
{
    let name = property.name.as_str();
    let before = verdict_text(alloc, base, on_base)?;
    let after = verdict_text(alloc, new, on_new)?;
    Ok(format!(in alloc; "{name}: base {before}; new {after}\n")?)
}

#[tactic(auto, unfolding(crate::specs::Report::notice_line))]
fn notice_line(alloc: Global, side: &str, net: &Net, notice: &Notice) -> Result<String, NoMemory>
    ensures { IfOk result (λ text. string_bytes text ≡ notice_line side.now net.now notice.now) }
{
    let host = net.host_of(notice.router);
    let address = address_text(alloc, notice.address)?;
    Ok(format!(in alloc; "notice {side}: {host} neighbor {address} has no matching end\n")?)
}

fn notice_lines(alloc: Global, side: &str, net: &Net) -> Result<String, NoMemory>
    ensures { IfOk result (λ text. string_bytes text ≡ notice_lines side.now net.now net.now.notices) }
{
    let mut text = String::new(alloc);
    for notice in net.notices() {
        let line = notice_line(alloc, side, net, notice)?;
        text.push_str(line.as_str())?;
    }
    Ok(text)
}

// The lines of the properties, in the book's order.
fn property_lines(
    alloc: Global,
    book: &[Property],
    base: &Side<'_>,
    new: &Side<'_>,
) -> Result<String, NoMemory>
    requires base { length base.now.outcome.now.verdicts ≡ length book.now }
    requires new { length new.now.outcome.now.verdicts ≡ length book.now }
    ensures { IfOk result (λ text. string_bytes text ≡ property_lines base.now.net.now new.now.net.now book.now base.now.outcome.now.verdicts new.now.outcome.now.verdicts) }
{
    let on_base = base.outcome.verdicts.as_slice();
    let on_new = new.outcome.verdicts.as_slice();
    let mut text = String::new(alloc);
    for (i, property) in book.iter().enumerate() {
        let line = property_line(alloc, base.net, new.net, property, &on_base[i], &on_new[i])?;
        text.push_str(line.as_str())?;
    }
    Ok(text)
}

// The report of these parts.
#[tactic(auto, unfolding(crate::specs::Report::framed))]
fn framed(alloc: Global, sides: &str, lines: &str, notices: &str) -> Result<String, NoMemory>
    ensures { IfOk result (λ text. string_bytes text ≡ framed sides.now lines.now notices.now) }
{
    Ok(format!(in alloc;
        "route certificate report, version 1\n{sides}{lines}{notices}A certified property holds in every stable solution. That one exists is not claimed.\n"
    )?)
}

// One text and another behind it.
fn joined(alloc: Global, first: &str, second: &str) -> Result<String, NoMemory>
    ensures { IfOk result (λ text. string_bytes text ≡ first.now then second.now) }
{
    Ok(format!(in alloc; "{first}{second}")?)
}

fn side_lines(alloc: Global, base: &Side<'_>, new: &Side<'_>) -> Result<String, NoMemory>
    ensures { IfOk result (λ text. string_bytes text ≡ side_lines base.now.net.now base.now.outcome.now new.now.net.now new.now.outcome.now) }
{
    let on_base = side_line(alloc, "base", base.net, base.outcome)?;
    let on_new = side_line(alloc, "new", new.net, new.outcome)?;
    joined(alloc, on_base.as_str(), on_new.as_str())
}

fn all_notices(alloc: Global, base: &Net, new: &Net) -> Result<String, NoMemory>
    ensures { IfOk result (λ text. string_bytes text ≡ all_notices base.now new.now) }
{
    let on_base = notice_lines(alloc, "base", base)?;
    let on_new = notice_lines(alloc, "new", new)?;
    joined(alloc, on_base.as_str(), on_new.as_str())
}

/// The report of a book on two networks, with a verdict for each property on each side. This project's own format.
///
/// # Errors
///
/// [`NoMemory`] where there was none for the text.
#[tactic(auto, unfolding(crate::specs::Report::report_of))]
pub fn report(
    alloc: Global,
    book: &[Property],
    base: &Side<'_>,
    new: &Side<'_>,
) -> Result<String, NoMemory>
    requires base { length base.now.outcome.now.verdicts ≡ length book.now }
    requires new { length new.now.outcome.now.verdicts ≡ length book.now }
    ensures { IfOk result (λ text. string_bytes text ≡ report_of book.now base.now.net.now base.now.outcome.now new.now.net.now new.now.outcome.now) }
{
    let sides = side_lines(alloc, base, new)?;
    let lines = property_lines(alloc, book, base, new)?;
    let notices = all_notices(alloc, base.net, new.net)?;
    framed(alloc, sides.as_str(), lines.as_str(), notices.as_str())
}
