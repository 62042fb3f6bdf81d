//! Why bundles and forms are refused, in words.

ghost use Rattle.std.specs.Prelude.{◌≡◌, IfOk, codes, string_bytes};
ghost use Rattle.refusal_texts.specs.Texts.{at_line, bundle_text, file_name, form_text, net_text, of_pair, read_text, with_number};

use net_types::{
    BundleRefusal, FormRefusal, NetRefusal, NoMemory, ReadRefusal, SourceFile, prefix_text,
};
use std::alloc::Global;

// The name of the file at a position, or nothing where there is none.
fn file_name(files: &[SourceFile], position: u64) -> &str
    ensures { result.now ≡ file_name files.now position }
{
    match files.get(position as usize) {
        Some(file) => file.name.as_str(),
        None => "",
    }
}

fn at_line(alloc: Global, cause: &str, line: u64) -> Result<String, NoMemory>
    ensures { IfOk result (λ text. string_bytes text ≡ at_line cause.now line) }
{
    Ok(format!(in alloc; "{cause} line {line}")?)
}

fn of_pair(
    alloc: Global,
    cause: &str,
    files: &[SourceFile],
    i: u64,
    j: u64,
) -> Result<String, NoMemory>
    ensures { IfOk result (λ text. string_bytes text ≡ of_pair cause.now files.now i j) }
{
    let (first, second) = (file_name(files, i), file_name(files, j));
    Ok(format!(in alloc; "{cause} {first} {second}")?)
}

fn with_number(alloc: Global, cause: &str, number: u64) -> Result<String, NoMemory>
    ensures { IfOk result (λ text. string_bytes text ≡ with_number cause.now number) }
{
    Ok(format!(in alloc; "{cause} {number}")?)
}

#[tactic(auto, unfolding(crate::specs::Texts::read_text))]
fn read_text(alloc: Global, refusal: ReadRefusal) -> Result<String, NoMemory>
    ensures { IfOk result (λ text. string_bytes text ≡ read_text refusal) }
{
    match refusal {
        ReadRefusal::NotText(line) => at_line(alloc, "NotText", line),
        ReadRefusal::LineTooLong(line) => at_line(alloc, "LineTooLong", line),
        ReadRefusal::Unsupported(line) => at_line(alloc, "Unsupported", line),
        ReadRefusal::OutOfPlace(line) => at_line(alloc, "OutOfPlace", line),
        ReadRefusal::BadValue(line) => at_line(alloc, "BadValue", line),
        ReadRefusal::Repeated(line) => at_line(alloc, "Repeated", line),
        ReadRefusal::OutOfLimit(line) => at_line(alloc, "OutOfLimit", line),
        ReadRefusal::NoHostname => Ok(String::from_str(alloc, "NoHostname")?),
        ReadRefusal::Undefined(line) => at_line(alloc, "Undefined", line),
        ReadRefusal::ForeignAs(line) => at_line(alloc, "ForeignAs", line),
        ReadRefusal::NoMemory => Err(NoMemory),
    }
}

#[tactic(auto, unfolding(crate::specs::Texts::net_text))]
fn net_text(alloc: Global, files: &[SourceFile], refusal: NetRefusal) -> Result<String, NoMemory>
    ensures { IfOk result (λ text. string_bytes text ≡ net_text files.now refusal) }
{
    match refusal {
        NetRefusal::SameHost(i, j) => of_pair(alloc, "SameHost", files, i, j),
        NetRefusal::SameAs(i, j) => of_pair(alloc, "SameAs", files, i, j),
        NetRefusal::SameAddress(i, j) => of_pair(alloc, "SameAddress", files, i, j),
        NetRefusal::SharedSubnet(prefix) => {
            let subnet = prefix_text(alloc, &prefix)?;
            Ok(format!(in alloc; "SharedSubnet {subnet}")?)
        }
        NetRefusal::TooManyLinks(n) => with_number(alloc, "TooManyLinks", n),
        NetRefusal::TooManyCommunities(n) => with_number(alloc, "TooManyCommunities", n),
        NetRefusal::TooManyRouters(n) => with_number(alloc, "TooManyRouters", n),
        NetRefusal::NoMemory => Err(NoMemory),
    }
}

/// Why files make no network, with their names: `TooManyFiles 65`, `r1.conf: BadValue line 28`, `SameHost a.conf b.conf`.
///
/// # Errors
///
/// [`NoMemory`] where there was none for the text, or where that is what is refused.
#[tactic(auto, unfolding(crate::specs::Texts::bundle_text))]
pub fn bundle_text(
    alloc: Global,
    files: &[SourceFile],
    refusal: BundleRefusal,
) -> Result<String, NoMemory>
    ensures { IfOk result (λ text. string_bytes text ≡ bundle_text files.now refusal) }
{
    match refusal {
        BundleRefusal::TooManyFiles(n) => with_number(alloc, "TooManyFiles", n),
        BundleRefusal::TooLarge(bytes) => with_number(alloc, "TooLarge", bytes),
        BundleRefusal::InFile(position, refusal) => {
            let name = file_name(files, position);
            let cause = read_text(alloc, refusal)?;
            Ok(format!(in alloc; "{name}: {cause}")?)
        }
        BundleRefusal::InNet(refusal) => net_text(alloc, files, refusal),
        BundleRefusal::NoMemory => Err(NoMemory),
    }
}

/// Why a TOML file is refused: `NotToml`, `BadField 3`.
///
/// # Errors
///
/// [`NoMemory`] where there was none for the text, or where that is what is refused.
#[tactic(auto, unfolding(crate::specs::Texts::form_text))]
pub fn form_text(alloc: Global, refusal: FormRefusal) -> Result<String, NoMemory>
    ensures { IfOk result (λ text. string_bytes text ≡ form_text refusal) }
{
    match refusal {
        FormRefusal::TooLong => Ok(String::from_str(alloc, "TooLong")?),
        FormRefusal::NotToml => Ok(String::from_str(alloc, "NotToml")?),
        FormRefusal::BadField(place) => with_number(alloc, "BadField", place),
        FormRefusal::SameName(place) => with_number(alloc, "SameName", place),
        FormRefusal::TooMany(n) => with_number(alloc, "TooMany", n),
        FormRefusal::NoMemory => Err(NoMemory),
    }
}
