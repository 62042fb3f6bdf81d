//! Why a command is refused, and the line that says so.

ghost use Rattle.std.specs.Prelude.{◌≡◌, IfOk, codes, string_bytes};
ghost use Rattle.commands.specs.Refusals.{bundle_word, form_word, line_of, refused_line, side_word};

use net_types::{BundleRefusal, BundleSide, FormRefusal, List, NoMemory, SourceFile, Text};
use refusal_texts::{bundle_text, form_text};
use std::alloc::Global;

/// A bundle of configurations that a command reads.
#[derive(Clone, Copy, PartialEq, Eq, Debug)]
pub enum Bundle {
    /// The one of this side of a change.
    Of(BundleSide),
    /// The only one.
    Only,
}

/// A TOML file that a command reads.
#[derive(Clone, Copy, PartialEq, Eq, Debug)]
pub enum Form {
    /// The property file.
    Properties,
    /// The label file.
    Labels,
    /// The users of the review desk.
    Users,
}

/// Why a command is refused.
#[derive(Debug, Drop)]
pub enum Refusal {
    /// Nothing is at this path.
    NoPath(Text),
    /// These files of a bundle make no network.
    Bundle(Bundle, List<SourceFile>, BundleRefusal),
    /// The book has this many cases on this side, which are more than are solved.
    CasesLimit(BundleSide, u64),
    /// A TOML file is refused.
    Form(Form, FormRefusal),
    /// A stored row of the review desk is not valid: the number of its table, and its own from 1.
    BadRow(u64, u64),
}

fn side_word(side: BundleSide) -> &'static str
    ensures { result.now ≡ side_word side }
{
    match side {
        BundleSide::Base => "base",
        BundleSide::New => "new",
    }
}

fn bundle_word(bundle: Bundle) -> &'static str
    ensures { result.now ≡ bundle_word bundle }
{
    match bundle {
        Bundle::Of(side) => side_word(side),
        Bundle::Only => "bundle",
    }
}

fn form_word(form: Form) -> &'static str
    ensures { result.now ≡ form_word form }
{
    match form {
        Form::Properties => "properties",
        Form::Labels => "labels",
        Form::Users => "users",
    }
}

// The line of a refused input: which one, and why.
fn refused_line(alloc: Global, what: &str, cause: &str) -> Result<String, NoMemory>
    ensures { IfOk result (λ line. string_bytes line ≡ refused_line what.now cause.now) }
{
    Ok(format!(in alloc; "refused: {what}: {cause}\n")?)
}

/// The line that says why a command is refused.
///
/// # Errors
///
/// [`NoMemory`] where there was none for it.
#[tactic(auto, unfolding(crate::specs::Refusals::line_of))]
pub fn line_of(alloc: Global, refusal: &Refusal) -> Result<String, NoMemory>
    ensures { IfOk result (λ line. string_bytes line ≡ line_of refusal.now) }
{
    match refusal {
        Refusal::NoPath(path) => Ok(format!(in alloc; "refused: no such path {path}\n")?),
        Refusal::Bundle(bundle, files, refusal) => {
            let cause = bundle_text(alloc, files.as_slice(), *refusal)?;
            refused_line(alloc, bundle_word(*bundle), cause.as_str())
        }
        Refusal::CasesLimit(side, cases) => {
            let cause = format!(in alloc; "CasesLimit {cases}")?;
            refused_line(alloc, side_word(*side), cause.as_str())
        }
        Refusal::Form(form, refusal) => {
            let cause = form_text(alloc, *refusal)?;
            refused_line(alloc, form_word(*form), cause.as_str())
        }
        Refusal::BadRow(table, row) => {
            let cause = format!(in alloc; "BadRow {table} {row}")?;
            refused_line(alloc, "store", cause.as_str())
        }
    }
}
