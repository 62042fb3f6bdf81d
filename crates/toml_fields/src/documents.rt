//! The top level of a TOML file.

ghost use Rattle.std.specs.Prelude.{◌≡◌, ◌≤◌, length};
ghost use Rattle.toml.specs.View.{table_view};
ghost use Rattle.toml_fields.specs.Document.{Shows, document_of, short_document_of};

use net_types::FormRefusal;
use std::alloc::Global;
use toml::Table;

/// The most bytes that a TOML file may have.
const MOST_BYTES: usize = 262144;

// The top level of a file that is not too long.
fn short_document(alloc: Global, text: &[u8]) -> Result<Table, FormRefusal>
    ensures { Shows table_view (short_document_of text.now) result }
{
    match toml::table_from_slice(alloc, text) {
        Ok(top) => Ok(top),
        Err(error) => {
            if error.is_memory() {
                Err(FormRefusal::NoMemory)
            } else {
                Err(FormRefusal::NotToml)
            }
        }
    }
}

/// The top level of a TOML file, or its first refusal: `TooLong`, more than 262,144 bytes; `NotToml`, no
/// text in UTF-8, or none that is TOML.
#[tactic(auto, unfolding(crate::specs::Document::document_of))]
pub fn document(alloc: Global, text: &[u8]) -> Result<Table, FormRefusal>
    ensures { Shows table_view (document_of text.now) result }
{
    if text.len() > MOST_BYTES {
        return Err(FormRefusal::TooLong);
    }
    short_document(alloc, text)
}
