//! How a case ends.

use crate::cases::CaseFile;
use net_types::{List, NoMemory, SourceFile, Text};
use std::alloc::Global;

/// The status and the text that a case ends with: those of a run, and 0 and an answer, or 2 and why there is none.
#[derive(Drop)]
pub struct Ending {
    pub status: u8,
    pub text: Vec<u8>,
}

/// An ending with this text.
pub fn ended_with(alloc: Global, status: u8, text: &str) -> Result<Ending, NoMemory> {
    Ok(Ending {
        status,
        text: Vec::from_slice(alloc, text.as_bytes())?,
    })
}

/// The files whose paths begin so, named by the rest of their paths.
pub fn files_in(
    alloc: Global,
    files: &[CaseFile],
    folder: &str,
) -> Result<Vec<SourceFile>, NoMemory> {
    let mut all = Vec::new(alloc);
    for file in files {
        if let Some(name) = file.path.as_str().strip_prefix(folder) {
            all.push(SourceFile {
                name: Text::from_str(alloc, name)?,
                text: List::from_slice(alloc, file.text.as_bytes())?,
            })?;
        }
    }
    Ok(all)
}
