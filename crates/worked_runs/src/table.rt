//! A table of cases.

use crate::cases::Case;
use crate::lines::{Line, line_of};
use net_types::NoMemory;
use std::alloc::Global;

// Begins a case, whose name no other case may have.
fn begin(alloc: Global, cases: &mut Vec<Case>, name: &str) -> Result<(), NoMemory> {
    let mut case = Case::new(alloc, name)?;
    if cases.iter().any(|other| other.name.as_str() == name) {
        case.misread(alloc, name)?;
    }
    cases.push(case)?;
    Ok(())
}

// Gives the last case the files of the one of this name before it.
fn add_like(alloc: Global, cases: &mut [Case], name: &str) -> Result<(), NoMemory> {
    let Some((last, before)) = cases.split_last_mut() else {
        return Ok(());
    };
    match before.iter().find(|case| case.name.as_str() == name) {
        Some(like) => last.add_files(alloc, like.files.as_slice()),
        None => last.misread(alloc, name),
    }
}

// Takes a line before the first case, which is empty or a comment.
fn take_first(alloc: Global, cases: &mut Vec<Case>, line: &str) -> Result<(), NoMemory> {
    if line.is_empty() || line.starts_with('#') {
        return Ok(());
    }
    begin(alloc, cases, "")?;
    match cases.last_mut() {
        Some(case) => case.misread(alloc, line),
        None => Ok(()),
    }
}

// Takes the next line of the table.
fn take_line(alloc: Global, cases: &mut Vec<Case>, line: &str) -> Result<(), NoMemory> {
    match line_of(line) {
        Line::Name(name) => begin(alloc, cases, name),
        Line::Like(name) => add_like(alloc, cases.as_mut_slice(), name),
        _ => match cases.last_mut() {
            Some(last) => last.take(alloc, line),
            None => take_first(alloc, cases, line),
        },
    }
}

/// The cases of a table, each line of which ends with LF; a case keeps what can't be read of it.
pub fn table_of(alloc: Global, text: &str) -> Result<Vec<Case>, NoMemory> {
    let mut cases = Vec::new(alloc);
    for line in text.strip_suffix('\n').unwrap_or(text).split('\n') {
        take_line(alloc, &mut cases, line)?;
    }
    Ok(cases)
}
