//! The entries of a shelf in memory: files, and names that end in `/`, which make folders be there.

ghost use Rattle.std.specs.Prelude.{◌≡◌, ◌≤◌, ◌↔◌, IsTrue, IfOk, length, option_copied, filter_map, find, true};
ghost use Rattle.std.specs.List.{list_any};
ghost use Rattle.outside.specs.Content.{names_in, is_folder, bytes_at, IsListing};
ghost use Rattle.outside.specs.Entries.{has_name, are_distinct, names_folder, entry_name, makes_folder, is_file_at, content_of, IsDistinct};

use crate::paths::{below, name_in};
use net_types::{List, NoMemory, SourceFile, Text};
use std::alloc::Global;

/// The names of the files in a folder that is there.
pub(crate) fn listing(
    alloc: Global,
    entries: &[SourceFile],
    folder: &str,
) -> Result<List<Text>, NoMemory>
    requires distinct { IsDistinct entries.now }
    requires there { is_folder (content_of entries.now) folder.now ≡ true }
    ensures names { IfOk result (λ names. names ≡ names_in (content_of entries.now) folder.now) }
    ensures listing { IfOk result (λ names. IsListing (content_of entries.now) folder.now names) }
{
    entry_names(alloc, entries, folder)
}

// The names of the files in a folder, entry by entry.
fn entry_names(alloc: Global, entries: &[SourceFile], folder: &str) -> Result<List<Text>, NoMemory>
    ensures { IfOk result (λ names. names ≡ filter_map (entry_name folder.now) entries.now) }
{
    let mut names = List::new(alloc);
    for entry in entries {
        if let Some(name) = entry_name(folder, entry) {
            names.push(Text::from_str(alloc, name)?)?;
        }
    }
    Ok(names)
}

// The name that an entry has in a folder, where it is a file of the folder itself.
fn entry_name<'a>(folder: &str, entry: &'a SourceFile) -> Option<&'a str>
    ensures { option_copied result ≡ entry_name folder.now entry.now }
{
    if names_folder(entry.name.as_bytes()) {
        return None;
    }
    name_in(folder, entry.name.as_str())
}

/// Whether a folder is there.
pub(crate) fn is_folder(entries: &[SourceFile], folder: &str) -> bool
    ensures { result ≡ is_folder (content_of entries.now) folder.now }
{
    some_makes_folder(entries, folder)
}

// Whether some entry makes a folder be there.
fn some_makes_folder(entries: &[SourceFile], folder: &str) -> bool
    ensures { result ≡ list_any (makes_folder folder.now) entries.now }
{
    entries.iter().any(|entry| makes_folder(folder, entry))
}

// Whether an entry makes a folder be there.
fn makes_folder(folder: &str, entry: &SourceFile) -> bool
    ensures { result ≡ makes_folder folder.now entry.now }
{
    let name = entry.name.as_bytes();
    if names_folder(name) {
        return &name[..name.len() - 1] == folder.as_bytes();
    }
    below(folder, entry.name.as_str()).is_some()
}

/// The bytes of the file at a path, or none where there is no such file.
pub(crate) fn bytes_at<'a>(entries: &'a [SourceFile], path: &str) -> Option<&'a [u8]>
    ensures { option_copied result ≡ bytes_at (content_of entries.now) path.now }
{
    match file_at(entries, path) {
        Some(file) => Some(file.text.as_slice()),
        None => None,
    }
}

// The entry that is the file at a path.
fn file_at<'a>(entries: &'a [SourceFile], path: &str) -> Option<&'a SourceFile>
    ensures { option_copied result ≡ find (is_file_at path.now) entries.now }
{
    for entry in entries {
        if is_file_at(path, entry) {
            return Some(entry);
        }
    }
    None
}

// Whether an entry is the file at a path.
fn is_file_at(path: &str, entry: &SourceFile) -> bool
    ensures { result ≡ is_file_at path.now entry.now }
{
    !names_folder(entry.name.as_bytes()) && entry.name.as_str() == path
}

// Whether the name of an entry ends in `/`.
fn names_folder(name: &[u8]) -> bool
    ensures value { result ≡ names_folder name.now }
    ensures some { IsTrue result → 1 ≤ length name.now }
{
    name.ends_with(b"/")
}

/// Whether no two entries have the same name.
pub(crate) fn are_distinct(entries: &[SourceFile]) -> bool
    ensures { IsTrue result ↔ IsDistinct entries.now }
{
    pass_distinct(entries)
}

// The same by the entries behind each.
fn pass_distinct(entries: &[SourceFile]) -> bool
    ensures { result ≡ are_distinct entries.now }
{
    let mut rest = entries;
    while let Some((first, more)) = rest.split_first() {
        if has_name(first.name.as_str(), more) {
            return false;
        }
        rest = more;
    }
    true
}

// Whether an entry has a name.
fn has_name(name: &str, entries: &[SourceFile]) -> bool
    ensures { result ≡ has_name name.now entries.now }
{
    entries.iter().any(|entry| entry.name.as_str() == name)
}
