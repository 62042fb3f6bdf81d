//! A shelf over the folders of the machine.

ghost use Rattle.std.specs.Prelude.{◌≡◌, ◌≤◌, Err, IfOk, IfSome, MatchResult, length, take};
ghost use Rattle.std.specs.Fs.{dir_entry_name};
ghost use Rattle.std.specs.IoError.{error_kind};

use crate::{Shelf, ShelfError};
use net_types::{List, Text};
use std::alloc::Global;
use std::fs::{self, DirEntry, File, Files, ReadDir};
use std::io::{self, ErrorKind, Read};
use std::marker::Model;

/// The folders and files of the machine. It tells nothing of its content, and counts every error
/// but want of memory and a path that is not there.
#[derive(Drop)]
pub struct DirShelf<R> {
    files: R,
    faults: u64,
}

impl<R> Model for DirShelf<R> {
    ghost use Rattle.std.specs.Prelude.{ℕ};

    ghost Value = { ℕ };

    ghost view = { λ it. it.faults };
}

impl<R> DirShelf<R> {
    ghost use Rattle.std.specs.Prelude.{◌≡◌, ◌≢◌, ◌≤◌, ◌↔◌};
    ghost use Rattle.outside.specs.Machine.{Counts, CountsRefusal, Gives, Opens};

    /// The shelf over the files of a runtime, with a count of 0.
    pub fn new(files: R) -> DirShelf<R>
        ensures { result ≡ 0 }
    {
        DirShelf { files, faults: 0 }
    }

    // Want of memory, or one more fault.
    fn refused(&mut self, kind: ErrorKind) -> ShelfError
        ensures kept { self.old ≤ self.new }
        ensures count { CountsRefusal self.old self.new result }
        ensures no_memory { (result ≡ ShelfError.NoMemory) ↔ (kind ≡ ErrorKind.OutOfMemory) }
        ensures there { result ≢ ShelfError.Absent }
    {
        match kind {
            ErrorKind::OutOfMemory => ShelfError::NoMemory,
            _ => {
                self.faults = self.faults.saturating_add(1);
                ShelfError::Failed
            }
        }
    }

    // The same where a path was opened: it may not be there.
    fn not_opened(&mut self, kind: ErrorKind) -> ShelfError
        ensures kept { self.old ≤ self.new }
        ensures count { CountsRefusal self.old self.new result }
        ensures no_memory { (result ≡ ShelfError.NoMemory) ↔ (kind ≡ ErrorKind.OutOfMemory) }
        ensures absent { (result ≡ ShelfError.Absent) ↔ (kind ≡ ErrorKind.NotFound) }
    {
        match kind {
            ErrorKind::NotFound => ShelfError::Absent,
            _ => self.refused(kind),
        }
    }

    // What the machine opened, or why it did not.
    fn opened<T>(&mut self, opened: io::Result<T>) -> Result<T, ShelfError>
        ensures kept { self.old ≤ self.new }
        ensures count { Counts self.old self.new result }
        ensures value { Opens opened result }
    {
        match opened {
            Ok(value) => Ok(value),
            Err(error) => Err(self.not_opened(error.kind())),
        }
    }

    // What the machine gave of what was opened, or why it did not.
    fn given<T>(&mut self, given: io::Result<T>) -> Result<T, ShelfError>
        ensures kept { self.old ≤ self.new }
        ensures count { Counts self.old self.new result }
        ensures value { Gives given result }
    {
        match given {
            Ok(value) => Ok(value),
            Err(error) => Err(self.refused(error.kind())),
        }
    }
}

impl<R: Files + AllocGlobal + Clone + Drop> Shelf for DirShelf<R> {
    ghost use Rattle.std.specs.Prelude.{◌≡◌, ◌≤◌, ℕ, None, Some, IfOk, length};
    ghost use Rattle.outside.specs.Content.{Content};
    ghost use Rattle.outside.specs.Machine.{Counts};
    ghost use Rattle.outside.specs.Shelf.{HasCause, Lists, Reads};

    ghost faults = { λ shelf. shelf };

    ghost content = { λ _. None };

    fn list(&mut self, alloc: Global, folder: &str) -> Result<List<Text>, ShelfError>
        ensures count { Counts self.old self.new result }
        ensures kept { self.old ≤ self.new }
        ensures cause { HasCause self.old self.new result }
        ensures told { (c : Content) → None ≡ Some c → Lists c folder.now result }
    {
        let opened = fs::read_dir(&self.files, folder);
        let entries = self.opened(opened)?;
        self.given(names(alloc, entries))
    }

    fn read(&mut self, alloc: Global, path: &str, limit: u64) -> Result<List<u8>, ShelfError>
        ensures count { Counts self.old self.new result }
        ensures kept { self.old ≤ self.new }
        ensures cause { HasCause self.old self.new result }
        ensures within { IfOk result (λ bytes. length bytes ≤ limit) }
        ensures told { (c : Content) → None ≡ Some c → Reads c path.now limit result }
    {
        let opened = File::open(&self.files, path);
        let file = self.opened(opened)?;
        self.given(first_bytes(alloc, file, limit))
    }
}

// The name of an entry, or the error in its place.
fn name_of<R: Files + AllocGlobal + Clone + Drop>(
    alloc: Global,
    entry: io::Result<DirEntry<R>>,
) -> io::Result<Text>
    ensures { MatchResult entry (λ there. MatchResult result (λ name. name ≡ dir_entry_name there) (λ error. error_kind error ≡ ErrorKind.OutOfMemory)) (λ error. result ≡ Err error) }
{
    let entry = entry?;
    Ok(Text::from_str(alloc, entry.file_name())?)
}

// The names of the entries of a folder.
fn names<R: Files + AllocGlobal + Clone + Drop>(
    alloc: Global,
    entries: ReadDir<R>,
) -> io::Result<List<Text>> {
    let mut names = List::new(alloc);
    for entry in entries {
        names.push(name_of(alloc, entry)?)?;
    }
    Ok(names)
}

// The first bytes of a file up to the limit: of one that tells its bytes exactly those.
fn first_bytes<F: Read + Drop>(alloc: Global, file: F, limit: u64) -> io::Result<List<u8>>
    ensures within { IfOk result (λ bytes. length bytes ≤ limit) }
    ensures told { IfOk result (λ bytes. IfSome (F.remaining file) (λ all. bytes ≡ take limit all)) }
{
    let mut bytes = Vec::new(alloc);
    file.take(limit).read_to_end(&mut bytes)?;
    // No contract of the reader says that it kept the limit.
    bytes.truncate(limit as usize);
    Ok(List::from_vec(bytes))
}
