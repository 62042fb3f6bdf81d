//! A shelf in memory.

ghost use Rattle.std.specs.Prelude.{◌≡◌, ◌≤◌, IfOk, length, take};

use crate::entries::{are_distinct, bytes_at, is_folder, listing};
use crate::{Calls, Shelf, ShelfError};
use net_types::{List, NoMemory, SourceFile, Text};
use std::alloc::Global;
use std::marker::Model;

/// A shelf in memory: its files by their paths. Its calls are counted from 1.
#[derive(Debug, Drop)]
pub struct MemShelf {
    calls: Calls,
    entries: List<SourceFile>,
}

impl Model for MemShelf {
    ghost use Rattle.outside.specs.Memory.{ShelfValue};
    ghost use Rattle.outside.specs.Entries.{content_of, IsDistinct};

    ghost Value = { ShelfValue };

    ghost view = { λ it. record { calls = it.calls; content = content_of it.entries } };

    ghost invariant = { λ it. IsDistinct it.entries };
}

impl MemShelf {
    ghost use Rattle.std.specs.Prelude.{◌≡◌, ◌↔◌, IfOk, IsTrue, Some};
    ghost use Rattle.outside.specs.Entries.{content_of, IsDistinct};

    /// A shelf of the entries, of which the calls with the numbers in `failing` fail. The name of an
    /// entry is its path. One that ends in `/` is no file, and makes the folder that is named before
    /// the `/` be there; a folder is also there where a file's path begins with it and `/`.
    pub fn new(
        alloc: Global,
        content: List<SourceFile>,
        failing: &[u64],
    ) -> Result<MemShelf, NoMemory>
        requires { IsDistinct content }
        ensures { IfOk result (λ shelf. shelf ≡ record { calls = record { next = Some 1; failing = failing.now; faults = 0 }; content = content_of content }) }
    {
        Ok(MemShelf {
            calls: Calls::new(alloc, failing)?,
            entries: content,
        })
    }

    /// Whether no two entries have the same name, as `new` asks.
    pub fn are_distinct(content: &List<SourceFile>) -> bool
        ensures { IsTrue result ↔ IsDistinct content.now }
    {
        are_distinct(content.as_slice())
    }
}

impl Shelf for MemShelf {
    ghost use Rattle.std.specs.Prelude.{◌≡◌, ◌≤◌, ℕ, Some, IfOk, length};
    ghost use Rattle.outside.specs.Content.{Content};
    ghost use Rattle.outside.specs.Shelf.{HasCause, Lists, Reads};
    ghost use Rattle.outside.specs.Memory.{ListsExactly, ReadsExactly, after_call};

    ghost faults = { λ shelf. shelf.calls.faults };

    ghost content = { λ shelf. Some shelf.content };

    fn list(&mut self, alloc: Global, folder: &str) -> Result<List<Text>, ShelfError>
        ensures answer { ListsExactly self.old folder.now result }
        ensures after { self.new ≡ after_call self.old }
        ensures kept { self.old.calls.faults ≤ self.new.calls.faults }
        ensures cause { HasCause self.old.calls.faults self.new.calls.faults result }
        ensures same { Some self.new.content ≡ Some self.old.content }
        ensures told { (c : Content) → Some self.old.content ≡ Some c → Lists c folder.now result }
    {
        self.calls.begin()?;
        let entries = self.entries.as_slice();
        if !is_folder(entries, folder) {
            return Err(ShelfError::Absent);
        }
        Ok(listing(alloc, entries, folder)?)
    }

    fn read(&mut self, alloc: Global, path: &str, limit: u64) -> Result<List<u8>, ShelfError>
        ensures answer { ReadsExactly self.old path.now limit result }
        ensures after { self.new ≡ after_call self.old }
        ensures kept { self.old.calls.faults ≤ self.new.calls.faults }
        ensures cause { HasCause self.old.calls.faults self.new.calls.faults result }
        ensures same { Some self.new.content ≡ Some self.old.content }
        ensures within { IfOk result (λ bytes. length bytes ≤ limit) }
        ensures told { (c : Content) → Some self.old.content ≡ Some c → Reads c path.now limit result }
    {
        self.calls.begin()?;
        let Some(bytes) = bytes_at(self.entries.as_slice(), path) else {
            return Err(ShelfError::Absent);
        };
        Ok(first_bytes(alloc, bytes, limit)?)
    }
}

// A copy of the first bytes up to the limit.
fn first_bytes(alloc: Global, bytes: &[u8], limit: u64) -> Result<List<u8>, NoMemory>
    ensures value { IfOk result (λ copy. copy ≡ take limit bytes.now) }
    ensures within { IfOk result (λ copy. length copy ≤ limit) }
{
    let len = bytes.len().min(limit as usize);
    Ok(List::from_slice(alloc, &bytes[..len])?)
}
