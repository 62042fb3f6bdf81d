//! A shelf: folders of files that are read.

ghost use Rattle.std.specs.Prelude.{◌≡◌, ◌≤◌, ℕ, Option, Some, IfOk, length};
ghost use Rattle.outside.specs.Content.{Content};

use crate::Failed;
use net_types::{List, NoMemory, Text};
use std::alloc::{AllocError, AllocFailed, Global};

/// Why a shelf did not answer a call.
#[derive(Clone, Copy, PartialEq, Eq, Debug)]
pub enum ShelfError {
    /// The shelf could not do it: a fault.
    Failed,
    /// There is no such folder or file.
    Absent,
    /// There was no memory.
    NoMemory,
}

impl From<AllocError> for ShelfError {
    ghost use Rattle.std.specs.Prelude.{◌≡◌};
    ghost use Rattle.outside.specs.declared.shelf.ShelfError.TheVariants.{NoMemory};

    ghost from_gives = { λ _ error. error ≡ NoMemory };

    fn from(_error: AllocError) -> ShelfError {
        ShelfError::NoMemory
    }
}

impl<T: Drop> From<AllocFailed<T>> for ShelfError {
    ghost use Rattle.std.specs.Prelude.{◌≡◌};
    ghost use Rattle.outside.specs.declared.shelf.ShelfError.TheVariants.{NoMemory};

    ghost from_gives = { λ _ error. error ≡ NoMemory };

    fn from(_error: AllocFailed<T>) -> ShelfError {
        ShelfError::NoMemory
    }
}

impl From<NoMemory> for ShelfError {
    ghost use Rattle.std.specs.Prelude.{◌≡◌};
    ghost use Rattle.outside.specs.declared.shelf.ShelfError.TheVariants.{NoMemory};

    ghost from_gives = { λ _ error. error ≡ NoMemory };

    fn from(_error: NoMemory) -> ShelfError {
        ShelfError::NoMemory
    }
}

impl From<Failed> for ShelfError {
    ghost use Rattle.std.specs.Prelude.{◌≡◌};
    ghost use Rattle.outside.specs.declared.shelf.ShelfError.TheVariants.{Failed};

    ghost from_gives = { λ _ error. error ≡ Failed };

    fn from(_error: Failed) -> ShelfError {
        ShelfError::Failed
    }
}

/// Folders of files. The path of a file in a folder is the folder, `/` and the file's name, which
/// holds no `/`. A shelf has a count of faults, and may tell its content.
pub trait Shelf {
    ghost use Rattle.outside.specs.Shelf.{HasCause, Lists, Reads};

    ghost faults: { Self → ℕ };

    ghost content: { Self → Option Content };

    /// The names of the files in a folder, each once, in no order that is known.
    ///
    /// # Errors
    /// `Failed` only where the count of faults rose in this call, `Absent` where there is no such
    /// folder, `NoMemory` at any time.
    fn list(&mut self, alloc: Global, folder: &str) -> Result<List<Text>, ShelfError>
        ensures kept { faults self.old ≤ faults self.new }
        ensures cause { HasCause (faults self.old) (faults self.new) result }
        ensures same { content self.new ≡ content self.old }
        ensures told { (c : Content) → content self.old ≡ Some c → Lists c folder.now result };

    /// The first `limit` bytes of the file at a path, or all where there are fewer.
    ///
    /// # Errors
    /// `Failed` only where the count of faults rose in this call, `Absent` where there is no such
    /// file, `NoMemory` at any time.
    fn read(&mut self, alloc: Global, path: &str, limit: u64) -> Result<List<u8>, ShelfError>
        ensures kept { faults self.old ≤ faults self.new }
        ensures cause { HasCause (faults self.old) (faults self.new) result }
        ensures same { content self.new ≡ content self.old }
        ensures within { IfOk result (λ bytes. length bytes ≤ limit) }
        ensures told { (c : Content) → content self.old ≡ Some c → Reads c path.now limit result };
}
