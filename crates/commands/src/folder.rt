//! The configuration files of a folder.

ghost use Rattle.std.specs.Prelude.{◌≡◌, ◌≤◌, ◌<◌, [], IfOk, OnOk, OnErr, Ok, Err, Some, None, codes, filter, length, map, nat_eq, string_bytes, true, ◌++◌, ◌∷◌};
ghost use Rattle.std.specs.List.{ends_with, list_any, position_or_len};
ghost use Rattle.net_types.specs.Order.{same_text, text_before};
ghost use Rattle.topology.specs.Ascending.{put};
ghost use Rattle.outside.specs.Content.{Content, names_in, path_of};
ghost use Rattle.commands.specs.Folder.{bytes_of, config_names, few_files_of, files_of, folder_of, is_config};
ghost use Rattle.commands.specs.declared.refusals.Refusal.TheVariants.{NoPath};
ghost use Rattle.commands.specs.Stops.{Gives, HasCause, StopsAt};

use crate::refusals::{Bundle, Refusal};
use crate::stop::Stop;
use net_types::{BundleRefusal, List, NoMemory, SourceFile, Text};
use outside::{Shelf, ShelfError};
use std::alloc::Global;

/// How much of a file is read: one byte more than a file may have.
const READ_LIMIT: u64 = 262145;

/// The most files that a folder may have.
const MOST_FILES: usize = 64;

// Whether a file of this name is a configuration.
fn is_config(name: &Text) -> bool
    ensures { result ≡ is_config name.now }
{
    name.as_bytes().ends_with(b".conf")
}

fn is_before(a: &Text, b: &Text) -> bool
    ensures { result ≡ text_before a.now b.now }
{
    a.as_bytes().cmp(b.as_bytes()).is_lt()
}

// The place of a name among those in order.
fn place(done: &[Text], name: &Text) -> usize
    ensures value { result ≡ position_or_len (λ n. text_before name.now n) done.now }
    ensures within { result ≤ length done.now }
{
    done.iter().take_while(|n| !is_before(name, n)).count()
}

fn is_there(done: &[Text], name: &Text) -> bool
    ensures { result ≡ list_any (λ n. same_text n name.now) done.now }
{
    done.iter().any(|n| n.as_bytes() == name.as_bytes())
}

// Puts a name at its place among those in order, unless it is there.
fn put(done: &mut Vec<Text>, name: Text) -> Result<(), NoMemory>
    ensures { OnOk result (done.new.items ≡ put same_text text_before done.old.items name) }
{
    if is_there(done, &name) {
        return Ok(());
    }
    let place = place(done, &name);
    done.insert(place, name)?;
    Ok(())
}

// The names of the configuration files among these, in byte order, each once.
fn config_names(alloc: Global, names: List<Text>) -> Result<Vec<Text>, NoMemory>
    ensures { IfOk result (λ v. v.items ≡ config_names names) }
{
    let mut done = Vec::new(alloc);
    for name in names.into_vec() {
        if is_config(&name) {
            put(&mut done, name)?;
        }
    }
    Ok(done)
}

// The stop where nothing is at a path.
fn no_path(alloc: Global, path: &str) -> Stop
    ensures { StopsAt (NoPath path.now) result }
{
    match Text::from_str(alloc, path) {
        Ok(path) => Stop::Refused(Refusal::NoPath(path)),
        Err(_) => Stop::NoMemory,
    }
}

/// The bytes of the file at a path, at most one more than a file may have.
#[tactic(auto, unfolding(crate::specs::Folder::bytes_of))]
pub fn read_file<F: Shelf>(alloc: Global, shelf: &mut F, path: &str) -> Result<List<u8>, Stop>
    ensures cause { HasCause (F.faults shelf.old) (F.faults shelf.new) result }
    ensures same { F.content shelf.new ≡ F.content shelf.old }
    ensures told { (c : Content) → F.content shelf.old ≡ Some c → Gives (bytes_of c path.now) result }
{
    match shelf.read(alloc, path, READ_LIMIT) {
        Ok(bytes) => Ok(bytes),
        Err(ShelfError::Absent) => Err(no_path(alloc, path)),
        Err(ShelfError::Failed) => Err(Stop::ReadFault),
        Err(ShelfError::NoMemory) => Err(Stop::NoMemory),
    }
}

// The path of a file in a folder.
fn path_of(alloc: Global, folder: &str, name: &str) -> Result<String, NoMemory>
    ensures { IfOk result (λ path. string_bytes path ≡ path_of folder.now name.now) }
{
    Ok(format!(in alloc; "{folder}/{name}")?)
}

// The file of a name in a folder.
fn read_in<F: Shelf>(
    alloc: Global,
    shelf: &mut F,
    folder: &str,
    name: &str,
) -> Result<List<u8>, Stop>
    ensures cause { HasCause (F.faults shelf.old) (F.faults shelf.new) result }
    ensures same { F.content shelf.new ≡ F.content shelf.old }
    ensures told { (c : Content) → F.content shelf.old ≡ Some c → Gives (bytes_of c (path_of folder.now name.now)) result }
{
    let path = path_of(alloc, folder, name)?;
    read_file(alloc, shelf, path.as_str())
}

// The files of these names in a folder.
fn read_files<F: Shelf>(
    alloc: Global,
    shelf: &mut F,
    folder: &str,
    names: Vec<Text>,
) -> Result<List<SourceFile>, Stop>
    ensures cause { HasCause (F.faults shelf.old) (F.faults shelf.new) result }
    ensures same { F.content shelf.new ≡ F.content shelf.old }
    ensures told { (c : Content) → F.content shelf.old ≡ Some c → Gives (files_of c folder.now names.items) result }
{
    let mut files = List::new(alloc);
    for name in names {
        let text = read_in(alloc, shelf, folder, name.as_str())?;
        files.push(SourceFile { name, text })?;
    }
    Ok(files)
}

// The files of these names in a folder, unless there are too many.
fn read_few<F: Shelf>(
    alloc: Global,
    shelf: &mut F,
    bundle: Bundle,
    folder: &str,
    names: Vec<Text>,
) -> Result<List<SourceFile>, Stop>
    ensures cause { HasCause (F.faults shelf.old) (F.faults shelf.new) result }
    ensures same { F.content shelf.new ≡ F.content shelf.old }
    ensures told { (c : Content) → F.content shelf.old ≡ Some c → Gives (few_files_of c bundle folder.now names.items) result }
{
    if names.len() > MOST_FILES {
        let refusal = BundleRefusal::TooManyFiles(names.len() as u64);
        return Err(Stop::Refused(Refusal::Bundle(bundle, List::new(alloc), refusal)));
    }
    read_files(alloc, shelf, folder, names)
}

// The listed names' configuration files.
fn read_listed<F: Shelf>(
    alloc: Global,
    shelf: &mut F,
    bundle: Bundle,
    folder: &str,
    names: List<Text>,
) -> Result<List<SourceFile>, Stop>
    ensures cause { HasCause (F.faults shelf.old) (F.faults shelf.new) result }
    ensures same { F.content shelf.new ≡ F.content shelf.old }
    ensures told { (c : Content) → F.content shelf.old ≡ Some c → Gives (few_files_of c bundle folder.now (config_names names)) result }
{
    let names = config_names(alloc, names)?;
    read_few(alloc, shelf, bundle, folder, names)
}

/// The configuration files of a bundle's folder: the names that end in `.conf`, in byte order, each once.
#[tactic(auto, unfolding(crate::specs::Folder::folder_of))]
pub fn read_folder<F: Shelf>(
    alloc: Global,
    shelf: &mut F,
    bundle: Bundle,
    folder: &str,
) -> Result<List<SourceFile>, Stop>
    ensures cause { HasCause (F.faults shelf.old) (F.faults shelf.new) result }
    ensures same { F.content shelf.new ≡ F.content shelf.old }
    ensures told { (c : Content) → F.content shelf.old ≡ Some c → Gives (folder_of c bundle folder.now) result }
{
    match shelf.list(alloc, folder) {
        Ok(names) => read_listed(alloc, shelf, bundle, folder, names),
        Err(ShelfError::Absent) => Err(no_path(alloc, folder)),
        Err(ShelfError::Failed) => Err(Stop::ReadFault),
        Err(ShelfError::NoMemory) => Err(Stop::NoMemory),
    }
}
