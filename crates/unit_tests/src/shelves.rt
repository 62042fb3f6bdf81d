//! The objects in memory, on cases worked out by hand.

ghost use Rattle.std.specs.Prelude.{Some};

use crate::asserting::{holds, holds_at};
use net_types::{List, SourceFile, Text};
use outside::{DirShelf, Failed, MemShelf, MemSink, OutSink, Shelf, ShelfError, Sink, give_all};
use std::alloc::{AllocError, Global};
use std::process::Abort;
use std::test::Fail;
use std::{fs, io};

// Files, and the folder `old` by an entry of its own.
const ENTRIES: [(&str, &str); 4] = [
    ("new/a.conf", "abc"),
    ("new/b.conf", ""),
    ("new/deep/c.conf", "x"),
    ("old/", ""),
];

fn entries(alloc: Global, named: &[(&str, &str)]) -> Result<List<SourceFile>, ShelfError> {
    let mut entries = List::new(alloc);
    for (name, text) in named {
        let name = Text::from_str(alloc, name)?;
        let text = List::from_slice(alloc, text.as_bytes())?;
        entries.push(SourceFile { name, text })?;
    }
    Ok(entries)
}

fn shelf(
    rt: &impl Abort,
    alloc: Global,
    named: &[(&str, &str)],
    failing: &[u64],
) -> Result<MemShelf, ShelfError> {
    let entries = entries(alloc, named)?;
    holds(rt, MemShelf::are_distinct(&entries));
    Ok(MemShelf::new(alloc, entries, failing)?)
}

fn shown_error(error: ShelfError) -> &'static str {
    match error {
        ShelfError::Failed => "Failed",
        ShelfError::Absent => "Absent",
        ShelfError::NoMemory => "NoMemory",
    }
}

// The names that were listed, each with a blank behind it.
fn shown_names(alloc: Global, names: &[Text]) -> Result<String, AllocError> {
    let mut shown = String::new(alloc);
    for name in names {
        shown.push_str(name.as_str())?;
        shown.push_str(" ")?;
    }
    Ok(shown)
}

// The names in a folder, or the error in their place.
fn shown_listing<S: Shelf>(
    shelf: &mut S,
    alloc: Global,
    folder: &str,
) -> Result<String, AllocError> {
    match shelf.list(alloc, folder) {
        Ok(names) => shown_names(alloc, names.as_slice()),
        Err(error) => String::from_str(alloc, shown_error(error)),
    }
}

#[test]
fn names_in_a_folder(rt: HostRuntime) -> Result<(), Fail> {
    let cases = [
        ("files, and none of a folder in it", "new", "a.conf b.conf "),
        ("a folder in a folder", "new/deep", "c.conf "),
        ("a folder without files", "old", ""),
        ("no such folder", "other", "Absent"),
        ("the beginning of a name", "ne", "Absent"),
        ("a file", "new/a.conf", "Absent"),
    ];
    let mut shelf = shelf(&rt, rt.alloc(), &ENTRIES, &[])?;
    for (name, folder, wanted) in cases {
        let listed = shown_listing(&mut shelf, rt.alloc(), folder)?;
        holds_at(&rt, name, listed.as_str() == wanted);
    }
    Ok(())
}

#[test]
fn bytes_of_a_file(rt: HostRuntime) -> Result<(), Fail> {
    let cases = [
        ("all", "new/a.conf", 10, "abc"),
        ("the first", "new/a.conf", 2, "ab"),
        ("as many as there are", "new/a.conf", 3, "abc"),
        ("as many as can be", "new/a.conf", u64::MAX, "abc"),
        ("no byte", "new/a.conf", 0, ""),
        ("of an empty file", "new/b.conf", 10, ""),
        ("no such file", "new/c.conf", 10, "Absent"),
        ("a folder", "new", 10, "Absent"),
        ("the entry of a folder", "old/", 10, "Absent"),
    ];
    let mut shelf = shelf(&rt, rt.alloc(), &ENTRIES, &[])?;
    for (name, path, limit, wanted) in cases {
        match shelf.read(rt.alloc(), path, limit) {
            Ok(bytes) => holds_at(&rt, name, bytes.as_slice() == wanted.as_bytes()),
            Err(error) => holds_at(&rt, name, shown_error(error) == wanted),
        }
    }
    Ok(())
}

// Names that begin alike, a folder in a folder, and a name without bytes before a `/`.
const ALIKE: [(&str, &str); 4] = [("a/b", ""), ("ab/c", ""), ("old/sub/", ""), ("x//y", "")];

#[test]
fn folders_that_look_alike(rt: HostRuntime) -> Result<(), Fail> {
    let cases = [
        ("its own file", "a", "b "),
        ("the longer name", "ab", "c "),
        ("a named folder", "old/sub", ""),
        ("a folder that holds a named folder alone", "old", "Absent"),
        (
            "a named folder with the end of its name",
            "old/sub/",
            "Absent",
        ),
        ("a file below it, and none in it", "x", ""),
        ("the folder of that file", "x/", "y "),
    ];
    let mut shelf = shelf(&rt, rt.alloc(), &ALIKE, &[])?;
    for (name, folder, wanted) in cases {
        let listed = shown_listing(&mut shelf, rt.alloc(), folder)?;
        holds_at(&rt, name, listed.as_str() == wanted);
    }
    Ok(())
}

#[test]
fn listings_and_reads_are_counted_together(rt: HostRuntime) -> Result<(), Fail> {
    let mut shelf = shelf(&rt, rt.alloc(), &ENTRIES, &[2, 4])?;
    let first = shown_listing(&mut shelf, rt.alloc(), "old")?;
    holds(&rt, first.as_str() == "");
    let second = shelf.read(rt.alloc(), "new/a.conf", 10);
    holds(&rt, second.err() == Some(ShelfError::Failed));
    let third = shelf.read(rt.alloc(), "new/c.conf", 10);
    holds(&rt, third.err() == Some(ShelfError::Absent));
    let fourth = shown_listing(&mut shelf, rt.alloc(), "other")?;
    holds(&rt, fourth.as_str() == "Failed");
    let fifth = shown_listing(&mut shelf, rt.alloc(), "other")?;
    holds(&rt, fifth.as_str() == "Absent");
    Ok(())
}

#[test]
fn listed_calls_of_a_shelf_fail(rt: HostRuntime) -> Result<(), Fail> {
    let cases = [
        ("first", 3),
        ("second, which is listed", 0),
        ("third", 3),
        ("fourth, which is listed", 0),
    ];
    let mut shelf = shelf(&rt, rt.alloc(), &ENTRIES, &[2, 4])?;
    for (name, wanted) in cases {
        match shelf.read(rt.alloc(), "new/a.conf", 10) {
            Ok(bytes) => holds_at(&rt, name, bytes.len() == wanted),
            Err(error) => {
                holds_at(&rt, name, error == ShelfError::Failed);
                holds_at(&rt, name, 0 == wanted);
            }
        }
    }
    Ok(())
}

#[test]
fn a_sink_takes_what_it_has_room_for(rt: HostRuntime) -> Result<(), Fail> {
    let cases = [
        ("the first call, which is listed", "abc", None, ""),
        ("all", "abc", Some(3), "abc"),
        ("what there is room for", "def", Some(2), "abcde"),
        ("no room", "f", None, "abcde"),
        ("no bytes", "", Some(0), "abcde"),
    ];
    let mut sink = MemSink::new(rt.alloc(), 5, &[1])?;
    for (name, piece, wanted, bytes) in cases {
        holds_at(&rt, name, sink.give(piece.as_bytes()).ok() == wanted);
        holds_at(&rt, name, sink.bytes() == bytes.as_bytes());
    }
    Ok(())
}

#[test]
fn listed_calls_of_a_full_sink_fail(rt: HostRuntime) -> Result<(), Fail> {
    let cases = [
        (
            "the first call, which is listed, without bytes",
            "",
            None,
            "",
        ),
        ("all", "a", Some(1), "a"),
        ("the third call, which is listed", "b", None, "a"),
        ("no room", "b", None, "a"),
        ("no bytes", "", Some(0), "a"),
    ];
    let mut sink = MemSink::new(rt.alloc(), 1, &[1, 3])?;
    for (name, piece, wanted, bytes) in cases {
        holds_at(&rt, name, sink.give(piece.as_bytes()).ok() == wanted);
        holds_at(&rt, name, sink.bytes() == bytes.as_bytes());
    }
    Ok(())
}

#[test]
fn whole_pieces_are_given(rt: HostRuntime) -> Result<(), Fail> {
    let cases = [
        ("all", "abc", true, "abc"),
        ("no bytes", "", true, "abc"),
        ("more than there is room for", "defg", false, "abcde"),
    ];
    let mut sink = MemSink::new(rt.alloc(), 5, &[])?;
    for (name, piece, wanted, bytes) in cases {
        holds_at(
            &rt,
            name,
            give_all(&mut sink, piece.as_bytes()).is_ok() == wanted,
        );
        holds_at(&rt, name, sink.bytes() == bytes.as_bytes());
    }
    Ok(())
}

#[test]
fn a_writer_gets_what_is_given(rt: HostRuntime) -> Result<(), Fail> {
    let mut written = Vec::new(rt.alloc());
    let mut out = OutSink::new(&mut written);
    holds(&rt, give_all(&mut out, b"abc").is_ok());
    holds(&rt, written.as_slice() == b"abc".as_slice());
    let mut room = [0; 2];
    let mut out = OutSink::new(room.as_mut_slice());
    holds(&rt, out.give(b"def").ok() == Some(2));
    holds(&rt, out.give(b"f").ok() == None);
    holds(&rt, room.as_slice() == b"de".as_slice());
    Ok(())
}

// A sink that takes one byte of a piece at a time.
#[derive(Drop)]
struct OneByOne(MemSink);

impl Sink for OneByOne {
    ghost faults = { λ sink. sink.0.calls.faults };

    ghost given = { λ sink. Some sink.0.given };

    fn give(&mut self, bytes: &[u8]) -> Result<usize, Failed> {
        let first = bytes.len().min(1);
        self.0.give(&bytes[..first])
    }
}

#[test]
fn a_piece_is_given_byte_by_byte(rt: HostRuntime) -> Result<(), Fail> {
    let mut all = OneByOne(MemSink::new(rt.alloc(), 5, &[])?);
    holds(&rt, give_all(&mut all, b"abc").is_ok());
    holds(&rt, all.0.bytes() == b"abc".as_slice());
    let mut third = OneByOne(MemSink::new(rt.alloc(), 5, &[3])?);
    holds(&rt, give_all(&mut third, b"abc").is_err());
    holds(&rt, third.0.bytes() == b"ab".as_slice());
    Ok(())
}

// The folders are made where the test runs.
fn make_folders(rt: &HostRuntime) -> io::Result<()> {
    fs::create_dir_all(rt, "shelf/x.conf")?;
    fs::write(rt, "shelf/a.conf", b"abc".as_slice())?;
    fs::write(rt, "shelf/b", b"".as_slice())
}

#[test]
fn names_in_a_folder_of_the_machine(rt: HostRuntime) -> Result<(), Fail> {
    make_folders(&rt)?;
    let mut shelf = DirShelf::new(rt.clone()?);
    let listed = shown_listing(&mut shelf, rt.alloc(), "shelf")?;
    holds(&rt, listed.len() == "a.conf b x.conf ".len());
    for name in ["a.conf ", "b ", "x.conf "] {
        holds_at(&rt, name, listed.as_str().contains(name));
    }
    let cases = [
        ("a folder in it", "shelf/x.conf", ""),
        ("no such folder", "missing", "Absent"),
        ("a file", "shelf/a.conf", "Failed"),
    ];
    for (name, folder, wanted) in cases {
        let listed = shown_listing(&mut shelf, rt.alloc(), folder)?;
        holds_at(&rt, name, listed.as_str() == wanted);
    }
    Ok(())
}

#[test]
fn bytes_of_a_file_of_the_machine(rt: HostRuntime) -> Result<(), Fail> {
    make_folders(&rt)?;
    let cases = [
        ("all", "shelf/a.conf", 3, "abc"),
        ("the first", "shelf/a.conf", 2, "ab"),
        ("no byte", "shelf/a.conf", 0, ""),
        ("of an empty file", "shelf/b", 10, ""),
        ("no such file", "shelf/c", 10, "Absent"),
        ("a folder", "shelf/x.conf", 10, "Failed"),
        ("a name below a file", "shelf/a.conf/y", 10, "Failed"),
    ];
    let mut shelf = DirShelf::new(rt.clone()?);
    for (name, path, limit, wanted) in cases {
        match shelf.read(rt.alloc(), path, limit) {
            Ok(bytes) => holds_at(&rt, name, bytes.as_slice() == wanted.as_bytes()),
            Err(error) => holds_at(&rt, name, shown_error(error) == wanted),
        }
    }
    Ok(())
}
