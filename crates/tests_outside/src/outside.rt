//! Trees, class paths and sinks in memory: that calls succeed with ample memory, and fail where they are to.
use crate::fixtures::{File, Read, expect, files, is_read, name, numbers, text};
use pj_base::{Copied, Names, NoMemory};
use pj_outside::{
    ClassDoor, ClassPath, Failed, Folders, MemClassPath, MemDoor, MemSink, MemTree, Pairs, Refused,
    Sink, Tree,
};
use std::alloc::Global;
use std::test::Fail;

/// The files of a tree, two of which have one path.
static SOURCES: [File; 4] = [
    ("src/A.java", b"xyz"),
    ("src", b""),
    ("srcs/B.java", b""),
    ("src/A.java", b"second"),
];

/// A call of a tree over these files, and what it is to answer.
enum Call {
    /// The paths at a path and below it; none where there are none.
    List(&'static str, &'static [&'static str]),
    /// The same, which fails.
    Fails(&'static str),
    /// Reads a file, at most so many bytes.
    Read(&'static str, u64, Read),
}

/// Whether these are the paths.
fn are(paths: &Names, wanted: &[&str]) -> bool {
    for (path, wanted) in paths.as_slice().iter().zip(wanted) {
        if path.as_str() != *wanted {
            return false;
        }
    }
    paths.len() == wanted.len()
}

/// Whether a list answered these paths.
fn is_listed(answer: &Result<Option<Names>, Refused>, wanted: &[&str]) -> bool {
    match answer {
        Ok(Some(paths)) => are(paths, wanted),
        Ok(None) => wanted.is_empty(),
        Err(_) => false,
    }
}

/// Whether a call answers what it is to.
fn is_answered(tree: &mut MemTree, call: &Call) -> bool {
    match call {
        Call::List(at, wanted) => is_listed(&tree.list(at), wanted),
        Call::Fails(at) => matches!(tree.list(at), Err(Refused::Failed)),
        Call::Read(path, most, wanted) => is_read(&tree.read(path, *most), *wanted),
    }
}

/// Trees, of which the third call fails: what a row shows, and calls.
static TREES: [(&str, &[Call]); 2] = [
    (
        "a tree lists what lies at a path and below",
        &[
            Call::List("src", &["src/A.java", "src", "src/A.java"]),
            Call::List("src/", &[]),
            Call::Fails("src"),
        ],
    ),
    (
        "a tree reads within the limit and fails where it is to",
        &[
            Call::Read("src/A.java", 3, Read::Whole(b"xyz")),
            Call::Read("src/A.java", 2, Read::Longer),
            Call::Read("src/A.java", 3, Read::Failed),
            Call::Read("A.java", 3, Read::Absent),
        ],
    ),
];

/// A tree of the files, of which the third call fails.
fn tree(alloc: Global) -> Result<MemTree, NoMemory> {
    let fail = numbers(alloc, &[3])?;
    Ok(MemTree::new(alloc, files(alloc, &SOURCES)?, fail))
}

/// Whether each call answers what it is to.
fn are_answered(alloc: Global, calls: &[Call]) -> Result<bool, NoMemory> {
    let mut tree = tree(alloc)?;
    for call in calls {
        if !is_answered(&mut tree, call) {
            return Ok(false);
        }
    }
    Ok(true)
}

#[test]
fn trees(rt: HostRuntime) -> Result<(), Fail> {
    for (row, calls) in &TREES {
        expect(are_answered(rt.alloc(), calls)?, row)?;
    }
    Ok(())
}

/// Pieces that are put to a sink, and what is answered.
static PIECES: [(&[u8], Result<(), Failed>); 3] = [
    (b"ab", Ok(())),
    (b"cd", Err(Failed)),
    (b"ef", Ok(())),
];

/// Whether each piece is answered so.
fn are_put(sink: &mut MemSink) -> bool {
    for (piece, wanted) in &PIECES {
        if sink.put(piece) != *wanted {
            return false;
        }
    }
    true
}

/// A sink whose second call fails.
fn sink(alloc: Global) -> Result<MemSink, NoMemory> {
    Ok(MemSink::new(alloc, numbers(alloc, &[2])?))
}

#[test]
fn a_sink_keeps_what_it_got_and_fails_where_it_is_to(rt: HostRuntime) -> Result<(), Fail> {
    let mut sink = sink(rt.alloc())?;
    assert!(rt; are_put(&mut sink));
    assert!(rt; sink.bytes().as_slice() == b"abef".as_slice());
    Ok(())
}

/// The files of two folders.
static ONE: [File; 1] = [("p/A.class", b"xyz")];

static TWO: [File; 2] = [("p/A.class", b"second"), ("p/B.class", b"xyz")];

/// Puts a folder behind the others.
fn put_folder(
    alloc: Global,
    folders: &mut Folders,
    folder: &str,
    all: &[File],
) -> Result<(), NoMemory> {
    let name = text(alloc, folder)?;
    folders.push(name, files(alloc, all)?)
}

/// The folders `one` and `two`.
fn folders(alloc: Global) -> Result<Folders, NoMemory> {
    let mut folders = Folders::new(alloc);
    put_folder(alloc, &mut folders, "one", &ONE)?;
    put_folder(alloc, &mut folders, "two", &TWO)?;
    Ok(folders)
}

/// The find of a door that is to fail.
fn pair(alloc: Global, pair: (u32, u32)) -> Result<Pairs, NoMemory> {
    let mut pairs = Pairs::new(alloc);
    pairs.push(pair)?;
    Ok(pairs)
}

/// A class path of these folders, with the opens and the find of a door that are to fail.
fn class_path(alloc: Global, fail: &[u32], find: (u32, u32)) -> Result<MemClassPath, NoMemory> {
    let (fail, find) = (numbers(alloc, fail)?, pair(alloc, find)?);
    Ok(MemClassPath::new(alloc, folders(alloc)?, fail, find))
}

/// Puts the name of a folder behind the others.
fn put_name(alloc: Global, names: &mut Names, name: &str) -> Result<(), NoMemory> {
    names.push(text(alloc, name)?)
}

/// Names of folders.
fn names(alloc: Global, all: &[&str]) -> Result<Names, NoMemory> {
    let mut names = Names::new(alloc);
    for name in all {
        put_name(alloc, &mut names, name)?;
    }
    Ok(names)
}

/// A door to the folders of these names; none where it could not be opened.
fn door(
    alloc: Global,
    classes: &mut MemClassPath,
    all: &[&str],
) -> Result<Option<MemDoor>, NoMemory> {
    let names = names(alloc, all)?;
    Ok(classes.open(&names).ok())
}

/// A name of a class to be found, at most so many bytes, and what is to be answered.
type Find = (&'static str, u64, Read);

/// A door: what a row shows; the find of it that is to fail, or another door's; the folders that it opens; and what it finds.
static DOORS: [(&str, (u32, u32), &[&str], &[Find]); 2] = [
    (
        "a door finds in the first folder that has the file",
        (1, 1),
        &["none", "one", "two"],
        &[
            ("p.A", 3, Read::Whole(b"xyz")),
            ("p.B", 3, Read::Whole(b"xyz")),
            ("p.B", 2, Read::Longer),
            ("p", 3, Read::Absent),
        ],
    ),
    (
        "the order of the folders is that of the opening",
        (0, 2),
        &["two", "one"],
        &[("p.A", 6, Read::Whole(b"second")), ("p.A", 6, Read::Failed)],
    ),
];

/// Whether a find answers what it is to.
fn is_found(alloc: Global, door: &mut MemDoor, find: &Find) -> Result<bool, Fail> {
    let (text, most, wanted) = find;
    let name = name(alloc, text)?;
    Ok(is_read(&door.find(&name, *most), *wanted))
}

/// Whether each find answers what it is to; not where there is no door.
fn are_found(alloc: Global, door: Option<MemDoor>, finds: &[Find]) -> Result<bool, Fail> {
    let Some(mut door) = door else {
        return Ok(false);
    };
    for find in finds {
        if !is_found(alloc, &mut door, find)? {
            return Ok(false);
        }
    }
    Ok(true)
}

/// Whether a door, of which this find is to fail, finds what it is to.
fn is_door(
    alloc: Global,
    fail: (u32, u32),
    folders: &[&str],
    finds: &[Find],
) -> Result<bool, Fail> {
    let mut classes = class_path(alloc, &[], fail)?;
    are_found(alloc, door(alloc, &mut classes, folders)?, finds)
}

#[test]
fn doors(rt: HostRuntime) -> Result<(), Fail> {
    for (row, fail, folders, finds) in &DOORS {
        expect(is_door(rt.alloc(), *fail, folders, finds)?, row)?;
    }
    Ok(())
}

/// Whether an open succeeds.
fn opens(alloc: Global, classes: &mut MemClassPath) -> Result<bool, NoMemory> {
    Ok(door(alloc, classes, &["one"])?.is_some())
}

#[test]
fn an_open_fails_where_it_is_to(rt: HostRuntime) -> Result<(), Fail> {
    let mut classes = class_path(rt.alloc(), &[2], (0, 1))?;
    assert!(rt; opens(rt.alloc(), &mut classes)?);
    assert!(rt; !opens(rt.alloc(), &mut classes)?);
    Ok(())
}

/// Finds at a door, whatever it answers.
fn find_all(alloc: Global, door: &mut MemDoor, finds: &[Find]) -> Result<(), Fail> {
    for find in finds {
        is_found(alloc, door, find)?;
    }
    Ok(())
}

/// Opens a door, finds at it, and shuts it.
fn find_and_shut(alloc: Global, classes: &mut MemClassPath, finds: &[Find]) -> Result<(), Fail> {
    if let Some(mut door) = door(alloc, classes, &["one"])? {
        find_all(alloc, &mut door, finds)?;
        classes.shut(door);
    }
    Ok(())
}

/// One find, and two.
static ONCE: [Find; 1] = [("p.A", 3, Read::Whole(b"xyz"))];

static TWICE: [Find; 2] = [
    ("p.A", 3, Read::Whole(b"xyz")),
    ("p.A", 3, Read::Whole(b"xyz")),
];

/// Finds once at a door, and twice at a second one.
fn find_at_two(alloc: Global, classes: &mut MemClassPath) -> Result<(), Fail> {
    find_and_shut(alloc, classes, &ONCE)?;
    find_and_shut(alloc, classes, &TWICE)
}

/// How many finds the doors had.
fn finds_at_two(alloc: Global) -> Result<u64, Fail> {
    let mut classes = class_path(alloc, &[], (1, 2))?;
    find_at_two(alloc, &mut classes)?;
    Ok(classes.finds())
}

#[test]
fn finds_are_counted_at_the_shut_of_a_door(rt: HostRuntime) -> Result<(), Fail> {
    assert!(rt; finds_at_two(rt.alloc())? == 3);
    Ok(())
}

/// One folder.
fn one_folder(alloc: Global) -> Result<Folders, NoMemory> {
    let mut folders = Folders::new(alloc);
    put_folder(alloc, &mut folders, "one", &ONE)?;
    Ok(folders)
}

#[test]
fn folders_are_read_and_copied(rt: HostRuntime) -> Result<(), Fail> {
    assert!(rt; Folders::new(rt.alloc()).is_empty());
    let copy = one_folder(rt.alloc())?.copied()?;
    assert!(rt; copy.len() == 1);
    for (name, files) in copy.as_slice() {
        assert!(rt; name.as_str() == "one" && files.len() == 1);
    }
    Ok(())
}
