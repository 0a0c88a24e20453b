//! Sessions over two worlds that differ in one class.
use crate::{Reports, SessionFault, World, Worlds, session};
use pj_base::{Bytes, NoMemory, Numbers, Text, Words};
use pj_check::Outcome;
use pj_outside::{Files, Folders, MemKeeper};
use std::alloc::Global;
use std::test::Fail;

/// A ruleset with one rule, which finds fields of a type under `p.Y`.
static RULESET: &str =
    "<?xml version=\"1.0\"?><ruleset name=\"own\"><rule name=\"N\" language=\"java\" message=\"m\" class=\"net.sourceforge.pmd.lang.rule.xpath.XPathRule\"><priority>3</priority><properties><property name=\"xpath\"><value><![CDATA[//FieldDeclaration[pmd-java:typeIs('p.Y')]]]></value></property></properties></rule></ruleset>";

/// The class file of `p.X`, with the superclass `java.lang.Object`.
static UNDER_OBJECT: &[u8] =
    b"\xca\xfe\xba\xbe\x00\x00\x00\x34\x00\x05\x07\x00\x02\x01\x00\x03p/X\x07\x00\x04\x01\x00\x10java/lang/Object\x00\x21\x00\x01\x00\x03\x00\x00\x00\x00\x00\x00\x00\x00";

/// The class file of `p.X`, with the superclass `p.Y`.
static UNDER_Y: &[u8] =
    b"\xca\xfe\xba\xbe\x00\x00\x00\x34\x00\x05\x07\x00\x02\x01\x00\x03p/X\x07\x00\x04\x01\x00\x03p/Y\x00\x21\x00\x01\x00\x03\x00\x00\x00\x00\x00\x00\x00\x00";

/// Puts a file of these bytes.
fn put_file(alloc: Global, files: &mut Files, path: &str, bytes: &[u8]) -> Result<(), NoMemory> {
    let path = Text::from_str(alloc, path)?;
    files.push((path, Bytes::from_vec(Vec::from_slice(alloc, bytes)?)))
}

/// Two sources and a ruleset.
fn files_of(alloc: Global) -> Result<Files, NoMemory> {
    let mut files = Files::new(alloc);
    put_file(
        alloc,
        &mut files,
        "src/S1.java",
        b"import p.X; class S1 { X x; }",
    )?;
    put_file(alloc, &mut files, "src/S2.java", b"class S2 {}")?;
    put_file(alloc, &mut files, "r.xml", RULESET.as_bytes())?;
    Ok(files)
}

/// A folder that has the class `p.X`.
fn put_folder(
    alloc: Global,
    folders: &mut Folders,
    name: &str,
    class: &[u8],
) -> Result<(), NoMemory> {
    let mut files = Files::new(alloc);
    put_file(alloc, &mut files, "p/X.class", class)?;
    folders.push(Text::from_str(alloc, name)?, files)
}

/// A world with `p.X` under `java.lang.Object` in the folder `b`, and under `p.Y` in the folder `a`, if that is to have it.
fn world_of(alloc: Global, has_first: bool) -> Result<World, NoMemory> {
    let files = files_of(alloc)?;
    let mut folders = Folders::new(alloc);
    put_folder(alloc, &mut folders, "b", UNDER_OBJECT)?;
    if has_first {
        put_folder(alloc, &mut folders, "a", UNDER_Y)?;
    }
    Ok(World { files, folders })
}

/// The two worlds, one behind the other.
fn two_worlds(alloc: Global) -> Result<Worlds, NoMemory> {
    let mut worlds = Worlds::new(alloc);
    worlds.push(world_of(alloc, false)?)?;
    worlds.push(world_of(alloc, true)?)?;
    Ok(worlds)
}

/// The words of a line, between blanks.
fn words_of(alloc: Global, line: &str) -> Result<Words, NoMemory> {
    let mut words = Words::new(alloc);
    for word in line.split(' ') {
        words.push(Text::from_str(alloc, word)?)?;
    }
    Ok(words)
}

/// Whether there are the two reports of the two worlds.
fn are_two(reports: &Reports) -> bool {
    match reports.as_slice() {
        [first, second] => {
            first.is_empty() && second.as_slice() == b"src/S1.java:1:\tN:\tm\n".as_slice()
        }
        _ => false,
    }
}

/// Why there are no reports, in words.
fn reason(fault: SessionFault) -> &'static str {
    match fault {
        SessionFault::Run(0, Outcome::Missing(_)) => "the first one lacks a path",
        SessionFault::Run(1, Outcome::Missing(_)) => "the second one lacks a path",
        SessionFault::Run(_, _) => "refused",
        SessionFault::Memory => "memory",
    }
}

#[test]
fn a_session_has_the_cold_report_of_each_world(rt: HostRuntime) -> Result<(), Fail> {
    let alloc = rt.alloc();
    let worlds = two_worlds(alloc)?;
    let words = words_of(alloc, "check -d src -R r.xml --aux-classpath a:b --cache c")?;
    let mut keeper = MemKeeper::new(alloc, Numbers::new(alloc));
    for time in ["over nothing", "over what the first one left"] {
        let reports = session(alloc, &worlds, &words, &mut keeper).map_err(reason)?;
        assert!(rt; are_two(&reports), "{time}");
        assert!(rt; keeper.get("c").is_some(), "{time}");
    }
    Ok(())
}

#[test]
fn the_first_world_that_is_refused_ends_the_session(rt: HostRuntime) -> Result<(), Fail> {
    let alloc = rt.alloc();
    let mut worlds = two_worlds(alloc)?;
    let empty = World {
        files: Files::new(alloc),
        folders: Folders::new(alloc),
    };
    let words = words_of(alloc, "check -d src -R r.xml --cache c")?;
    let mut keeper = MemKeeper::new(alloc, Numbers::new(alloc));
    worlds.pop();
    worlds.push(empty)?;
    worlds.push(world_of(alloc, true)?)?;
    let told = session(alloc, &worlds, &words, &mut keeper).map_err(reason);
    assert_eq!(rt; told.err(), Some("the second one lacks a path"));
    Ok(())
}
