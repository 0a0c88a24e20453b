//! Class folders in memory, and how many doors a run opens to them.
use crate::calls::Failing;
use pj_base::{Copied, Names, NoMemory, Numbers, Text};
use pj_outside::{ClassPath, Files, Folders, MemClassPath, MemDoor, Pairs, Refused};
use std::alloc::Global;

/// A class path in memory that tells how many doors it gave and took back.
#[derive(Drop)]
pub struct CountedClasses {
    classes: MemClassPath,
    given: u32,
    taken: u32,
}

impl CountedClasses {
    /// A class path of these folders, of which these calls fail.
    fn new(alloc: Global, folders: Folders, failing: Failing) -> Result<CountedClasses, NoMemory> {
        let mut fail = Numbers::new(alloc);
        fail.push(failing.classes)?;
        let mut finds = Pairs::new(alloc);
        finds.push((0, failing.find))?;
        Ok(CountedClasses {
            classes: MemClassPath::new(alloc, folders, fail, finds),
            given: 0,
            taken: 0,
        })
    }

    /// How many doors it gave.
    pub fn given(&self) -> u32 {
        self.given
    }

    /// How many doors it took back.
    pub fn taken(&self) -> u32 {
        self.taken
    }

    /// How many finds the doors had that it took back.
    pub fn finds(&self) -> u64 {
        self.classes.finds()
    }
}

impl ClassPath for CountedClasses {
    type Door = MemDoor;

    ghost holds = { λ c. ⟦<MemClassPath as ClassPath>⟧.holds c.classes };

    ghost given = { λ c. ⟦<MemClassPath as ClassPath>⟧.given c.classes };

    ghost taken = { λ c. ⟦<MemClassPath as ClassPath>⟧.taken c.classes };

    ghost finds = { λ c. ⟦<MemClassPath as ClassPath>⟧.finds c.classes };

    ghost faults = { λ c. ⟦<MemClassPath as ClassPath>⟧.faults c.classes };

    ghost never_fails = { λ c. ⟦<MemClassPath as ClassPath>⟧.never_fails c.classes };

    fn open(&mut self, folders: &Names) -> Result<MemDoor, Refused> {
        let opened = self.classes.open(folders);
        if opened.is_ok() {
            self.given = self.given.saturating_add(1);
        }
        opened
    }

    fn shut(&mut self, door: MemDoor) {
        self.taken = self.taken.saturating_add(1);
        self.classes.shut(door);
    }
}

/// The folder of a class file, which is the first part of its path, and the path in the folder.
fn class_file(path: &str) -> Option<(&str, &str)> {
    if path.ends_with(".class") {
        return path.split_once('/');
    }
    None
}

/// The path of a file in a class folder of this name, where it is a class file there.
fn path_in<'p>(path: &'p str, folder: &str) -> Option<&'p str> {
    match class_file(path) {
        Some((name, rest)) if name == folder => Some(rest),
        _ => None,
    }
}

/// The class files of a folder of this name.
fn files_in(alloc: Global, files: &Files, folder: &str) -> Result<Files, NoMemory> {
    let mut inside = Files::new(alloc);
    for (path, bytes) in files.as_slice() {
        if let Some(rest) = path_in(path.as_str(), folder) {
            inside.push((Text::from_str(alloc, rest)?, bytes.copied()?))?;
        }
    }
    Ok(inside)
}

/// The class folders that files lie in. Where one has several files, the first of its pairs has them all.
fn folders_of(alloc: Global, files: &Files) -> Result<Folders, NoMemory> {
    let mut folders = Folders::new(alloc);
    for (path, _bytes) in files.as_slice() {
        if let Some((name, _rest)) = class_file(path.as_str()) {
            folders.push(Text::from_str(alloc, name)?, files_in(alloc, files, name)?)?;
        }
    }
    Ok(folders)
}

/// The class path of the folders that files lie in, of which these calls fail.
pub fn classes_of(
    alloc: Global,
    files: &Files,
    failing: Failing,
) -> Result<CountedClasses, NoMemory> {
    CountedClasses::new(alloc, folders_of(alloc, files)?, failing)
}
