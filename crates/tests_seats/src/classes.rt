//! Work that asks for one class a file, over a class path in memory.
ghost use Rattle.std.specs.Prelude.{◌≡◌, ◌≤◌, ℕ, [], get_or, vec_len};
ghost use Rattle.pj_names.specs.Told.{longest};

use pj_base::{Bytes, Names, NoMemory, Numbers, Text};
use pj_names::{Answer, AskFault, ClassName, Oracle};
use pj_outside::{Files, Folders, MemClassPath, Pairs};
use pj_seats::FileWork;
use std::alloc::Global;
use std::sync::Arc;
use std::test::Fail;

/// What comes of a file is the answer for its class. The first files, so many, want memory.
#[derive(Drop)]
pub struct OneClass {
    pub names: Vec<ClassName>,
    pub wanting: u32,
}

impl FileWork for OneClass {
    type Made = Arc<Answer>;

    ghost count = { λ work. vec_len work.names };

    ghost is_ready = { λ work. Unit {0} };

    ghost comes = { λ work file worlds names answer. (depth : ℕ) → longest ≤ depth → answer.value ≡ (worlds depth).answer (get_or work.names.items file []) };

    #[tactic(auto, using(pj_seats::proofs::Working::asks_stay))]
    fn work<O: Oracle>(
        &self,
        _alloc: Global,
        oracle: &mut O,
        file: u32,
    ) -> Result<Arc<Answer>, AskFault> {
        if file < self.wanting {
            return Err(AskFault::Memory);
        }
        oracle.ask(&self.names[file as usize])
    }
}

/// The classes of files.
pub fn names(alloc: Global, all: &[&str]) -> Result<Vec<ClassName>, Fail> {
    let mut names = Vec::new(alloc);
    for name in all {
        names.push(ClassName::of(alloc, name)?.ok_or("no class name")?)?;
    }
    Ok(names)
}

/// One folder, in which `p.A` has a file that is no class file.
fn folders(alloc: Global) -> Result<Folders, NoMemory> {
    let mut files = Files::new(alloc);
    let bytes = Bytes::from_vec(Vec::from_slice(alloc, b"xyz")?);
    files.push((Text::from_str(alloc, "p/A.class")?, bytes))?;
    let mut folders = Folders::new(alloc);
    folders.push(Text::from_str(alloc, "one")?, files)?;
    Ok(folders)
}

/// A class path with the folder, of which the find of this number is to fail at each of 64 doors, from 1; with 0 none is.
pub fn class_path(alloc: Global, fails: u32) -> Result<MemClassPath, NoMemory> {
    let mut pairs = Pairs::new(alloc);
    for door in 0..64 {
        pairs.push((door, fails))?;
    }
    Ok(MemClassPath::new(alloc, folders(alloc)?, Numbers::new(alloc), pairs))
}

/// The names of the folders.
pub fn folder_names(alloc: Global) -> Result<Names, NoMemory> {
    let mut names = Names::new(alloc);
    names.push(Text::from_str(alloc, "one")?)?;
    Ok(names)
}

/// Whether each file has its turn, and its class is absent where this says so.
pub fn are(answers: &[Arc<Answer>], absent: &[bool]) -> bool {
    for (answer, absent) in answers.iter().zip(absent) {
        if (**answer == Answer::Absent) != *absent {
            return false;
        }
    }
    answers.len() == absent.len()
}
