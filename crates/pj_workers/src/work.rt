//! What a run did.
ghost use Rattle.std.specs.Prelude.{◌≡◌, ◌++◌, ◌∷◌, [], OnErr, OnOk};
ghost use Rattle.pj_workers.specs.Evaluated.{with_path};

use pj_base::{Copied, ListOf, Names, NoMemory, Text};
use std::alloc::Global;

/// Rules, each by its number from 0, with the path of a file.
pub type Ran = ListOf<(Text, u32)>;

/// What a run did with the files. The lists are sorted by path.
#[derive(Debug, Drop)]
pub struct Work {
    /// The files that were analysed.
    pub analysed: Names,
    /// The files of which what was kept is used again.
    pub reused: Names,
    /// The rules that were evaluated, each with the path of the file on which it was: by path, and then by number.
    pub ran: Ran,
    /// How many declarations of modules were listed, which are not analysed.
    pub skipped: u32,
}

impl Work {
    /// Nothing was done.
    pub fn new(alloc: Global) -> Work
        ensures { result ≡ record { analysed = []; reused = []; ran = []; skipped = 0 } }
    {
        Work {
            analysed: Names::new(alloc),
            reused: Names::new(alloc),
            ran: Ran::new(alloc),
            skipped: 0,
        }
    }
}

impl Copied for Work {
    fn copied(&self) -> Result<Work, NoMemory> {
        Ok(Work {
            analysed: self.analysed.copied()?,
            reused: self.reused.copied()?,
            ran: self.ran.copied()?,
            skipped: self.skipped,
        })
    }
}

/// Puts rules by their numbers behind others, each with the path of a file.
pub fn put_ran(ran: &mut Ran, path: &Text, numbers: &[u32]) -> Result<(), NoMemory>
    ensures { OnOk result (ran.new ≡ ran.old ++ with_path path.now numbers.now) }
{
    for number in numbers {
        ran.push((path.copied()?, *number))?;
    }
    Ok(())
}

/// Notes that a file was analysed, and which rules were evaluated on it. After a refusal nothing is noted.
pub(crate) fn note_file(work: &mut Work, path: Text, ran: Ran) -> Result<(), NoMemory>
    ensures analysed { OnOk result (work.new.analysed ≡ work.old.analysed ++ path ∷ []) }
    ensures ran { OnOk result (work.new.ran ≡ work.old.ran ++ ran) }
    ensures reused { work.new.reused ≡ work.old.reused }
    ensures skipped { work.new.skipped ≡ work.old.skipped }
    ensures err { OnErr result (work.new ≡ work.old) }
{
    work.analysed.push(path)?;
    match work.ran.append(ran) {
        Ok(()) => Ok(()),
        Err(NoMemory) => {
            let _path = work.analysed.pop();
            Err(NoMemory)
        }
    }
}

/// Notes that files were analysed, and which rules were evaluated on them. After a refusal nothing is noted.
pub(crate) fn note_files(work: &mut Work, paths: Names, ran: Ran) -> Result<(), NoMemory>
    ensures analysed { OnOk result (work.new.analysed ≡ work.old.analysed ++ paths) }
    ensures ran { OnOk result (work.new.ran ≡ work.old.ran ++ ran) }
    ensures reused { work.new.reused ≡ work.old.reused }
    ensures skipped { work.new.skipped ≡ work.old.skipped }
    ensures err { OnErr result (work.new ≡ work.old) }
{
    let mut all_ran = work.ran.copied()?;
    all_ran.append(ran)?;
    work.analysed.append(paths)?;
    work.ran = all_ran;
    Ok(())
}
