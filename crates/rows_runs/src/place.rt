//! Where the runs of a row are: a folder and a keeper, which are changed between them.
use crate::calls::Failing;
use crate::kept::RowKeeper;
use crate::put::{put_names, text_in};
use crate::ran::{Ran, run_over};
use crate::runs::{SHORTS, put_ran};
use pj_base::{Bytes, Copied, NoMemory, Text, Words};
use pj_outside::Files;
use pj_row_folders::{files_of, folder_of, words_of};
use pj_rows::{Section, put};
use std::alloc::Global;
use std::fmt::Write;

/// Where the runs of a row are.
pub struct Place {
    /// The files of the folder.
    files: Files,
    /// The keeper.
    pub keeper: RowKeeper,
    /// What stood under the name of the cache before all runs, and after each.
    left: Vec<Option<Bytes>>,
    /// Whether each run is compared with one without a cache, and with one over none.
    is_compared: bool,
}

impl Drop for Place {
    fn drop(self) {
        let Place {
            files: _,
            keeper: _,
            left: _,
            is_compared: _,
        } = self;
    }
}

/// The files without that of a path.
fn without(alloc: Global, files: Files, path: &Text) -> Result<Files, NoMemory> {
    let mut others = Files::new(alloc);
    for file in files.into_vec() {
        if file.0.as_str() != path.as_str() {
            others.push(file)?;
        }
    }
    Ok(others)
}

/// Whether the same stands in two places.
fn is_alike(one: Option<&Bytes>, other: Option<&Bytes>) -> bool {
    match (one, other) {
        (Some(one), Some(other)) => one.as_slice() == other.as_slice(),
        (None, None) => true,
        _ => false,
    }
}

/// The words of a command.
pub fn command_words(alloc: Global, command: &str) -> Result<Words, NoMemory> {
    words_of(alloc, command.strip_prefix("pmd").unwrap_or(command))
}

/// The words of a command without those that ask for a cache.
fn words_without_cache(alloc: Global, command: &str) -> Result<Words, NoMemory> {
    let command = String::from_str(alloc, command)?;
    let command = command.replace(alloc, " --cache c", "")?;
    let command = command.replace(alloc, " --cache ''", "")?;
    command_words(alloc, command.as_str())
}

/// Whether a run came to its report.
fn has_report(ran: &Ran) -> bool {
    matches!(ran.outcome.status(), 0 | 4 | 5)
}

impl Place {
    /// The folder of a section, and a keeper that has nothing, whose calls fail by the section. Its runs are compared with others, if that is asked for.
    pub fn new(alloc: Global, section: &Section, is_compared: bool) -> Result<Place, NoMemory> {
        Ok(Place {
            files: folder_of(alloc, &SHORTS, section, "")?,
            keeper: RowKeeper::new(alloc, failing_of(section))?,
            left: Vec::new(alloc),
            is_compared,
        })
    }

    /// Makes one change: of the cache under the path `cache`, of a file under every other. The text `(gone)` takes a file away.
    fn change(&mut self, alloc: Global, path: Text, bytes: Bytes) -> Result<(), NoMemory> {
        if path.as_str() == "cache" {
            return self.keeper.change(bytes.as_slice());
        }
        let is_gone = bytes.as_slice() == b"(gone)".as_slice();
        let files = std::mem::replace(&mut self.files, Files::new(alloc));
        let mut files = without(alloc, files, &path)?;
        if !is_gone {
            files.push((path, bytes))?;
        }
        self.files = files;
        Ok(())
    }

    /// Makes the changes that are written.
    pub fn change_all(&mut self, alloc: Global, written: &str) -> Result<(), NoMemory> {
        let changes = files_of(alloc, &SHORTS, written)?;
        for (path, bytes) in changes.into_vec() {
            self.change(alloc, path, bytes)?;
        }
        Ok(())
    }

    /// Notes what stands under the name of the cache.
    pub fn note_cache(&mut self) -> Result<(), NoMemory> {
        let now = match self.keeper.cache() {
            Some(bytes) => Some(bytes.copied()?),
            None => None,
        };
        self.left.push(now)?;
        Ok(())
    }

    /// The number of the first run, from 1, after which the cache stood as it stands now; 0 if it stood so before all runs.
    fn first_alike(&self) -> Option<usize> {
        let now = self.keeper.cache();
        for (number, left) in self.left.iter().enumerate() {
            if is_alike(left.as_ref(), now) {
                return Some(number);
            }
        }
        None
    }

    /// Puts after which run the cache stood first as it stands now.
    fn put_cache(&self, out: &mut String) -> Result<(), NoMemory> {
        match (self.keeper.cache(), self.first_alike()) {
            (Some(_), Some(number)) => write!(out, "; cache {number}")?,
            _ => put(out, &["; no cache"])?,
        }
        Ok(())
    }

    /// Puts that the report is not the one of a run without a cache, where that is so.
    fn put_cold_report(
        &self,
        alloc: Global,
        out: &mut String,
        command: &str,
        ran: &Ran,
    ) -> Result<(), NoMemory> {
        let words = words_without_cache(alloc, command)?;
        let none = Failing::of("");
        let mut keeper = RowKeeper::new(alloc, none)?;
        let cold = run_over(alloc, self.files.copied()?, &words, none, &mut keeper)?;
        if text_in(&cold.report) != text_in(&ran.report) {
            put(out, &["; report not cold"])?;
        }
        Ok(())
    }

    /// Puts that the cache is not the one that a run leaves where there was none, where that is so.
    fn put_cold_cache(
        &self,
        alloc: Global,
        out: &mut String,
        command: &str,
        ran: &Ran,
    ) -> Result<(), NoMemory> {
        if !command.contains(" --cache c") || text_in(&ran.notes).contains("cache not written") {
            return Ok(());
        }
        let words = command_words(alloc, command)?;
        let none = Failing::of("");
        let mut keeper = RowKeeper::new(alloc, none)?;
        let _ran = run_over(alloc, self.files.copied()?, &words, none, &mut keeper)?;
        if !is_alike(keeper.cache(), self.keeper.cache()) {
            put(out, &["; cache not cold"])?;
        }
        Ok(())
    }

    /// Puts what a run came to: what was done with the files and the classes, after which run the cache stood so first, and then the outcome, the notes and the report.
    pub fn put_run(
        &mut self,
        alloc: Global,
        out: &mut String,
        command: &str,
        ran: &Ran,
    ) -> Result<(), NoMemory> {
        put(out, &["analysed"])?;
        put_names(out, &ran.work.analysed)?;
        put(out, &["; reused"])?;
        put_names(out, &ran.work.reused)?;
        let finds = ran.classes.finds();
        write!(out, "; finds {finds}")?;
        self.note_cache()?;
        self.put_cache(out)?;
        if self.is_compared && has_report(ran) {
            self.put_cold_report(alloc, out, command, ran)?;
            self.put_cold_cache(alloc, out, command, ran)?;
        }
        put(out, &["\n"])?;
        put_ran(out, ran)
    }

    /// Runs a command, behind `pmd`, where the calls of its section fail.
    pub fn run(
        &mut self,
        alloc: Global,
        section: &Section,
        command: &str,
    ) -> Result<Ran, NoMemory> {
        let words = command_words(alloc, command)?;
        let failing = failing_of(section);
        run_over(
            alloc,
            self.files.copied()?,
            &words,
            failing,
            &mut self.keeper,
        )
    }
}

/// The calls that fail in a section.
fn failing_of(section: &Section) -> Failing {
    Failing::of(section.setting("fails").unwrap_or(""))
}
