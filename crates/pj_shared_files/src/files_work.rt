//! The work of a run on its files.
ghost use Rattle.std.specs.Prelude.{◌≡◌, Some, length, slice_get};
ghost use Rattle.pj_cache_format.specs.Ordered.{IsInOrder};
ghost use Rattle.pj_cached_files.specs.Asked.{keys_of_set};
ghost use Rattle.pj_fitting.specs.Left.{File};
ghost use Rattle.pj_grammar.specs.Java17.{java_17_forms};
ghost use Rattle.pj_peg_grammar.specs.Form.{forms_of};
ghost use Rattle.pj_shared_files.specs.InWorlds.{LeavesIn};

use pj_base::{Bytes, Text};
use pj_cached_files::{LeftFile, Run, file_entry};
use pj_names::{AskFault, Oracle};
use pj_seats::FileWork;
use pj_workers::sets_have_rules;
use std::alloc::Global;

/// The work of a run on its files, over the cache that it found. What comes of a file is what the run leaves of it.
#[derive(Drop)]
pub struct FilesWork<'r> {
    /// What the run has at hand for each file.
    pub run: &'r Run<'r>,
    /// The files, each with its path.
    pub files: &'r [(Text, Bytes)],
}

impl<'r> FileWork for FilesWork<'r> {
    type Made = LeftFile;

    ghost count = { λ work. length work.files.now };

    ghost is_ready = { λ work. (forms_of work.run.now.grammar.now ≡ java_17_forms) × IsInOrder work.run.now.found.now × (work.run.now.keys.now ≡ keys_of_set work.run.now.rules.now) };

    ghost comes = { λ work file worlds names left. (one : File) → slice_get work.files.now file ≡ Some one → LeavesIn work.run.now.rules.now work.run.now.found.now one worlds names left };

    fn work<O: Oracle>(
        &self,
        alloc: Global,
        oracle: &mut O,
        file: u32,
    ) -> Result<LeftFile, AskFault> {
        sets_have_rules(self.run.rules);
        let of_number = &self.files[file as usize];
        file_entry(alloc, self.run, oracle, &of_number.0, &of_number.1)
    }
}
