//! Worlds.
use pj_base::ListOf;
use pj_outside::{Files, Folders};

/// What a run is over.
#[derive(Drop)]
pub struct World {
    /// The files of its tree: sources and rulesets. The first of a path counts.
    pub files: Files,
    /// Its class folders. The first of a name counts.
    pub folders: Folders,
}

/// Worlds, in the order of their runs.
pub type Worlds = ListOf<World>;
