//! Runs of characters.

ghost use Rattle.std.specs.Prelude.{◌≡◌, ◌+◌, ◌<◌, ◌≤◌, OnOk};
ghost use Rattle.pj_tree.specs.Runs.{AreRuns, Takes, SameBelow};

use crate::node::Place;
use pj_base::NoMemory;

/// A run of characters on one line, each of which takes `width` bytes.
#[derive(Clone, Copy, Debug)]
pub struct Run {
    /// The offset of the first of them.
    pub from: u32,
    pub width: u32,
    /// The place of the first of them.
    pub place: Place,
}

/// Lets the last run take the next character, which stands at a place and takes as many bytes as `width`, or begins a
/// new one with it.
pub fn go_on(runs: &mut Vec<Run>, offset: u32, width: u32, place: Place) -> Result<(), NoMemory>
    requires runs { AreRuns runs.old.items offset place }
    requires wide { 0 < width }
    ensures runs { OnOk result (AreRuns runs.new.items offset place) }
    ensures takes { OnOk result (Takes runs.new.items offset width place) }
    ensures same { OnOk result (SameBelow runs.old.items runs.new.items offset) }
{
    if let Some(last) = runs.last() {
        if last.width == width && last.place.line == place.line {
            return Ok(());
        }
    }
    runs.push(Run {
        from: offset,
        width,
        place,
    })?;
    Ok(())
}
