//! Runs of characters.

ghost use Rattle.std.specs.Prelude.{ℕ, ◌≡◌, ◌+◌, ◌<◌, ◌≤◌, OnOk};
ghost use Rattle.pj_source.specs.SourceRuns.{AreRuns, Takes, SameBelow, place_in};

use pj_base::NoMemory;
use pj_tree::Place;

/// A run of characters on one line, each of which takes `width` bytes, and stands a column behind the one before.
#[derive(Clone, Copy, Debug)]
pub struct Run {
    /// The offset of the first of them.
    pub from: u32,
    pub width: u32,
    /// The place of the first of them.
    pub place: Place,
}

impl Run {
    /// The place of the character at an offset.
    pub fn place_of(self, offset: u32) -> Place
        requires wide { 0 < self.width }
        requires begins { self.from ≤ offset }
        requires column { self.place.column + offset ≤ self.from + 4294967295 }
        ensures { result ≡ place_in self offset }
    {
        Place {
            line: self.place.line,
            column: self.place.column + (offset - self.from) / self.width,
        }
    }
}

/// Lets the last run take the next character, which stands at a place and takes as many bytes as `width`, or begins a
/// new one with it.
pub fn go_on(runs: &mut Vec<Run>, offset: u32, width: u32, place: Place) -> Result<(), NoMemory>
    requires runs { AreRuns runs.old.items offset 0 }
    requires wide { 0 < width }
    ensures runs { (left : ℕ) → AreRuns runs.old.items offset left → place.column + left ≤ 4294967295 → OnOk result (AreRuns runs.new.items offset left) }
    ensures takes { OnOk result (Takes runs.new.items offset width place) }
    ensures same { OnOk result (SameBelow runs.old.items runs.new.items offset) }
{
    if let Some(last) = runs.last() {
        if last.width == width && last.place_of(offset) == place {
            return Ok(());
        }
    }
    runs.push(Run {
        from: offset,
        width,
        place,
    })?;
    Ok(())
}
