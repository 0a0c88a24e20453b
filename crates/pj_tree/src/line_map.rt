//! Lines and columns of a text.

ghost use Rattle.std.specs.Prelude.{◌≡◌, ◌+◌, ◌<◌, ◌≤◌, length, Some, IfOk, slice_get};
ghost use Rattle.pj_tree.specs.Places.{places_of, ArePlacesOf};

use crate::characters::place_after;
use crate::node::Place;
use crate::run::{Run, go_on};
use pj_base::{NoMemory, split_first};
use std::alloc::Global;
use std::marker::Model;

/// The place of each offset of a text, the end included. It keeps runs of characters of one width on one line, so in
/// ASCII a run for each line, and at most one for each character. A look-up is a bisection over them.
#[derive(Drop)]
pub struct LineMap {
    /// The runs in order. The last one goes on past the end.
    runs: Vec<Run>,
    /// How many bytes the text has.
    end: u32,
}

impl Model for LineMap {
    ghost use Rattle.std.specs.Prelude.{List};
    ghost use Rattle.pj_tree.specs.declared.node.Place.{Place};

    ghost Value = { List Place };

    ghost use Rattle.pj_tree.specs.Runs.{places_by, IsLineMap};

    ghost view = { λ m. places_by m.runs.items m.end };

    ghost invariant = { λ m. IsLineMap m.runs.items m.end };
}

impl LineMap {
    /// The places of the text, one for each offset in bytes, from 0 up to and including its length.
    pub fn new(alloc: Global, text: &str) -> Result<LineMap, NoMemory>
        requires length { length text.now ≤ 4294967294 }
        ensures places { IfOk result (λ m. m ≡ places_of text.now) }
        ensures counted { IfOk result (ArePlacesOf text.now) }
        ensures len { IfOk result (λ m. length m ≡ length text.now + 1) }
    {
        let mut place = Place { line: 1, column: 1 };
        let mut runs = Vec::new(alloc);
        runs.push(Run {
            from: 0,
            width: 1,
            place,
        })?;
        let mut offset = 0;
        let mut rest = text;
        while let Some((c, behind)) = split_first(rest) {
            let width = c.len_utf8() as u32;
            go_on(&mut runs, offset, width, place)?;
            place = place_after(place, c, behind);
            offset += width;
            rest = behind;
        }
        go_on(&mut runs, offset, 1, place)?;
        Ok(LineMap { runs, end: offset })
    }

    /// The place of an offset in bytes: that of the character there, also from inside its bytes, and for the length of
    /// the text that of its end. It takes no memory.
    pub fn place(&self, offset: u32) -> Place
        requires inside { offset < length self.now }
        ensures value { slice_get self.now offset ≡ Some result }
    {
        let behind = self
            .runs
            .as_slice()
            .partition_point(|run| run.from <= offset);
        let run = self.runs[behind - 1];
        Place {
            line: run.place.line,
            column: run.place.column + (offset - run.from) / run.width,
        }
    }
}
