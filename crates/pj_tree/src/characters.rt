//! Places, character by character.

ghost use Rattle.std.specs.Prelude.{◌≡◌, ◌<◌};
ghost use Rattle.std.specs.Str.{chars};
ghost use Rattle.pj_tree.specs.Places.{place_behind};

use crate::node::Place;
use pj_base::begins_with;

/// The place behind a character at a place, where `behind` follows it.
pub fn place_after(place: Place, c: char, behind: &str) -> Place
    requires line { place.line < 4294967295 }
    requires column { place.column < 4294967295 }
    ensures { result ≡ place_behind place c (chars behind.now) }
{
    if c == '\n' || c == '\r' && !begins_with(behind, '\n') {
        Place {
            line: place.line + 1,
            column: 1,
        }
    } else {
        Place {
            line: place.line,
            column: place.column + 1,
        }
    }
}
