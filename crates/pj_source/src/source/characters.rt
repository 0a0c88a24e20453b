//! The byte order mark at the front of a file.

ghost use Rattle.std.specs.Prelude.{◌≡◌, ◌+◌, ◌≤◌, length};
ghost use Rattle.std.specs.Str.{chars};
ghost use Rattle.pj_tree.specs.Places.{first_place};
ghost use Rattle.pj_source.specs.SourceText.{byte_order_mark, behind_byte_order_mark};
ghost use Rattle.pj_source.specs.Escapes.{place_behind_all};

use pj_base::split_first;
use pj_tree::Place;

/// What stands behind the byte order mark of a file, if there is one, and its place.
pub fn behind_mark<'s>(file: &'s str) -> (&'s str, Place)
    ensures chars { chars result.0.now ≡ behind_byte_order_mark (chars file.now) }
    ensures place { result.1 ≡ place_behind_all first_place (byte_order_mark (chars file.now)) (behind_byte_order_mark (chars file.now)) }
    ensures len { length result.0.now ≤ length file.now }
    ensures column { result.1.column + length result.0.now ≤ length file.now + 1 }
    ensures line { result.1.line ≡ 1 }
{
    let first = Place { line: 1, column: 1 };
    match split_first(file) {
        Some(('\u{feff}', behind)) => (behind, Place { line: 1, column: 2 }),
        _ => (file, first),
    }
}
