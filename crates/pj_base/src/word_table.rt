//! Tables of words.
ghost use Rattle.std.specs.Prelude.{◌≡◌, map};
ghost use Rattle.std.specs.Str.{chars};
ghost use Rattle.pj_base.specs.WordTable.{value_in};

use crate::equality::is_same_text;

/// The value that a word has in a table: that of the first row with its text, or `None` exactly where no row has it.
///
/// It goes along the table, so it is for tables that are short. The answer is the same by bytes and by characters.
pub fn value_in<T: Copy>(table: &[(&str, T)], word: &str) -> Option<T>
    ensures bytes { result ≡ value_in (map (λ row. (row.0.now, row.1)) table.now) word.now }
    ensures chars { result ≡ value_in (map (λ row. (chars row.0.now, row.1)) table.now) (chars word.now) }
{
    for row in table {
        if is_same_text(row.0, word) {
            return Some(row.1);
        }
    }
    None
}
