//! The text of a source file, with its Unicode escapes translated, and the places of its characters in the file.

mod characters;
mod escape;
mod fault;
mod front;
mod run;
mod translation;

ghost use Rattle.std.specs.Prelude.{◌≡◌, ◌+◌, ◌<◌, ◌≤◌, ◌⊎◌, length, Result, Ok, Err, Some, IfOk, MatchResult, slice_get, true, IfErr};
ghost use Rattle.pj_source.specs.SourceText.{SourceText, IsRead, is_untouched};
ghost use Rattle.pj_source.specs.SourceWritings.{IsWrittenOut, StopsAt};
ghost use Rattle.pj_tree.specs.Places.{places_of};
ghost use Rattle.std.specs.Str.{chars};

use characters::behind_mark;
pub use fault::SourceFault;
use pj_tree::Place;
use run::Run;
use std::alloc::Global;
use std::marker::Model;
use translation::Translation;

/// The text of a source file: its characters in UTF-8 with the Unicode escapes translated (JLS 3.3), and the place in the
/// file of each offset. It keeps the places as runs of characters of one width that stand side by side on one line: at
/// most two more than it has characters, and in ASCII one for each line and at most two for each escape.
#[derive(Drop)]
pub struct Source {
    text: String,
    runs: Vec<Run>,
}

impl Model for Source {
    ghost use Rattle.std.specs.Prelude.{◌≡◌, string_bytes, string_len};
    ghost use Rattle.pj_source.specs.SourceText.{SourceText};
    ghost use Rattle.pj_source.specs.SourceRuns.{places_by, AreInOrder};

    ghost Value = { SourceText };

    ghost view = { λ s. record { text = string_bytes s.text; places = places_by s.runs.items (string_len s.text) } };

    ghost invariant = { λ s. AreInOrder s.runs.items (string_len s.text) 0 };
}

impl Source {
    /// Reads the bytes of a source file as UTF-8 and translates its Unicode escapes (JLS 3.3), in one pass. A U+FEFF at
    /// the front of the file is skipped, and so is a U+001A that is the last character of the translated text (JLS 3.5),
    /// one of each. It answers `NotUtf8` exactly where the file is not UTF-8, which is judged over the whole file first,
    /// else `Escape` exactly where a backslash that is eligible to begin an escape, with a `u` behind it, begins none,
    /// each at the first such place in the file, or `Memory`. A file with no backslash, no U+FEFF at its front and no
    /// U+001A at its end is its own text, and its places are those of a `LineMap`.
    pub fn read(alloc: Global, bytes: &[u8]) -> Result<Source, SourceFault>
        requires length { length bytes.now ≤ 4294967294 }
        ensures read { MatchResult result (λ s. IsRead bytes.now (Ok s)) (λ fault. (fault ≡ SourceFault.Memory) ⊎ IsRead bytes.now (Err fault)) }
        ensures len { IfOk result (λ s. length s.text ≤ length bytes.now) }
        ensures written_out { IfOk result (λ s. IsWrittenOut (chars bytes.now) s) }
        ensures stops { IfErr result (λ fault. (at : Place) → fault ≡ SourceFault.Escape at → StopsAt (chars bytes.now) at) }
        ensures as_written { IfOk result (λ s. is_untouched (chars bytes.now) ≡ true → s ≡ record { text = bytes.now; places = places_of bytes.now }) }
        ensures one { (o p : Result SourceText SourceFault) → IsRead bytes.now o → IsRead bytes.now p → o ≡ p }
    {
        let file = match str::from_utf8(bytes) {
            Ok(file) => file,
            Err(error) => return Err(SourceFault::NotUtf8(error.valid_up_to() as u32)),
        };
        let (body, place) = behind_mark(file);
        let mut translation = Translation::new(alloc, place)?;
        translation.read(body)?;
        Ok(translation.finish()?)
    }

    /// The translated text. It takes no memory.
    pub fn text(&self) -> &str
        ensures value { result.now ≡ self.now.text }
        ensures len { length result.now ≤ 4294967294 }
        ensures places { length self.now.places ≡ length self.now.text + 1 }
    {
        self.text.as_str()
    }

    /// The place in the file as it is of the character of the translated text at an offset in bytes, also from inside its
    /// bytes, and for the length of the text the place behind its last character: the end of the file, or the U+001A that
    /// was skipped. A character that an escape gives stands where the escape's backslash stands. Lines are those of the
    /// file before translation: unlike in JLS 3.4, no line ends at a line feed or carriage return that an escape gives,
    /// and a carriage return of the file ends one also before such a line feed. It takes no memory.
    pub fn place(&self, offset: u32) -> Place
        requires inside { offset ≤ length self.now.text }
        ensures value { slice_get self.now.places offset ≡ Some result }
    {
        let behind = self
            .runs
            .as_slice()
            .partition_point(|run| run.from <= offset);
        let run = self.runs[behind - 1];
        run.place_of(offset)
    }
}
