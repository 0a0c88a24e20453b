//! The translation of a file, character by character.

ghost use Rattle.std.specs.Prelude.{ℕ, Bool, List, ◌≡◌, ◌+◌, ◌<◌, ◌≤◌, ◌∷◌, [], ◌⊎◌, Result, Ok, Err, length, OnOk, IfOk, MatchResult, string_len, ◌==◌, ◌||◌, not, true, if◌then◌else◌};
ghost use Rattle.std.specs.Str.{chars};
ghost use Rattle.std.specs.Char.{len_utf8};
ghost use Rattle.pj_source.specs.Escapes.{Piece, place_behind_all};
ghost use Rattle.pj_source.specs.SourceText.{SourceText, Translates, source_of};
ghost use Rattle.pj_source.specs.SourceText.{is_last_sub as skips_last};
ghost use Rattle.pj_source.specs.SourceRuns.{AreRuns};
ghost use Rattle.pj_source.specs.Translating.{IsFront, HasMade, CanTake, IsTranslated};

use crate::source::Source;
use crate::source::fault::SourceFault;
use crate::source::front::{Front, split_front};
use crate::source::run::{Run, go_on};
use pj_base::{NoMemory, split_first};
use pj_tree::{Place, place_after};
use std::alloc::Global;

/// What was translated of a file.
#[derive(Drop)]
pub struct Translation {
    /// The translated text.
    text: String,
    /// The places of its bytes.
    runs: Vec<Run>,
    /// The place of what is left of the file.
    place: Place,
    /// Whether an escape wrote the last character.
    escaped: bool,
    /// Whether an even number of backslashes stands at the end of the translated text.
    even: bool,
}

/// Whether an even number of backslashes stands at the end of a text with a character more.
fn even_with(even: bool, c: char) -> bool
    ensures { result ≡ (if c == 92 then not even else true) }
{
    c != '\\' || !even
}

/// Whether the character is the U+001A that a file may end with.
fn is_last_sub(front: &Front<'_>) -> bool
    ensures { result ≡ skips_last front.now.character (chars front.now.behind.now) }
{
    match split_first(front.behind) {
        Some(_) => false,
        None => front.character == '\u{1a}',
    }
}

impl Translation {
    /// Nothing yet, of a file whose text begins at a place.
    pub fn new(alloc: Global, place: Place) -> Result<Translation, NoMemory>
        ensures made { (left : ℕ) → left ≤ 4294967294 → place.column + left ≤ 4294967295 → place.line + left ≤ 4294967295 → IfOk result (λ t. HasMade t [] left) }
        ensures place { IfOk result (λ t. t.place ≡ place) }
        ensures len { IfOk result (λ t. string_len t.text ≡ 0) }
    {
        let mut runs = Vec::new(alloc);
        runs.push(Run {
            from: 0,
            width: 1,
            place,
        })?;
        Ok(Translation {
            text: String::new(alloc),
            runs,
            place,
            escaped: false,
            even: true,
        })
    }

    /// Whether a backslash may begin an escape where the translation stands.
    fn is_eligible(&self) -> bool
        ensures { result ≡ (self.now.escaped || self.now.even) }
    {
        self.escaped || self.even
    }

    /// The place behind the characters that write the next one.
    fn place_behind(&self, front: &Front<'_>) -> Place
        requires column { self.now.place.column + front.now.length ≤ 4294967295 }
        requires line { self.now.place.line < 4294967295 }
        requires some { 0 < front.now.length }
        ensures past { (eligible : Bool) (text : List ℕ) → (f : IsFront eligible text front.now.character front.now.escaped front.now.length (chars front.now.behind.now)) → result ≡ place_behind_all self.now.place f.w (chars front.now.behind.now) }
        ensures column { result.column ≤ self.now.place.column + front.now.length }
        ensures line { result.line ≤ self.now.place.line + 1 }
    {
        if front.escaped {
            Place {
                line: self.place.line,
                column: self.place.column + front.length,
            }
        } else {
            place_after(self.place, front.character, front.behind)
        }
    }

    /// Takes the next character.
    fn take(&mut self, front: &Front<'_>) -> Result<(), NoMemory>
        requires can { CanTake self.old front.now.length }
        ensures made { (pieces : List Piece) (left : ℕ) → HasMade self.old pieces left → front.now.length + length front.now.behind.now ≤ left → len_utf8 front.now.character + length front.now.behind.now ≤ left → OnOk result (HasMade self.new (record { character = front.now.character; escaped = front.now.escaped; place = self.old.place } ∷ pieces) (length front.now.behind.now)) }
        ensures len { OnOk result (string_len self.new.text ≡ string_len self.old.text + len_utf8 front.now.character) }
        ensures place { (eligible : Bool) (text : List ℕ) → (f : IsFront eligible text front.now.character front.now.escaped front.now.length (chars front.now.behind.now)) → OnOk result (self.new.place ≡ place_behind_all self.old.place f.w (chars front.now.behind.now)) }
    {
        let width = front.character.len_utf8() as u32;
        go_on(&mut self.runs, self.text.len() as u32, width, self.place)?;
        self.text.push(front.character)?;
        self.place = self.place_behind(front);
        self.escaped = front.escaped;
        self.even = even_with(self.even, front.character);
        Ok(())
    }

    /// Translates what is left of the file, with nothing translated before.
    pub fn read(&mut self, text: &str) -> Result<(), SourceFault>
        requires made { HasMade self.old [] (length text.now) }
        ensures read { MatchResult result (λ _. IsTranslated self.old.place (chars text.now) self.new) (λ fault. (fault ≡ SourceFault.Memory) ⊎ Translates self.old.place [] (chars text.now) (Err fault)) }
        ensures len { OnOk result (string_len self.new.text ≤ string_len self.old.text + length text.now) }
    {
        let mut rest = text;
        while let Some((c, behind)) = split_first(rest) {
            let front = match split_front(self.is_eligible(), rest, c, behind) {
                Some(front) => front,
                None => return Err(SourceFault::Escape(self.place)),
            };
            if is_last_sub(&front) {
                return Ok(());
            }
            self.take(&front)?;
            rest = front.behind;
        }
        Ok(())
    }

    /// The source, whose text ends at the place where the translation stands.
    pub fn finish(mut self) -> Result<Source, NoMemory>
        requires runs { AreRuns self.runs.items (string_len self.text) 0 }
        requires size { string_len self.text ≤ 4294967294 }
        requires column { self.place.column ≤ 4294967295 }
        ensures source { (pieces : List Piece) (left : ℕ) → HasMade self pieces left → IfOk result (λ s. s ≡ source_of pieces self.place) }
        ensures len { IfOk result (λ s. length s.text ≡ string_len self.text) }
    {
        let end = self.text.len() as u32;
        go_on(&mut self.runs, end, 1, self.place)?;
        let Translation { text, runs, .. } = self;
        Ok(Source { text, runs })
    }
}
