//! What holds of the bytes of every file.

ghost use Rattle.std.specs.Prelude.{◌≡◌, ℕ, List, Ok, Result};
ghost use Rattle.pj_source.specs.SourceText.{SourceText, IsPlaced, IsRead};

use crate::source::SourceFault;

/// Something comes of the bytes of every file, and it is one thing: a text, or the first fault. A text is UTF-8 and has
/// all its places.
/// The call does nothing: its contract is the law.
pub fn files_are_read()
    ensures there { (bytes : List ℕ) → (o : Result SourceText SourceFault) × IsRead bytes o }
    ensures one { (bytes : List ℕ) (o p : Result SourceText SourceFault) → IsRead bytes o → IsRead bytes p → o ≡ p }
    ensures placed { (bytes : List ℕ) (s : SourceText) → IsRead bytes (Ok s) → IsPlaced s }
{}
