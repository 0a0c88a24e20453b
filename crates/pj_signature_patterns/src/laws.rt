//! Laws of signature patterns.
ghost use Rattle.std.specs.Prelude.{◌≡◌, ℕ, List};
ghost use Rattle.pj_signature_patterns.specs.Patterns.{IsRead, Spells};
ghost use Rattle.pj_signature_patterns.specs.Reading.{pattern_in};
ghost use Rattle.pj_signature_patterns.specs.declared.pattern.SigPattern.{SigPattern};

/// A text spells at most one pattern. What definitions cite as the reading of a text is the language, in both directions: what is read is the one pattern that the
/// text spells, and where nothing is read it spells none.
pub fn patterns_are_one()
    ensures one { (text : List ℕ) (first second : SigPattern) → Spells text first → Spells text second → first ≡ second }
    ensures readings { (text : List ℕ) → IsRead text (pattern_in text) }
{}
