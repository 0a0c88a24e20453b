//! The flags of a pattern.
ghost use Rattle.std.specs.Prelude.{◌≡◌};
ghost use Rattle.std.specs.List.{list_all};
ghost use Rattle.pj_xpatterns.specs.Meaning.{flags_of, has_letter, is_flag};

/// The flags of a pattern (XPath Functions and Operators, 7.6.1.1).
#[derive(Clone, Copy, Debug, PartialEq, Eq)]
pub struct PatternFlags {
    /// `i`: a letter is found in upper and in lower case.
    pub any_case: bool,
    /// `m`: `^` and `$` stand at each line.
    pub multi_line: bool,
    /// `s`: `.` is a line feed too.
    pub dot_all: bool,
}

impl PatternFlags {
    /// No flags.
    pub const NONE: PatternFlags = PatternFlags {
        any_case: false,
        multi_line: false,
        dot_all: false,
    };

    /// The flags that a text of the letters `i`, `m` and `s` names, and `None` where it has another character.
    pub fn of(text: &str) -> Option<PatternFlags>
        ensures { result ≡ flags_of text.now }
    {
        let letters = text.as_bytes();
        if !are_flags(letters) {
            return None;
        }
        Some(PatternFlags {
            any_case: has_letter(b'i', letters),
            multi_line: has_letter(b'm', letters),
            dot_all: has_letter(b's', letters),
        })
    }
}

/// Whether each letter is a flag.
fn are_flags(letters: &[u8]) -> bool
    ensures { result ≡ list_all is_flag letters.now }
{
    letters.iter().all(|letter| is_flag(*letter))
}

/// Whether a letter is a flag (XPath Functions and Operators, 7.6.1.1).
fn is_flag(letter: u8) -> bool
    ensures { result ≡ is_flag letter }
{
    letter == b'i' || letter == b'm' || letter == b's'
}

/// Whether a letter is among some.
fn has_letter(letter: u8, letters: &[u8]) -> bool
    ensures { result ≡ has_letter letter letters.now }
{
    letters.iter().any(|other| letter == *other)
}
