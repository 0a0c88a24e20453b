//! `normalize-space`.
ghost use Rattle.std.specs.Prelude.{◌≡◌, encode_utf8_all, IfOk, string_bytes};
ghost use Rattle.std.specs.List.{join_with_byte};
ghost use Rattle.pj_xvalue.specs.Items.{values_of};
ghost use Rattle.pj_xvalue.specs.Replies.{outcome};
ghost use Rattle.pj_xvalue.specs.Arguments.{IsGiven};
ghost use Rattle.pj_xfuncs.specs.Spaces.{behind_space};
ghost use Rattle.pj_xfuncs.specs.Strings.{is_space as is_space_of, normalize_space as normalize_space_of, words};

use crate::characters::characters;
use pj_base::NoMemory;
use pj_xvalue::{Sequence, XFault, optional_string_argument, string_singleton};
use std::alloc::Global;

/// `normalize-space` of an argument.
pub(crate) fn normalize_space<'t>(
    alloc: Global,
    text: &Sequence<'_>,
) -> Result<Sequence<'t>, XFault>
    ensures { IsGiven (normalize_space_of (values_of text.now)) (outcome values_of result) }
{
    let whole = optional_string_argument(text)?;
    let all = characters(alloc, whole)?;
    let words = words_joined(alloc, &all)?;
    Ok(string_singleton(alloc, words)?)
}

/// The words of the text with one space between each two.
fn words_joined(alloc: Global, characters: &[char]) -> Result<String, NoMemory>
    ensures { IfOk result (λ joined. string_bytes joined ≡ encode_utf8_all (join_with_byte 32 (words characters.now))) }
{
    let mut joined = String::new(alloc);
    let mut state = Between::Start;
    let mut rest = characters;
    'content: while let [c, behind @ ..] = rest {
        if is_space(*c) {
            state = state.behind_space();
        } else {
            if matches!(state, Between::Spaces) {
                joined.push(' ')?;
            }
            joined.push(*c)?;
            state = Between::Word;
        }
        rest = behind;
    }
    Ok(joined)
}

/// What the last character was.
#[derive(Clone, Copy, Debug)]
enum Between {
    /// No word was yet.
    Start,
    /// A character of a word.
    Word,
    /// White space behind a word.
    Spaces,
}

impl Between {
    /// What it is behind white space.
    fn behind_space(self) -> Between
        ensures { result ≡ behind_space self }
    {
        match self {
            Between::Start => Between::Start,
            Between::Word => Between::Spaces,
            Between::Spaces => Between::Spaces,
        }
    }
}

/// Whether a character is white space (XML 1.0, 2.3).
fn is_space(c: char) -> bool
    ensures { result ≡ is_space_of c }
{
    c == ' ' || c == '\t' || c == '\n' || c == '\r'
}
