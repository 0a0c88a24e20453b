//! Characters of names and white space, and the sets of characters that the grammar of tokens names.

ghost use Rattle.std.specs.Prelude.{◌≡◌};
ghost use Rattle.pj_xtokens.specs.Characters.{starts_name, continues_name, is_white};

/// A set of characters that the grammar of tokens names: its patterns are written over these.
pub enum CharSet {
    /// The ASCII character with this code: beyond ASCII the grammar names no single character.
    The(u32),
    /// The characters with which a name begins.
    NameStart,
    /// The characters with which a name goes on.
    NameCharacter,
    /// `0` to `9`
    Digit,
    /// `e` and `E`
    ExponentMark,
    /// `+` and `-`
    PlusOrMinus,
    /// Any character but `"`.
    NotQuote,
    /// Any character but `'`.
    NotApostrophe,
}

/// Whether a name can begin with the character (XML 1.0, 2.3).
pub fn starts_name(c: char) -> bool
    ensures { result ≡ starts_name c }
{
    matches!(
        c,
        'A'..='Z'
            | '_'
            | 'a'..='z'
            | '\u{C0}'..='\u{D6}'
            | '\u{D8}'..='\u{F6}'
            | '\u{F8}'..='\u{2FF}'
            | '\u{370}'..='\u{37D}'
            | '\u{37F}'..='\u{1FFF}'
            | '\u{200C}'..='\u{200D}'
            | '\u{2070}'..='\u{218F}'
            | '\u{2C00}'..='\u{2FEF}'
            | '\u{3001}'..='\u{D7FF}'
            | '\u{F900}'..='\u{FDCF}'
            | '\u{FDF0}'..='\u{FFFD}'
            | '\u{10000}'..='\u{EFFFF}'
    )
}

/// Whether a name can go on with the character (XML 1.0, 2.3).
pub fn continues_name(c: char) -> bool
    ensures { result ≡ continues_name c }
{
    starts_name(c)
        || matches!(
            c,
            '-' | '.' | '0'..='9' | '\u{B7}' | '\u{300}'..='\u{36F}' | '\u{203F}'..='\u{2040}'
        )
}

/// Whether the character is white space (XML 1.0, 2.3).
pub fn is_white(c: char) -> bool
    ensures { result ≡ is_white c }
{
    matches!(c, ' ' | '\t' | '\n' | '\r')
}
