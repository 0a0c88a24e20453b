//! Characters of names and white space.

ghost use Rattle.std.specs.Prelude.{◌≡◌};
ghost use Rattle.pj_lex.specs.Characters.{starts_name, continues_name, is_white};

/// Whether a name can begin with the character (JLS 3.8).
pub fn starts_name(c: char) -> bool
    ensures { result ≡ starts_name c }
{
    unicode_ident::is_xid_start(c) | (c == '_') | (c == '$')
}

/// Whether the character can stand further on in a name (JLS 3.8).
pub fn continues_name(c: char) -> bool
    ensures { result ≡ continues_name c }
{
    unicode_ident::is_xid_continue(c) | (c == '_') | (c == '$')
}

/// Whether the character is white space or ends a line (JLS 3.4 and 3.6).
pub fn is_white(c: char) -> bool
    ensures { result ≡ is_white c }
{
    matches!(c, ' ' | '\t' | '\x0c' | '\n' | '\r')
}
