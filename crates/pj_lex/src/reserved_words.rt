//! The kind of a name.

ghost use Rattle.std.specs.Prelude.{◌≡◌};
ghost use Rattle.std.specs.Str.{chars};
ghost use Rattle.pj_lex.specs.Words.{name_kind};

use crate::token::TokenKind;
use pj_base::value_in;

/// The reserved words (JLS 3.9, 3.10.3 and 3.10.8), by their texts.
static RESERVED_WORDS: [(&str, TokenKind); 54] = [
    ("abstract", TokenKind::Abstract),
    ("assert", TokenKind::Assert),
    ("boolean", TokenKind::Boolean),
    ("break", TokenKind::Break),
    ("byte", TokenKind::Byte),
    ("case", TokenKind::Case),
    ("catch", TokenKind::Catch),
    ("char", TokenKind::Char),
    ("class", TokenKind::Class),
    ("const", TokenKind::Const),
    ("continue", TokenKind::Continue),
    ("default", TokenKind::Default),
    ("do", TokenKind::Do),
    ("double", TokenKind::Double),
    ("else", TokenKind::Else),
    ("enum", TokenKind::Enum),
    ("extends", TokenKind::Extends),
    ("final", TokenKind::Final),
    ("finally", TokenKind::Finally),
    ("float", TokenKind::Float),
    ("for", TokenKind::For),
    ("goto", TokenKind::Goto),
    ("if", TokenKind::If),
    ("implements", TokenKind::Implements),
    ("import", TokenKind::Import),
    ("instanceof", TokenKind::Instanceof),
    ("int", TokenKind::Int),
    ("interface", TokenKind::Interface),
    ("long", TokenKind::Long),
    ("native", TokenKind::Native),
    ("new", TokenKind::New),
    ("package", TokenKind::Package),
    ("private", TokenKind::Private),
    ("protected", TokenKind::Protected),
    ("public", TokenKind::Public),
    ("return", TokenKind::Return),
    ("short", TokenKind::Short),
    ("static", TokenKind::Static),
    ("strictfp", TokenKind::Strictfp),
    ("super", TokenKind::Super),
    ("switch", TokenKind::Switch),
    ("synchronized", TokenKind::Synchronized),
    ("this", TokenKind::This),
    ("throw", TokenKind::Throw),
    ("throws", TokenKind::Throws),
    ("transient", TokenKind::Transient),
    ("try", TokenKind::Try),
    ("void", TokenKind::Void),
    ("volatile", TokenKind::Volatile),
    ("while", TokenKind::While),
    ("_", TokenKind::Underscore),
    ("true", TokenKind::True),
    ("false", TokenKind::False),
    ("null", TokenKind::Null),
];

/// The kind of a name: that of a reserved word, or an identifier.
pub fn name_kind(word: &str) -> TokenKind
    ensures { result ≡ name_kind (chars word.now) }
{
    match value_in(&RESERVED_WORDS, word) {
        Some(kind) => kind,
        None => TokenKind::Identifier,
    }
}
