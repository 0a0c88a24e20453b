//! The words that have a meaning in the grammar.

ghost use Rattle.std.specs.Prelude.{◌≡◌};
ghost use Rattle.std.specs.Str.{chars};
ghost use Rattle.pj_xgrammar.specs.Words.{word_of};

use pj_base::value_in;

/// A word that is a terminal of its own whatever stands behind it (XPath 2.0, A.2.2), and the names of the axes, which are
/// one. Where the grammar wants a name, each of them is one.
#[derive(Clone, Copy, PartialEq, Eq)]
pub enum Keyword {
    /// `and`
    And,
    /// `div`
    Div,
    /// `else`
    Else,
    /// `eq`
    Eq,
    /// `except`
    Except,
    /// `ge`
    Ge,
    /// `gt`
    Gt,
    /// `idiv`
    Idiv,
    /// `in`
    In,
    /// `intersect`
    Intersect,
    /// `is`
    Is,
    /// `le`
    Le,
    /// `lt`
    Lt,
    /// `mod`
    Mod,
    /// `ne`
    Ne,
    /// `or`
    Or,
    /// `return`
    Return,
    /// `satisfies`
    Satisfies,
    /// `then`
    Then,
    /// `to`
    To,
    /// `union`
    Union,
    /// the name of an axis (XPath 2.0, 3.2.1.1)
    Axis,
    /// `element`
    Element,
    /// `node`
    Node,
}

/// A word that is a terminal of its own before a certain token alone, and a plain name before every other.
#[derive(Clone, Copy, PartialEq, Eq)]
pub enum Phrase {
    /// `array` before `{`
    Array,
    /// `castable` before `as`
    CastableAs,
    /// `cast` before `as`
    CastAs,
    /// `every` before `$`
    Every,
    /// `for` before `$`
    For,
    /// `function` before `(`
    Function,
    /// `if` before `(`
    If,
    /// `instance` before `of`
    InstanceOf,
    /// `let` before `$`
    Let,
    /// `map` before `{`
    Map,
    /// `some` before `$`
    Some,
    /// `treat` before `as`
    TreatAs,
}

/// What a name is for the grammar, where it is no plain name.
#[derive(Clone, Copy, PartialEq, Eq)]
pub enum Word {
    /// A word with a meaning whatever stands behind it.
    Keyword(Keyword),
    /// A word with a meaning before a certain token.
    Phrase(Phrase),
}

/// The words that have a meaning, by their texts.
static WORDS: [(&str, Word); 47] = [
    ("ancestor", Word::Keyword(Keyword::Axis)),
    ("ancestor-or-self", Word::Keyword(Keyword::Axis)),
    ("and", Word::Keyword(Keyword::And)),
    ("array", Word::Phrase(Phrase::Array)),
    ("attribute", Word::Keyword(Keyword::Axis)),
    ("cast", Word::Phrase(Phrase::CastAs)),
    ("castable", Word::Phrase(Phrase::CastableAs)),
    ("child", Word::Keyword(Keyword::Axis)),
    ("descendant", Word::Keyword(Keyword::Axis)),
    ("descendant-or-self", Word::Keyword(Keyword::Axis)),
    ("div", Word::Keyword(Keyword::Div)),
    ("element", Word::Keyword(Keyword::Element)),
    ("else", Word::Keyword(Keyword::Else)),
    ("eq", Word::Keyword(Keyword::Eq)),
    ("every", Word::Phrase(Phrase::Every)),
    ("except", Word::Keyword(Keyword::Except)),
    ("following", Word::Keyword(Keyword::Axis)),
    ("following-sibling", Word::Keyword(Keyword::Axis)),
    ("for", Word::Phrase(Phrase::For)),
    ("function", Word::Phrase(Phrase::Function)),
    ("ge", Word::Keyword(Keyword::Ge)),
    ("gt", Word::Keyword(Keyword::Gt)),
    ("idiv", Word::Keyword(Keyword::Idiv)),
    ("if", Word::Phrase(Phrase::If)),
    ("in", Word::Keyword(Keyword::In)),
    ("instance", Word::Phrase(Phrase::InstanceOf)),
    ("intersect", Word::Keyword(Keyword::Intersect)),
    ("is", Word::Keyword(Keyword::Is)),
    ("le", Word::Keyword(Keyword::Le)),
    ("let", Word::Phrase(Phrase::Let)),
    ("lt", Word::Keyword(Keyword::Lt)),
    ("map", Word::Phrase(Phrase::Map)),
    ("mod", Word::Keyword(Keyword::Mod)),
    ("ne", Word::Keyword(Keyword::Ne)),
    ("node", Word::Keyword(Keyword::Node)),
    ("or", Word::Keyword(Keyword::Or)),
    ("parent", Word::Keyword(Keyword::Axis)),
    ("preceding", Word::Keyword(Keyword::Axis)),
    ("preceding-sibling", Word::Keyword(Keyword::Axis)),
    ("return", Word::Keyword(Keyword::Return)),
    ("satisfies", Word::Keyword(Keyword::Satisfies)),
    ("self", Word::Keyword(Keyword::Axis)),
    ("some", Word::Phrase(Phrase::Some)),
    ("then", Word::Keyword(Keyword::Then)),
    ("to", Word::Keyword(Keyword::To)),
    ("treat", Word::Phrase(Phrase::TreatAs)),
    ("union", Word::Keyword(Keyword::Union)),
];

/// The word of a name.
pub fn word_of(name: &str) -> Option<Word>
    ensures { result ≡ word_of (chars name.now) }
{
    value_in(&WORDS, name)
}
