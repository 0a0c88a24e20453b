//! Operators, and what they make of the types of their operands.

ghost use Rattle.std.specs.Prelude.{◌≡◌, ◌<◌, ◌≤◌, [], IfOk, length, filter};
ghost use Rattle.pj_names.specs.JavaType.{java_type};
ghost use Rattle.pj_tree.specs.Words.{last_of};
ghost use Rattle.pj_operators.specs.Operators.{bitwise_type, infix_by, infix_of, is_boolean, is_sign, infix_type, is_string, sum_type, unary_by, unary_of, unary_type};

use crate::literals::string_type;
use pj_base::{NoMemory, value_in};
use pj_names::{Prim, Ty};
use pj_tree::{Kind, Node, OwnTokens, SyntaxTree, is_kind};
use pj_types::{as_primitive, promoted, promoted_both};
use std::alloc::Global;

/// What an infix operator makes of the types of its operands (JLS 15.17 to 15.24).
#[derive(Clone, Copy, Debug, PartialEq, Eq)]
pub enum Infix {
    /// `boolean`, whatever they are: comparisons, `instanceof`, `&&` and `||`.
    Test,
    /// The promoted type of the left one: `<<`, `>>` and `>>>`.
    Shift,
    /// A String, or the promoted type of both: `+`.
    Sum,
    /// `boolean`, or the promoted type of both: `&`, `^` and `|`.
    Bitwise,
    /// The promoted type of both: `-`, `*`, `/` and `%`.
    Arithmetic,
}

/// What a unary operator makes of the type of its operand (JLS 15.14, 15.15).
#[derive(Clone, Copy, Debug, PartialEq, Eq)]
pub enum Unary {
    /// `boolean`, whatever it is: `!`.
    Not,
    /// The type as it is: `++` and `--`, before the operand and behind it.
    Step,
    /// The promoted type: `+`, `-` and `~`.
    Sign,
}

/// The infix operators of one token.
static INFIX: [(&str, Infix); 17] = [
    ("==", Infix::Test),
    ("!=", Infix::Test),
    ("<", Infix::Test),
    (">", Infix::Test),
    ("<=", Infix::Test),
    ("instanceof", Infix::Test),
    ("&&", Infix::Test),
    ("||", Infix::Test),
    ("<<", Infix::Shift),
    ("+", Infix::Sum),
    ("-", Infix::Arithmetic),
    ("*", Infix::Arithmetic),
    ("/", Infix::Arithmetic),
    ("%", Infix::Arithmetic),
    ("&", Infix::Bitwise),
    ("|", Infix::Bitwise),
    ("^", Infix::Bitwise),
];

/// The unary operators.
static UNARY: [(&str, Unary); 6] = [
    ("!", Unary::Not),
    ("++", Unary::Step),
    ("--", Unary::Step),
    ("+", Unary::Sign),
    ("-", Unary::Sign),
    ("~", Unary::Sign),
];

/// Whether a word is no parenthesis.
fn is_sign(word: &str) -> bool
    ensures { result ≡ is_sign word.now }
{
    !(word == "(" || word == ")")
}

/// How many of the words are no parentheses.
fn sign_count(words: OwnTokens<'_>) -> u32
    requires few { length words ≤ 4294967294 }
    ensures { result ≡ length (filter is_sign words.entry) }
{
    let mut count = 0;
    for word in words {
        if is_sign(word) {
            count += 1;
        }
    }
    count
}

/// The last of the words that is no parenthesis, and the empty text where there is none.
fn last_sign<'t>(words: OwnTokens<'t>) -> &'t str
    ensures { result.now ≡ last_of [] (filter is_sign words.entry) }
{
    let mut last = "";
    for word in words {
        if is_sign(word) {
            last = word;
        }
    }
    last
}

/// The infix operator of so many tokens with this last one.
fn infix_by(count: u32, last: &str) -> Option<Infix>
    ensures { result ≡ infix_by count last.now }
{
    if count == 1 {
        value_in(&INFIX, last)
    } else if count == 2 && last == "=" {
        Some(Infix::Test)
    } else if (count == 2 || count == 3) && last == ">" {
        Some(Infix::Shift)
    } else {
        None
    }
}

/// The operator of an infix expression (JLS 15.17 to 15.24). It is `None` for a node of another kind, and where the words of the node but its parentheses are no
/// infix operator.
pub fn infix_of(tree: &SyntaxTree<'_>, n: Node) -> Option<Infix>
    requires inside { n.0 < length tree.now.nodes }
    ensures { result ≡ infix_of tree.now n }
{
    if is_kind(tree, Kind::InfixExpression, n) {
        infix_by(sign_count(tree.own(n)), last_sign(tree.own(n)))
    } else {
        None
    }
}

/// The unary operator of so many tokens with this last one.
fn unary_by(count: u32, last: &str) -> Option<Unary>
    ensures { result ≡ unary_by count last.now }
{
    if count == 1 {
        value_in(&UNARY, last)
    } else {
        None
    }
}

/// The operator of a unary expression (JLS 15.14, 15.15). It is `None` for a node of another kind, and where the words of the node but its parentheses are no
/// unary operator.
pub fn unary_of(tree: &SyntaxTree<'_>, n: Node) -> Option<Unary>
    requires inside { n.0 < length tree.now.nodes }
    ensures { result ≡ unary_of tree.now n }
{
    if is_kind(tree, Kind::UnaryExpression, n) {
        unary_by(sign_count(tree.own(n)), last_sign(tree.own(n)))
    } else {
        None
    }
}

/// Whether a type is the class `java.lang.String`.
fn is_string(ty: &Ty) -> bool
    ensures { result ≡ is_string (java_type ty.now) }
{
    match ty {
        Ty::Class(name, _) => name.as_str() == "java.lang.String",
        _ => false,
    }
}

/// Whether a type is `boolean`, or is unboxed to it.
fn is_boolean(ty: &Ty) -> bool
    ensures { result ≡ is_boolean (java_type ty.now) }
{
    match as_primitive(ty) {
        Some(prim) => prim == Prim::Boolean,
        None => false,
    }
}

/// The type of a sum (JLS 15.18).
fn sum_type(alloc: Global, first: &Ty, second: &Ty) -> Result<Ty, NoMemory>
    ensures { IfOk result (λ ty. java_type ty ≡ sum_type (java_type first.now) (java_type second.now)) }
{
    if is_string(first) || is_string(second) {
        string_type(alloc)
    } else {
        Ok(promoted_both(first, second))
    }
}

/// The type of `&`, `^` and `|` (JLS 15.22).
fn bitwise_type(first: &Ty, second: &Ty) -> Ty
    ensures { java_type result ≡ bitwise_type (java_type first.now) (java_type second.now) }
{
    if is_boolean(first) && is_boolean(second) {
        Ty::Prim(Prim::Boolean)
    } else {
        promoted_both(first, second)
    }
}

/// What an infix operator makes of the types of its operands (JLS 15.17 to 15.24).
pub fn infix_type(alloc: Global, operator: Infix, left: &Ty, right: &Ty) -> Result<Ty, NoMemory>
    ensures { IfOk result (λ ty. java_type ty ≡ infix_type operator (java_type left.now) (java_type right.now)) }
{
    match operator {
        Infix::Test => Ok(Ty::Prim(Prim::Boolean)),
        Infix::Shift => Ok(promoted(left)),
        Infix::Sum => sum_type(alloc, left, right),
        Infix::Bitwise => Ok(bitwise_type(left, right)),
        Infix::Arithmetic => Ok(promoted_both(left, right)),
    }
}

/// What a unary operator makes of the type of its operand (JLS 15.14, 15.15).
pub fn unary_type(operator: Unary, operand: Ty) -> Ty
    ensures { java_type result ≡ unary_type operator (java_type operand) }
{
    match operator {
        Unary::Not => Ty::Prim(Prim::Boolean),
        Unary::Step => operand,
        Unary::Sign => promoted(&operand),
    }
}
