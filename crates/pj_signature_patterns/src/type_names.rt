//! Names of types, as rules write them.
ghost use Rattle.std.specs.Prelude.{◌≡◌, ◌<◌, IfSome, length};
ghost use Rattle.std.specs.List.{list_all, slice_split};
ghost use Rattle.pj_signature_patterns.specs.Cuts.{seen_text};
ghost use Rattle.pj_signature_patterns.specs.Identifiers.{is_identifier, is_word_of};
ghost use Rattle.pj_signature_patterns.specs.TypeNames.{component_of, element_of, is_qualified, is_type_name, primitive_words};

use crate::cuts::{before_last, cut};
use crate::identifiers::{is_identifier, is_word_of};

/// The words of the primitive types (JLS 4.2).
static PRIMITIVE_WORDS: [&str; 8] = [
    "boolean", "byte", "short", "int", "long", "char", "float", "double",
];

/// Whether a text is the word of a primitive type.
#[tactic(auto, unfolding(crate::specs::TypeNames::primitive_words))]
fn is_primitive_word(text: &str) -> bool
    ensures { result ≡ is_word_of primitive_words text.now }
{
    is_word_of(&PRIMITIVE_WORDS, text)
}

/// Whether a text is identifiers with dots between them (JLS 6.7).
#[tactic(auto, using(crate::proofs::Cutting::split_cut, crate::proofs::Cutting::split_whole))]
fn is_qualified(text: &str) -> bool
    ensures { result ≡ is_qualified text.now }
{
    let mut left = text;
    while let Some((part, rest)) = cut(left, '.') {
        if !is_identifier(part) {
            return false;
        }
        left = rest;
    }
    is_identifier(left)
}

/// What stands before a pair of brackets at the end of a name: the name of the component type of an array (JLS 10.1). `None` where none
/// stands there.
pub fn component_of(text: &str) -> Option<&str>
    ensures value { seen_text result ≡ component_of text.now }
    ensures shorter { IfSome result (λ component. length component.now < length text.now) }
{
    match before_last(text, ']') {
        Some(inside) => before_last(inside, '['),
        None => None,
    }
}

/// A name without the pairs of brackets at its end.
#[tactic(auto, using(crate::proofs::ArrayNames::element_within, crate::proofs::ArrayNames::element_whole))]
fn element_of(text: &str) -> &str
    ensures { result.now ≡ element_of text.now }
{
    let mut rest = text;
    while let Some(component) = component_of(rest) {
        rest = component;
    }
    rest
}

/// Whether a text is a name of a type: identifiers joined by dots, or the word of a primitive type, with any number of pairs of
/// brackets behind. `$` is a part of identifiers, so binary names (JLS 13.1) are names too.
pub fn is_type_name(text: &str) -> bool
    ensures { result ≡ is_type_name text.now }
{
    let element = element_of(text);
    is_primitive_word(element) || is_qualified(element)
}
