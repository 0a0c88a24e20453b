//! Names of types.
ghost use Rattle.std.specs.Prelude.{◌≡◌, nat_eq};
ghost use Rattle.std.specs.Cmp.Lexicographic.{pointwise};
ghost use Rattle.pj_names.specs.JavaType.{Class, NoMore, java_type};
ghost use Rattle.pj_type_tests.specs.Names.{canonical, has_name, is_class_called, with_dot, word_of};

use pj_names::{ClassName, Prim, Ty};
use pj_signature_patterns::component_of;

/// The word of a primitive type (JLS 4.2).
fn word_of(prim: Prim) -> &'static str
    ensures { result.now ≡ word_of prim }
{
    match prim {
        Prim::Boolean => "boolean",
        Prim::Byte => "byte",
        Prim::Short => "short",
        Prim::Int => "int",
        Prim::Long => "long",
        Prim::Char => "char",
        Prim::Float => "float",
        Prim::Double => "double",
    }
}

/// A dot in place of `$`.
fn with_dot(byte: u8) -> u8
    ensures { result ≡ with_dot byte }
{
    if byte == b'$' { b'.' } else { byte }
}

/// Whether some bytes are those of a class's canonical name.
fn is_canonical(name: &[u8], text: &[u8]) -> bool
    ensures { result ≡ pointwise nat_eq (canonical name.now) text.now }
{
    let mut ours = name;
    let mut theirs = text;
    'bytes: loop {
        match (ours, theirs) {
            ([our, our_rest @ ..], [their, their_rest @ ..]) => {
                if with_dot(*our) != *their {
                    return false;
                }
                ours = our_rest;
                theirs = their_rest;
            }
            ([], []) => return true,
            _ => return false,
        }
    }
}

/// Whether a text is the binary or the canonical name of a class.
#[tactic(auto, using(crate::proofs::NameLaws::two))]
pub(crate) fn is_name_of(name: &ClassName, text: &str) -> bool
    ensures { result ≡ has_name text.now (Class name.now NoMore) }
{
    let name = name.as_str();
    name == text || is_canonical(name.as_bytes(), text.as_bytes())
}

/// Whether a text is one of the names of a type.
///
/// A class has its binary name (JLS 13.1), and that with a dot in place of each `$`, which is its canonical name (JLS 6.7). A primitive type has its word, and an array the
/// names of its component type with `[]` behind. A type variable has the names of its erasure (JLS 4.6). `void`, the type of `null` and a type that is not known have none.
#[tactic(auto, using(crate::proofs::NameLaws::alone, crate::proofs::NameLaws::array_some, crate::proofs::NameLaws::array_none))]
pub fn has_name(ty: &Ty, text: &str) -> bool
    ensures { result ≡ has_name text.now (java_type ty.now) }
{
    match ty {
        Ty::Prim(prim) => word_of(*prim) == text,
        Ty::Class(name, _) => is_name_of(name, text),
        Ty::Array(component) => match component_of(text) {
            Some(inner) => has_name(component, inner),
            None => false,
        },
        Ty::Var(_, bound) => has_name(bound, text),
        _ => false,
    }
}

/// Whether a type is a class of which a text is the binary or the canonical name.
pub fn is_class_called(ty: &Ty, text: &str) -> bool
    ensures { result ≡ is_class_called text.now (java_type ty.now) }
{
    match ty {
        Ty::Class(name, _) => is_name_of(name, text),
        _ => false,
    }
}
