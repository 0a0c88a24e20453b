//! Types that need no look-up (JLS 4.2, 4.5.1, 10.1).

ghost use Rattle.std.specs.Prelude.{◌≡◌, ◌<◌, IfOk, length, map};
ghost use Rattle.pj_names.specs.JavaType.{java_type, java_types, type_list};
ghost use Rattle.pj_tree.specs.Words.{words_of};
ghost use Rattle.pj_signatures.specs.Types.{arguments_of};
ghost use Rattle.pj_written.specs.Types.{arrays, as_argument, class_of_text, object_type, primitive_of, primitive_word};

use pj_base::NoMemory;
use pj_names::{ClassName, Prim, Ty, TyList, Types};
use pj_tree::{Node, OwnTokens, SyntaxTree};
use std::alloc::Global;

/// The primitive type of a word (JLS 4.2); any other word is no known type.
fn primitive_word(word: &str) -> Ty
    ensures { java_type result ≡ primitive_word word.now }
{
    match word {
        "boolean" => Ty::Prim(Prim::Boolean),
        "byte" => Ty::Prim(Prim::Byte),
        "short" => Ty::Prim(Prim::Short),
        "int" => Ty::Prim(Prim::Int),
        "long" => Ty::Prim(Prim::Long),
        "char" => Ty::Prim(Prim::Char),
        "float" => Ty::Prim(Prim::Float),
        "double" => Ty::Prim(Prim::Double),
        _ => Ty::Unknown,
    }
}

/// The primitive type of the first word.
fn primitive_in(words: OwnTokens<'_>) -> Ty
    ensures { java_type result ≡ primitive_of words.entry }
{
    let mut words = words;
    match words.next() {
        Some(word) => primitive_word(word),
        None => Ty::Unknown,
    }
}

/// The primitive type that a node writes.
pub fn primitive_of(tree: &SyntaxTree<'_>, n: Node) -> Ty
    requires inside { n.0 < length tree.now.nodes }
    ensures { java_type result ≡ primitive_of (words_of tree.now n) }
{
    primitive_in(tree.own(n))
}

/// The class of a text, without arguments; a text that is no name of a class is not known.
pub fn class_of_text(alloc: Global, text: &str) -> Result<Ty, NoMemory>
    ensures { IfOk result (λ ty. java_type ty ≡ class_of_text text.now) }
{
    match ClassName::of(alloc, text)? {
        Some(name) => Ok(Ty::Class(name, Types::End)),
        None => Ok(Ty::Unknown),
    }
}

/// `java.lang.Object`.
pub fn object_type(alloc: Global) -> Result<Ty, NoMemory>
    ensures { IfOk result (λ ty. java_type ty ≡ object_type) }
{
    class_of_text(alloc, "java.lang.Object")
}

/// Arrays of so many dimensions (JLS 10.1).
pub fn arrays(alloc: Global, dimensions: u32, member: Ty) -> Result<Ty, NoMemory>
    ensures { IfOk result (λ ty. java_type ty ≡ arrays dimensions (java_type member)) }
{
    let mut ty = member;
    for _dimension in 0..dimensions {
        ty = Ty::Array(Box::new(alloc, ty)?);
    }
    Ok(ty)
}

/// What stands as an argument: a primitive type is none (JLS 4.5.1).
fn as_argument(ty: Ty) -> Ty
    ensures { java_type result ≡ as_argument (java_type ty) }
{
    match ty {
        Ty::Prim(_) => Ty::Unknown,
        other => other,
    }
}

/// Types as type arguments, in their order.
#[tactic(auto, using(crate::proofs::Steps::argument_steps))]
pub fn arguments_of(alloc: Global, types: TyList) -> Result<Types, NoMemory>
    ensures { IfOk result (λ arguments. java_types arguments ≡ arguments_of (map as_argument (type_list types))) }
{
    let mut left = types;
    let mut arguments = Types::End;
    while let Some(ty) = left.pop() {
        let first = as_argument(ty);
        arguments = Types::More(Box::new(alloc, first)?, Box::new(alloc, arguments)?);
    }
    Ok(arguments)
}
