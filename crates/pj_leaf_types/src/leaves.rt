//! Types of nodes that are told without the types of others.

ghost use Rattle.std.specs.Prelude.{◌≡◌, ◌<◌, length};
ghost use Rattle.pj_names.specs.JavaType.{java_type};
ghost use Rattle.pj_names.specs.Told.{Asks, seen};
ghost use Rattle.pj_tree.specs.Tree.{kind_of};
ghost use Rattle.pj_leaf_types.specs.Leaves.{leaf_by};

use crate::classes::{declared_class, super_type, this_type};
use crate::written::{cast, created, literal_of, written};
use pj_names::{AskFault, Oracle, Prim, Ty};
use pj_operators::{number_type, string_type};
use pj_outer_names::File;
use pj_tree::{Kind, Node, first_word};
use std::alloc::Global;

/// The type of a literal, of `this` and `super`, of a type that is written and of a class that is declared; every other node has none that is known.
#[tactic(auto, using(pj_names::proofs::AskingLaws::asking_steps))]
pub fn leaf_type<O: Oracle>(
    alloc: Global,
    file: &File<'_>,
    oracle: &mut O,
    n: Node,
) -> Result<Ty, AskFault>
    requires inside { n.0 < length file.now.nodes }
    ensures { Asks (leaf_by file.now n (kind_of file.now n)) (O.tells oracle.old) (O.tells oracle.new) (seen java_type result) }
{
    match file.tree().kind(n) {
        Kind::NumericLiteral => Ok(Ty::Prim(number_type(first_word(file.tree(), n)))),
        Kind::StringLiteral => {
            let ty = string_type(alloc)?;
            Ok(ty)
        }
        Kind::CharLiteral => Ok(Ty::Prim(Prim::Char)),
        Kind::BooleanLiteral => Ok(Ty::Prim(Prim::Boolean)),
        Kind::NullLiteral => Ok(Ty::Null),
        Kind::ClassLiteral => literal_of(alloc, file, oracle, n),
        Kind::ThisExpression => this_type(alloc, file, oracle, n),
        Kind::SuperExpression => super_type(alloc, file, oracle, n),
        Kind::CastExpression => cast(alloc, file, oracle, n),
        Kind::ArrayAllocation | Kind::TypeExpression => written(alloc, file, oracle, n),
        Kind::ConstructorCall => created(alloc, file, oracle, n),
        Kind::ClassDeclaration
        | Kind::EnumDeclaration
        | Kind::RecordDeclaration
        | Kind::AnnotationTypeDeclaration
        | Kind::AnonymousClassDeclaration => {
            let ty = declared_class(alloc, file, n)?;
            Ok(ty)
        }
        _ => Ok(Ty::Unknown),
    }
}
