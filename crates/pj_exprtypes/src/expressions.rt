//! Expressions by the types of their operands.

ghost use Rattle.std.specs.Prelude.{◌≡◌, ◌<◌, length, IfOk};
ghost use Rattle.pj_names.specs.JavaType.{java_type, type_list};
ghost use Rattle.pj_names.specs.Told.{Asks, seen};
ghost use Rattle.pj_tree.specs.Tree.{kind_of};
ghost use Rattle.pj_exprtypes.specs.Expressions as expressions;
ghost use Rattle.pj_exprtypes.specs.Seen.{seen_pair};

use pj_base::NoMemory;
use pj_leaf_types::leaf_type;
use pj_names::{AskFault, Oracle, Prim, Ty, TyList};
use pj_operators::{Infix, Unary, conditional_type, infix_of, infix_type, unary_of, unary_type};
use pj_outer_names::File;
use pj_receivers::{element_of, field_of};
use pj_tree::{Kind, Node, last_word};
use pj_types::promoted;
use std::alloc::Global;

/// The type of just one operand; of another number of them none is known.
pub fn only(types: TyList) -> Ty
    ensures { java_type result ≡ expressions.only (type_list types) }
{
    let mut types = types;
    match types.pop() {
        Some(ty) => { if types.is_empty() { ty } else { Ty::Unknown } }
        None => Ty::Unknown,
    }
}

/// The types of just two operands, the left one first.
fn pair_of(types: TyList) -> Option<(Ty, Ty)>
    ensures { seen_pair result ≡ expressions.pair_of (type_list types) }
{
    let mut types = types;
    let right = types.pop()?;
    let left = types.pop()?;
    if types.is_empty() {
        Some((left, right))
    } else {
        None
    }
}

/// What an operator makes of two operands.
fn both_with(alloc: Global, operator: Infix, types: TyList) -> Result<Ty, NoMemory>
    ensures { IfOk result (λ ty. java_type ty ≡ expressions.both_with operator (expressions.pair_of (type_list types))) }
{
    match pair_of(types) {
        Some((left, right)) => infix_type(alloc, operator, &left, &right),
        None => Ok(Ty::Unknown),
    }
}

/// The type of an infix expression by its operator (JLS 15.17 to 15.24).
fn infix_with(alloc: Global, operator: Option<Infix>, types: TyList) -> Result<Ty, NoMemory>
    ensures { IfOk result (λ ty. java_type ty ≡ expressions.infix_with operator (type_list types)) }
{
    match operator {
        None => Ok(Ty::Unknown),
        Some(Infix::Test) => Ok(Ty::Prim(Prim::Boolean)),
        Some(Infix::Shift) => Ok(promoted(&only(types))),
        Some(Infix::Sum) => both_with(alloc, Infix::Sum, types),
        Some(Infix::Bitwise) => both_with(alloc, Infix::Bitwise, types),
        Some(Infix::Arithmetic) => both_with(alloc, Infix::Arithmetic, types),
    }
}

/// The type of a unary expression by its operator (JLS 15.14, 15.15).
fn unary_with(operator: Option<Unary>, types: TyList) -> Ty
    ensures { java_type result ≡ expressions.unary_with operator (type_list types) }
{
    match operator {
        None => Ty::Unknown,
        Some(operator) => unary_type(operator, only(types)),
    }
}

/// The type of a conditional expression (JLS 15.25).
#[tactic(auto, using(pj_names::proofs::AskingLaws::asking_steps))]
fn branches_with<O: Oracle>(alloc: Global, oracle: &mut O, types: TyList) -> Result<Ty, AskFault>
    ensures { Asks (expressions.branches_with (expressions.pair_of (type_list types))) (O.tells oracle.old) (O.tells oracle.new) (seen java_type result) }
{
    match pair_of(types) {
        Some((second, third)) => conditional_type(alloc, oracle, second, third),
        None => Ok(Ty::Unknown),
    }
}

/// The type of a node by the types of its operands: of an expression that has some, and else that which is told by itself.
#[tactic(auto, using(pj_names::proofs::AskingLaws::asking_steps))]
pub fn expression_with<O: Oracle>(
    alloc: Global,
    file: &File<'_>,
    oracle: &mut O,
    n: Node,
    types: TyList,
) -> Result<Ty, AskFault>
    requires inside { n.0 < length file.now.nodes }
    ensures { Asks (expressions.expression_with file.now n (kind_of file.now n) (type_list types)) (O.tells oracle.old) (O.tells oracle.new) (seen java_type result) }
{
    match file.tree().kind(n) {
        Kind::FieldAccess => {
            field_of(alloc, file, oracle, last_word(file.tree(), n), &only(types))
        }
        Kind::InfixExpression => Ok(infix_with(alloc, infix_of(file.tree(), n), types)?),
        Kind::UnaryExpression => Ok(unary_with(unary_of(file.tree(), n), types)),
        Kind::AssignmentExpression => Ok(only(types)),
        Kind::ConditionalExpression => branches_with(alloc, oracle, types),
        Kind::ArrayAccess => Ok(element_of(&only(types))?),
        _ => leaf_type(alloc, file, oracle, n),
    }
}
