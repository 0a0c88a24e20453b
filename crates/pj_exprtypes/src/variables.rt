//! Variables by their declarations, and the names that mean them.

ghost use Rattle.std.specs.Prelude.{◌≡◌, ◌<◌, ℕ, Some, length, IfOk, IfSome};
ghost use Rattle.pj_names.specs.JavaType.{java_type, type_list};
ghost use Rattle.pj_names.specs.Told.{Asks, seen};
ghost use Rattle.pj_scopes.specs.Seen.{IsInside, seen_variable};
ghost use Rattle.pj_tree.specs.Tree.{kind_of};
ghost use Rattle.pj_calls.specs.Seen.{seen_candidates};
ghost use Rattle.pj_signatures.specs.Seen.{seen_option};
ghost use Rattle.pj_exprtypes.specs.Calls as calls;
ghost use Rattle.pj_exprtypes.specs.Declarations as declarations;
ghost use Rattle.pj_exprtypes.specs.Expressions.{expression_with};
ghost use Rattle.pj_exprtypes.specs.Names as names;
ghost use Rattle.pj_exprtypes.specs.Seen.{IsVarInside, seen_typing};
ghost use Rattle.pj_exprtypes.specs.TypeOf as types;
ghost use Rattle.pj_exprtypes.specs.Typing.{known};

use crate::expressions::{expression_with, only};
use crate::found::Found;
use pj_calls::{Candidates, candidates_of};
use pj_leaf_types::{declared_type, first_name, is_in_own_initializer, is_var, statement_of};
use pj_names::{AskFault, Oracle, Ty, TyList};
use pj_outer_names::File;
use pj_receivers::iterated;
use pj_scopes::{Variable, variable_name};
use pj_symbols::declaration_of;
use pj_tree::{Kind, Node, child_of, first_word};
use std::alloc::Global;

/// A variable by its declaration: one that is declared by `var`, or with the type that the declaration writes.
fn variable_by(file: &File<'_>, id: Node, declaration: Node) -> Found
    requires inside { id.0 < length file.now.nodes }
    requires declaration { declaration.0 < length file.now.nodes }
    ensures inside { IsVarInside (length file.now.nodes) result }
    ensures value { seen_typing result ≡ declarations.variable_by file.now id (Some declaration) }
{
    if is_var(file.tree(), declaration) {
        Found::Var(id)
    } else {
        Found::Written { id, declaration }
    }
}

/// The variable of a name: one that is declared by `var`, or with the type that its declaration writes (JLS 8.3, 8.4.1, 14.4).
fn variable_type(file: &File<'_>, id: Node) -> Found
    requires inside { id.0 < length file.now.nodes }
    ensures inside { IsVarInside (length file.now.nodes) result }
    ensures value { seen_typing result ≡ declarations.variable_type file.now id }
{
    match declaration_of(file.tree(), id) {
        Some(declaration) => variable_by(file, id, declaration),
        None => Found::Type(Ty::Unknown),
    }
}

/// The same, where there is a name.
fn variable_or_unknown(file: &File<'_>, id: Option<Node>) -> Found
    requires inside { IfSome id (λ m. m.0 < length file.now.nodes) }
    ensures inside { IsVarInside (length file.now.nodes) result }
    ensures value { seen_typing result ≡ declarations.variable_or_unknown file.now id }
{
    match id {
        Some(id) => variable_type(file, id),
        None => Found::Type(Ty::Unknown),
    }
}

/// A node that declares one variable: a declarator, a parameter, a component of a record, a constant of an enum.
fn named_type(file: &File<'_>, n: Node) -> Found
    requires inside { n.0 < length file.now.nodes }
    ensures inside { IsVarInside (length file.now.nodes) result }
    ensures value { seen_typing result ≡ declarations.named_type file.now n }
{
    let id = child_of(file.tree(), n, Kind::VariableId);
    variable_or_unknown(file, id)
}

/// A declaration of several variables: the type that it writes, and by `var` that of its first variable.
#[tactic(auto, using(pj_names::proofs::AskingLaws::asking_steps))]
fn declaration_type<O: Oracle>(
    alloc: Global,
    file: &File<'_>,
    oracle: &mut O,
    n: Node,
) -> Result<Found, AskFault>
    requires inside { n.0 < length file.now.nodes }
    ensures inside { IfOk result (IsVarInside (length file.now.nodes)) }
    ensures asks { Asks (declarations.declaration_type file.now n) (O.tells oracle.old) (O.tells oracle.new) (seen seen_typing result) }
{
    if is_var(file.tree(), n) {
        let id = first_name(file.tree(), n);
        return Ok(variable_or_unknown(file, id));
    }
    let ty = declared_type(alloc, file, oracle, 0, n)?;
    Ok(Found::Type(ty))
}

/// What a name means at a place: in its own initializer a variable that is declared by `var` has no type (JLS 14.4.1).
fn meant_type(file: &File<'_>, place: Node, meant: Option<Variable>) -> Found
    requires inside { place.0 < length file.now.nodes }
    requires meant { IfSome meant (IsInside (length file.now.nodes)) }
    ensures inside { IsVarInside (length file.now.nodes) result }
    ensures value { seen_typing result ≡ names.meant_type file.now place (seen_variable meant) }
{
    match meant {
        None => Found::Type(Ty::Unknown),
        Some(Variable::Inherited(field)) => Found::Type(field.ty),
        Some(Variable::Declared(id)) => {
            if is_in_own_initializer(file.tree(), place, id) {
                return Found::Type(Ty::Unknown);
            }
            variable_type(file, id)
        }
    }
}

/// The variable that a name means (JLS 6.5.6.1).
#[tactic(auto, using(pj_names::proofs::AskingLaws::asking_steps))]
fn access_type<O: Oracle>(
    alloc: Global,
    file: &File<'_>,
    oracle: &mut O,
    n: Node,
) -> Result<Found, AskFault>
    requires inside { n.0 < length file.now.nodes }
    ensures inside { IfOk result (IsVarInside (length file.now.nodes)) }
    ensures asks { Asks (names.access_type file.now n) (O.tells oracle.old) (O.tells oracle.new) (seen seen_typing result) }
{
    let meant = variable_name(alloc, file, oracle, n, first_word(file.tree(), n))?;
    Ok(meant_type(file, n, meant))
}

/// The type of the receiver of a call, where there is one.
fn receiver_in(operand_types: TyList) -> Option<Ty>
    ensures { seen_option result ≡ calls.receiver_in (type_list operand_types) }
{
    let mut types = operand_types.into_vec();
    types.reverse();
    types.pop()
}

/// What candidates tell: where there are none, the type is not known.
fn typing_of(found: Option<Candidates>) -> Found
    ensures value { seen_typing result ≡ calls.typing_of (seen_candidates found) }
    ensures inside { (count : ℕ) → IsVarInside count result }
{
    match found {
        Some(candidates) => Found::Call(candidates),
        None => Found::Type(Ty::Unknown),
    }
}

/// The candidates of a method call by the type of its receiver (JLS 15.12.2.1).
#[tactic(auto, using(pj_names::proofs::AskingLaws::asking_steps))]
fn call_with<O: Oracle>(
    alloc: Global,
    file: &File<'_>,
    oracle: &mut O,
    n: Node,
    operand_types: TyList,
) -> Result<Found, AskFault>
    requires inside { n.0 < length file.now.nodes }
    ensures inside { IfOk result (IsVarInside (length file.now.nodes)) }
    ensures asks { Asks (calls.call_with file.now n (type_list operand_types)) (O.tells oracle.old) (O.tells oracle.new) (seen seen_typing result) }
{
    let found = candidates_of(alloc, file, oracle, n, receiver_in(operand_types))?;
    Ok(typing_of(found))
}

/// The type of a node that is no name and no declaration of variables.
#[tactic(auto, using(pj_names::proofs::AskingLaws::asking_steps))]
fn known_type<O: Oracle>(
    alloc: Global,
    file: &File<'_>,
    oracle: &mut O,
    n: Node,
    operand_types: TyList,
) -> Result<Found, AskFault>
    requires inside { n.0 < length file.now.nodes }
    ensures inside { IfOk result (IsVarInside (length file.now.nodes)) }
    ensures asks { Asks (known (expression_with file.now n (kind_of file.now n) (type_list operand_types))) (O.tells oracle.old) (O.tells oracle.new) (seen seen_typing result) }
{
    let ty = expression_with(alloc, file, oracle, n, operand_types)?;
    Ok(Found::Type(ty))
}

/// What tells the type of a node, by its kind and the types of its operands.
#[inline(never)]
#[tactic(auto, using(pj_names::proofs::AskingLaws::asking_steps))]
pub fn type_with<O: Oracle>(
    alloc: Global,
    file: &File<'_>,
    oracle: &mut O,
    n: Node,
    operand_types: TyList,
) -> Result<Found, AskFault>
    requires inside { n.0 < length file.now.nodes }
    ensures inside { IfOk result (IsVarInside (length file.now.nodes)) }
    ensures asks { Asks (types.type_with file.now n (kind_of file.now n) (type_list operand_types)) (O.tells oracle.old) (O.tells oracle.new) (seen seen_typing result) }
{
    match file.tree().kind(n) {
        Kind::VariableAccess => access_type(alloc, file, oracle, n),
        Kind::VariableId => Ok(variable_type(file, n)),
        Kind::VariableDeclarator
        | Kind::FormalParameter
        | Kind::LambdaParameter
        | Kind::CatchParameter
        | Kind::RecordComponent
        | Kind::EnumConstant => Ok(named_type(file, n)),
        Kind::FieldDeclaration | Kind::LocalVariableDeclaration => {
            declaration_type(alloc, file, oracle, n)
        }
        Kind::MethodCall => call_with(alloc, file, oracle, n, operand_types),
        _ => known_type(alloc, file, oracle, n, operand_types),
    }
}

/// The type of a variable that is declared by `var`, by that of its initializer, or of what its enhanced `for` goes through (JLS 14.4.1, 14.14.2).
#[inline(never)]
#[tactic(auto, using(pj_names::proofs::AskingLaws::asking_steps))]
pub fn var_with<O: Oracle>(
    alloc: Global,
    file: &File<'_>,
    oracle: &mut O,
    id: Node,
    operand_types: TyList,
) -> Result<Ty, AskFault>
    requires inside { id.0 < length file.now.nodes }
    ensures { Asks (declarations.var_with file.now id (type_list operand_types)) (O.tells oracle.old) (O.tells oracle.new) (seen java_type result) }
{
    let ty = only(operand_types);
    match statement_of(file.tree(), id) {
        Some(_) => iterated(alloc, oracle, &ty),
        None => Ok(ty),
    }
}
