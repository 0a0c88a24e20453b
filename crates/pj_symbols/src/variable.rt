//! Variables: what each is, by the nodes above its name.

ghost use Rattle.std.specs.Prelude.{◌≡◌, ◌<◌, length, IfSome, IfOk};
ghost use Rattle.pj_symbols.specs.Symbols.{variable_at};
ghost use Rattle.pj_symbols.specs.Variables.{declaration_of, variable_kind, kind_in, local_kind, local_kind_in};

use pj_base::{NoMemory, Text};
use pj_tree::{Kind, Node, SyntaxTree, first_word, kind_above};
use std::alloc::Global;

/// A variable that a file declares.
#[derive(Debug, Drop)]
pub struct Variable {
    /// Its `VariableId`.
    pub node: Node,
    /// Its name.
    pub name: Text,
    /// What it is.
    pub kind: VariableKind,
}

/// What a variable is (JLS 4.12.3).
#[derive(Clone, Copy, Debug, PartialEq, Eq)]
pub enum VariableKind {
    /// A constant of an enum class (JLS 8.9.1).
    EnumConstant,
    /// The parameter of a `catch` (JLS 14.20).
    ExceptionParameter,
    /// A field (JLS 8.3, 9.3).
    Field,
    /// A variable that a basic `for` declares (JLS 14.14.1).
    ForLoopVariable,
    /// The variable of an enhanced `for` (JLS 14.14.2).
    ForeachVariable,
    /// A parameter of a method or a constructor (JLS 8.4.1).
    FormalParameter,
    /// A parameter of a lambda expression (JLS 15.27.1).
    LambdaParameter,
    /// Any other local variable (JLS 14.4).
    LocalVariable,
    /// A pattern variable (JLS 14.30.1).
    PatternBinding,
    /// A component of a record class (JLS 8.10.1).
    RecordComponent,
    /// A resource of a `try` (JLS 14.20.3).
    Resource,
}

/// The node that declares the variable with its type: the parent of its name, or the node above a declarator.
pub fn declaration_of(tree: &SyntaxTree<'_>, n: Node) -> Option<Node>
    requires inside { n.0 < length tree.now.nodes }
    ensures value { result ≡ declaration_of tree.now n }
    ensures before { IfSome result (λ d. d.0 < n.0) }
{
    let parent = tree.parent(n)?;
    match tree.kind(parent) {
        Kind::VariableDeclarator => tree.parent(parent),
        _ => Some(parent),
    }
}

/// What a variable is that a local variable declaration declares, by the kind of the node above.
fn local_kind(above: Option<Kind>) -> VariableKind
    ensures { result ≡ local_kind above }
{
    match above {
        Some(kind) => local_kind_in(kind),
        None => VariableKind::LocalVariable,
    }
}

/// What a local variable is below a node of this kind.
fn local_kind_in(above: Kind) -> VariableKind
    ensures { result ≡ local_kind_in above }
{
    match above {
        Kind::ForInit => VariableKind::ForLoopVariable,
        Kind::ForeachStatement => VariableKind::ForeachVariable,
        Kind::Resource => VariableKind::Resource,
        _ => VariableKind::LocalVariable,
    }
}

/// What a variable is, by the kind of its declaration and of the node above that.
fn kind_in(declaration: Kind, above: Option<Kind>) -> VariableKind
    ensures { result ≡ kind_in declaration above }
{
    match declaration {
        Kind::FieldDeclaration => VariableKind::Field,
        Kind::EnumConstant => VariableKind::EnumConstant,
        Kind::CatchParameter => VariableKind::ExceptionParameter,
        Kind::FormalParameter => VariableKind::FormalParameter,
        Kind::LambdaParameter => VariableKind::LambdaParameter,
        Kind::RecordComponent => VariableKind::RecordComponent,
        Kind::TypePattern => VariableKind::PatternBinding,
        _ => local_kind(above),
    }
}

/// What the variable is whose name the node is.
pub fn variable_kind(tree: &SyntaxTree<'_>, n: Node) -> VariableKind
    requires inside { n.0 < length tree.now.nodes }
    ensures { result ≡ variable_kind tree.now n }
{
    match declaration_of(tree, n) {
        Some(declaration) => kind_in(tree.kind(declaration), kind_above(tree, declaration)),
        None => VariableKind::LocalVariable,
    }
}

/// The variable whose name the node is, if it is one.
pub(crate) fn variable_at(
    alloc: Global,
    tree: &SyntaxTree<'_>,
    n: Node,
) -> Result<Option<Variable>, NoMemory>
    requires inside { n.0 < length tree.now.nodes }
    ensures { IfOk result (λ variable. variable ≡ variable_at tree.now n) }
{
    match tree.kind(n) {
        Kind::VariableId => Ok(Some(Variable {
            node: n,
            name: Text::from_str(alloc, first_word(tree, n))?,
            kind: variable_kind(tree, n),
        })),
        _ => Ok(None),
    }
}
