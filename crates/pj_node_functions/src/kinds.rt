//! The kinds and groups of kinds of nodes.
ghost use Rattle.std.specs.Prelude.{◌≡◌, ◌<◌, length, nat_eq};
ghost use Rattle.std.specs.List.{ends_with, list_any};
ghost use Rattle.std.specs.Cmp.Lexicographic.{pointwise};
ghost use Rattle.std.specs.Option.{ForSome};
ghost use Rattle.pj_node_functions.specs.Kinds.{is_expression, is_in_group, is_kind_named, is_literal, is_statement, node_is, other_expressions, other_statements, type_declarations};
ghost use Rattle.pj_xexpressions.specs.Among.{is_among};

use pj_base::is_same_text;
use pj_tree::{Node, SyntaxTree};

/// The kinds of expressions that are no literals (JLS 15, 10.6).
static OTHER_EXPRESSIONS: [&str; 20] = [
    "ClassLiteral",
    "ThisExpression",
    "SuperExpression",
    "TypeExpression",
    "PatternExpression",
    "VariableAccess",
    "FieldAccess",
    "ArrayAccess",
    "MethodCall",
    "MethodReference",
    "ConstructorCall",
    "ArrayAllocation",
    "ArrayInitializer",
    "InfixExpression",
    "UnaryExpression",
    "AssignmentExpression",
    "ConditionalExpression",
    "CastExpression",
    "LambdaExpression",
    "SwitchExpression",
];

/// The kinds of statements whose names do not end so (JLS 14.2, 14.4).
static OTHER_STATEMENTS: [&str; 2] = ["Block", "LocalVariableDeclaration"];

/// The kinds of declarations of classes and interfaces (JLS 8.1, 8.9, 8.10, 9.6, 15.9.5).
static TYPE_DECLARATIONS: [&str; 5] = [
    "ClassDeclaration",
    "EnumDeclaration",
    "RecordDeclaration",
    "AnnotationTypeDeclaration",
    "AnonymousClassDeclaration",
];

/// Whether a kind is one of some.
fn is_among(kind: &str, kinds: &[&str]) -> bool
    ensures { result ≡ list_any (λ other. pointwise nat_eq other.now kind.now) kinds.now }
{
    kinds.iter().any(|other| is_same_text(other, kind))
}

/// Whether a text ends in a word.
fn ends_in(text: &str, word: &str) -> bool
    ensures { result ≡ ends_with nat_eq text.now word.now }
{
    text.ends_with(word)
}

/// Whether a kind is one of literals (JLS 15.8.1).
fn is_literal(kind: &str) -> bool
    ensures { result ≡ is_literal kind.now }
{
    ends_in(kind, "Literal") && kind != "ClassLiteral"
}

/// Whether a kind is one of the expressions that are no literals.
#[tactic(auto, unfolding(crate::specs::Kinds::other_expressions))]
fn is_other_expression(kind: &str) -> bool
    ensures { result ≡ is_among kind.now other_expressions }
{
    is_among(kind, &OTHER_EXPRESSIONS)
}

/// Whether a kind is one of expressions (JLS 15).
fn is_expression(kind: &str) -> bool
    ensures { result ≡ is_expression kind.now }
{
    is_literal(kind) || is_other_expression(kind)
}

/// Whether a kind is a block or a declaration of local variables.
#[tactic(auto, unfolding(crate::specs::Kinds::other_statements))]
fn is_other_statement(kind: &str) -> bool
    ensures { result ≡ is_among kind.now other_statements }
{
    is_among(kind, &OTHER_STATEMENTS)
}

/// Whether a kind is one of statements (JLS 14.5).
fn is_statement(kind: &str) -> bool
    ensures { result ≡ is_statement kind.now }
{
    ends_in(kind, "Statement") || is_other_statement(kind)
}

/// Whether a kind is one of declarations of classes and interfaces.
#[tactic(auto, unfolding(crate::specs::Kinds::type_declarations))]
fn is_type_declaration(kind: &str) -> bool
    ensures { result ≡ is_among kind.now type_declarations }
{
    is_among(kind, &TYPE_DECLARATIONS)
}

/// Whether a kind is in the group of a name.
fn is_in_group(group: &str, kind: &str) -> bool
    ensures { result ≡ is_in_group group.now kind.now }
{
    if group == "Expression" {
        is_expression(kind)
    } else if group == "Statement" {
        is_statement(kind)
    } else if group == "TypeDeclaration" {
        is_type_declaration(kind)
    } else if group == "Type" {
        ends_in(kind, "Type")
    } else if group == "Literal" {
        is_literal(kind)
    } else {
        false
    }
}

/// Whether a kind has a name, or is in the group of that name.
fn is_kind_named(text: &str, kind: &str) -> bool
    ensures { result ≡ is_kind_named text.now kind.now }
{
    text == kind || is_in_group(text, kind)
}

/// Whether the context node is of the kind of a name, or of one in the group of that name: `Expression`, `Statement`, `TypeDeclaration`, `Type` or `Literal`.
/// Without a context node it is not.
pub(crate) fn node_is(tree: &SyntaxTree<'_>, at: Option<Node>, text: &str) -> bool
    requires inside { ForSome at (λ n. n.0 < length tree.now.nodes) }
    ensures { result ≡ node_is tree.now at text.now }
{
    match at {
        Some(n) => is_kind_named(text, tree.kind(n).name()),
        None => false,
    }
}
