//! Annotations that suppress findings.
ghost use Rattle.std.specs.Prelude.{◌≡◌, ◌<◌, ◌&&◌, ◌∷◌, [], IfSome, IsTrue, MatchOption, codes, drop, is_none, length, nat_eq};
ghost use Rattle.std.specs.List.{list_any, starts_with};
ghost use Rattle.pj_tree.specs.Tree.{ancestors_of, children_of};
ghost use Rattle.pj_tree.specs.Children.{first_child};
ghost use Rattle.pj_tree.specs.Words.{words_of};
ghost use Rattle.pj_suppress.specs.Annotation.{annotation_names, by_annotation, declaration_names, is_named, is_string, literal_names, member_names, members_name, modifiers_name, names_rule, qualified_name, simple_name, value_names};
ghost use Rattle.pj_suppress.specs.Words.{same_text, same_texts};

use crate::words::has_words;
use pj_base::Text;
use pj_tree::{Kind, Node, SyntaxTree, first_child, is_kind};
use pj_xvalue::{Attributes, Value};

/// What stands behind a front of a text.
fn behind<'a>(text: &'a [u8], front: &[u8]) -> &'a [u8]
    requires { IsTrue (starts_with nat_eq text.now front.now) }
    ensures { result.now ≡ drop (length front.now) text.now }
{
    text.split_at(front.len()).1
}

/// Whether it is `PMD.` with the rule's name behind it.
fn names_one_rule(rule: &[u8], value: &[u8]) -> bool
    ensures { result ≡ (starts_with nat_eq value.now (codes "PMD.") && same_text (drop 4 value.now) rule.now) }
{
    value.starts_with(b"PMD.") && behind(value, b"PMD.") == rule
}

/// Whether the string suppresses the rule.
fn names_rule(rule: &str, value: &str) -> bool
    ensures { result ≡ names_rule rule.now value.now }
{
    match value {
        "PMD" | "all" => true,
        _ => names_one_rule(rule.as_bytes(), value.as_bytes()),
    }
}

/// Whether the node's attribute is a string that suppresses the rule.
fn has_rule<A: Attributes>(facts: &A, n: Node, rule: &Text) -> bool
    requires inside { n.0 < A.nodes facts.now }
    ensures { result ≡ is_string (names_rule rule.now) (A.attribute_of facts.now n (codes "ConstValue")) }
{
    match facts.attribute(n, "ConstValue") {
        Some(Value::Str(text)) => names_rule(rule.as_str(), text),
        _ => false,
    }
}

/// Whether the member's name is `value`.
fn is_value<A: Attributes>(facts: &A, n: Node) -> bool
    requires inside { n.0 < A.nodes facts.now }
    ensures { result ≡ is_string (λ name. same_text name (codes "value")) (A.attribute_of facts.now n (codes "Name")) }
{
    match facts.attribute(n, "Name") {
        Some(Value::Str(text)) => text == "value",
        _ => false,
    }
}

/// Whether the node is a string literal that names the rule.
fn literal_names<A: Attributes>(tree: &SyntaxTree<'_>, facts: &A, rule: &Text, n: Node) -> bool
    requires inside { n.0 < length tree.now.nodes }
    requires facts { A.nodes facts.now ≡ length tree.now.nodes }
    ensures { result ≡ literal_names tree.now (A.attribute_of facts.now) rule.now n }
{
    is_kind(tree, Kind::StringLiteral, n) && has_rule(facts, n, rule)
}

/// Whether a child of the node is such a literal.
fn element_names<A: Attributes>(tree: &SyntaxTree<'_>, facts: &A, rule: &Text, n: Node) -> bool
    requires inside { n.0 < length tree.now.nodes }
    requires facts { A.nodes facts.now ≡ length tree.now.nodes }
    ensures { result ≡ list_any (literal_names tree.now (A.attribute_of facts.now) rule.now) (children_of tree.now n) }
{
    for child in tree.children(n) {
        if literal_names(tree, facts, rule, child) {
            return true;
        }
    }
    false
}

/// Whether the value of a member is such a literal, or lists one.
fn value_names<A: Attributes>(tree: &SyntaxTree<'_>, facts: &A, rule: &Text, n: Node) -> bool
    requires inside { n.0 < length tree.now.nodes }
    requires facts { A.nodes facts.now ≡ length tree.now.nodes }
    ensures { result ≡ value_names tree.now (A.attribute_of facts.now) rule.now n }
{
    literal_names(tree, facts, rule, n)
        || (is_kind(tree, Kind::MemberValueArrayInitializer, n)
            && element_names(tree, facts, rule, n))
}

/// Whether a child of the node is such a value.
fn some_value_names<A: Attributes>(tree: &SyntaxTree<'_>, facts: &A, rule: &Text, n: Node) -> bool
    requires inside { n.0 < length tree.now.nodes }
    requires facts { A.nodes facts.now ≡ length tree.now.nodes }
    ensures { result ≡ list_any (value_names tree.now (A.attribute_of facts.now) rule.now) (children_of tree.now n) }
{
    for child in tree.children(n) {
        if value_names(tree, facts, rule, child) {
            return true;
        }
    }
    false
}

/// Whether the node is the member `value` of an annotation, and names the rule.
fn member_names<A: Attributes>(tree: &SyntaxTree<'_>, facts: &A, rule: &Text, n: Node) -> bool
    requires inside { n.0 < length tree.now.nodes }
    requires facts { A.nodes facts.now ≡ length tree.now.nodes }
    ensures { result ≡ member_names tree.now (A.attribute_of facts.now) rule.now n }
{
    is_kind(tree, Kind::MemberValuePair, n)
        && is_value(facts, n)
        && some_value_names(tree, facts, rule, n)
}

/// Whether a child of the node is such a member.
fn some_member_names<A: Attributes>(tree: &SyntaxTree<'_>, facts: &A, rule: &Text, n: Node) -> bool
    requires inside { n.0 < length tree.now.nodes }
    requires facts { A.nodes facts.now ≡ length tree.now.nodes }
    ensures { result ≡ list_any (member_names tree.now (A.attribute_of facts.now) rule.now) (children_of tree.now n) }
{
    for child in tree.children(n) {
        if member_names(tree, facts, rule, child) {
            return true;
        }
    }
    false
}

/// Whether the node is the list of an annotation's members, and one of them names the rule.
fn members_name<A: Attributes>(tree: &SyntaxTree<'_>, facts: &A, rule: &Text, n: Node) -> bool
    requires inside { n.0 < length tree.now.nodes }
    requires facts { A.nodes facts.now ≡ length tree.now.nodes }
    ensures { result ≡ members_name tree.now (A.attribute_of facts.now) rule.now n }
{
    is_kind(tree, Kind::AnnotationMemberList, n) && some_member_names(tree, facts, rule, n)
}

/// Whether a child of the node is such a list.
fn some_members_name<A: Attributes>(tree: &SyntaxTree<'_>, facts: &A, rule: &Text, n: Node) -> bool
    requires inside { n.0 < length tree.now.nodes }
    requires facts { A.nodes facts.now ≡ length tree.now.nodes }
    ensures { result ≡ list_any (members_name tree.now (A.attribute_of facts.now) rule.now) (children_of tree.now n) }
{
    for child in tree.children(n) {
        if members_name(tree, facts, rule, child) {
            return true;
        }
    }
    false
}

/// Whether the node is the type of an annotation `SuppressWarnings` of `java.lang`, as it is written.
fn is_named(tree: &SyntaxTree<'_>, n: Node) -> bool
    requires inside { n.0 < length tree.now.nodes }
    ensures { result ≡ is_named tree.now n }
{
    is_kind(tree, Kind::ClassType, n)
        && has_no_children(tree, n)
        && (has_simple_name(tree, n) || has_qualified_name(tree, n))
}

/// Whether a node has no children.
fn has_no_children(tree: &SyntaxTree<'_>, n: Node) -> bool
    requires inside { n.0 < length tree.now.nodes }
    ensures { result ≡ is_none (first_child tree.now n) }
{
    first_child(tree, n).is_none()
}

/// Whether the words of a node are the simple name of the annotation.
fn has_simple_name(tree: &SyntaxTree<'_>, n: Node) -> bool
    requires inside { n.0 < length tree.now.nodes }
    ensures { result ≡ same_texts (words_of tree.now n) simple_name }
{
    let name: [&str; 1] = ["SuppressWarnings"];
    has_words(tree, n, name.as_slice())
}

/// Whether the words of a node are its qualified name.
fn has_qualified_name(tree: &SyntaxTree<'_>, n: Node) -> bool
    requires inside { n.0 < length tree.now.nodes }
    ensures { result ≡ same_texts (words_of tree.now n) qualified_name }
{
    let name: [&str; 5] = ["java", ".", "lang", ".", "SuppressWarnings"];
    has_words(tree, n, name.as_slice())
}

/// Whether a child of the node is that name.
fn some_is_named(tree: &SyntaxTree<'_>, n: Node) -> bool
    requires inside { n.0 < length tree.now.nodes }
    ensures { result ≡ list_any (is_named tree.now) (children_of tree.now n) }
{
    for child in tree.children(n) {
        if is_named(tree, child) {
            return true;
        }
    }
    false
}

/// Whether the node is such an annotation, and names the rule.
fn annotation_names<A: Attributes>(tree: &SyntaxTree<'_>, facts: &A, rule: &Text, n: Node) -> bool
    requires inside { n.0 < length tree.now.nodes }
    requires facts { A.nodes facts.now ≡ length tree.now.nodes }
    ensures { result ≡ annotation_names tree.now (A.attribute_of facts.now) rule.now n }
{
    is_kind(tree, Kind::Annotation, n)
        && some_is_named(tree, n)
        && some_members_name(tree, facts, rule, n)
}

/// Whether a child of the node is such an annotation.
fn some_annotation_names<A: Attributes>(
    tree: &SyntaxTree<'_>,
    facts: &A,
    rule: &Text,
    n: Node,
) -> bool
    requires inside { n.0 < length tree.now.nodes }
    requires facts { A.nodes facts.now ≡ length tree.now.nodes }
    ensures { result ≡ list_any (annotation_names tree.now (A.attribute_of facts.now) rule.now) (children_of tree.now n) }
{
    for child in tree.children(n) {
        if annotation_names(tree, facts, rule, child) {
            return true;
        }
    }
    false
}

/// Whether the node is the list of a declaration's modifiers, and has such an annotation.
fn modifiers_name<A: Attributes>(tree: &SyntaxTree<'_>, facts: &A, rule: &Text, n: Node) -> bool
    requires inside { n.0 < length tree.now.nodes }
    requires facts { A.nodes facts.now ≡ length tree.now.nodes }
    ensures { result ≡ modifiers_name tree.now (A.attribute_of facts.now) rule.now n }
{
    is_kind(tree, Kind::ModifierList, n) && some_annotation_names(tree, facts, rule, n)
}

/// Whether the node is a declaration whose modifiers have such an annotation.
fn declaration_names<A: Attributes>(tree: &SyntaxTree<'_>, facts: &A, rule: &Text, n: Node) -> bool
    requires inside { n.0 < length tree.now.nodes }
    requires facts { A.nodes facts.now ≡ length tree.now.nodes }
    ensures { result ≡ declaration_names tree.now (A.attribute_of facts.now) rule.now n }
{
    match first_child(tree, n) {
        Some(first) => modifiers_name(tree, facts, rule, first),
        None => false,
    }
}

/// The parent of a node, with what a tree says of ancestors.
fn above(tree: &SyntaxTree<'_>, n: Node) -> Option<Node>
    requires inside { n.0 < length tree.now.nodes }
    ensures ancestors { MatchOption result (ancestors_of tree.now n ≡ []) (λ p. ancestors_of tree.now n ≡ p ∷ ancestors_of tree.now p) }
    ensures before { IfSome result (λ p. p.0 < n.0) }
{
    // The contract of `len` says that the nodes are a tree.
    let _count = tree.len();
    tree.parent(n)
}

/// Whether an annotation `SuppressWarnings` on the node or on an ancestor of it suppresses the rule of this name. It
/// looks at the node, its ancestors and the annotations of their modifiers, and takes no memory.
pub fn by_annotation<A: Attributes>(tree: &SyntaxTree<'_>, facts: &A, n: Node, rule: &Text) -> bool
    requires inside { n.0 < length tree.now.nodes }
    requires facts { A.nodes facts.now ≡ length tree.now.nodes }
    ensures { result ≡ by_annotation tree.now (A.attribute_of facts.now) rule.now n }
{
    let mut at = n;
    loop {
        if declaration_names(tree, facts, rule, at) {
            return true;
        }
        match above(tree, at) {
            Some(parent) => at = parent,
            None => return false,
        }
    }
}
