//! Parentheses around expressions (JLS 15.8.5).

ghost use Rattle.std.specs.Prelude.{◌≡◌, ◌<◌, ◌^◌, ◌&&◌, nat_le, length, map, reverse};
ghost use Rattle.std.specs.List.Sorted.{IsNonDecreasingBy};
ghost use Rattle.pj_lex.specs.declared.token.Token.{Token};
ghost use Rattle.pj_parse.specs.Parses.{file_parsed};
ghost use Rattle.pj_grammar.specs.Words.{is_comment, seen};
ghost use Rattle.pj_properties.specs.Parentheses.{is_left, is_right, run, opened, closed, pairs_within, syntactic, syntactic_at, depth_below, parenthesis_depth};

use pj_lex::{Token, TokenKind};
use pj_parse::Parsed;
use pj_tree::{Kind, Node, Span, SyntaxTree, second_child};

/// Whether a token is `(`.
fn is_left(kind: TokenKind) -> bool
    ensures { result ≡ is_left kind }
{
    match kind {
        TokenKind::LeftParenthesis => true,
        _ => false,
    }
}

/// Whether a token is `)`.
fn is_right(kind: TokenKind) -> bool
    ensures { result ≡ is_right kind }
{
    match kind {
        TokenKind::RightParenthesis => true,
        _ => false,
    }
}

/// Whether a token is a comment.
fn is_comment(kind: TokenKind) -> bool
    ensures { result ≡ is_comment kind }
{
    match kind {
        TokenKind::Comment => true,
        _ => false,
    }
}

/// How many parentheses open at the end of the tokens, from an offset on, comments not seen.
fn opened_last(tokens: &[Token<'_>], from: u32) -> usize
    ensures value { result ≡ run (λ t. is_left t.kind && nat_le from t.span.from) (reverse (map seen tokens.now)) }
    ensures small { result < 2 ^ 63 }
{
    let mut count = 0;
    for i in (0..tokens.len()).rev() {
        let token = &tokens[i];
        if is_comment(token.kind) {
            continue;
        }
        if !(is_left(token.kind) && from <= token.span.from) {
            return count;
        }
        count += 1;
    }
    count
}

/// How many parentheses close at the beginning of the tokens, up to an offset, comments not seen.
fn closed_first(tokens: &[Token<'_>], to: u32) -> usize
    ensures { result ≡ run (λ t. is_right t.kind && nat_le t.span.to to) (map seen tokens.now) }
{
    let mut count = 0;
    for token in tokens {
        if is_comment(token.kind) {
            continue;
        }
        if !(is_right(token.kind) && token.span.to <= to) {
            return count;
        }
        count += 1;
    }
    count
}

/// The parentheses that open directly before the stretch, within the one around it.
fn opened(tokens: &[Token<'_>], above: Span, span: Span) -> usize
    requires in_order { IsNonDecreasingBy (λ (t : Token). t.span.from) tokens.now }
    ensures value { result ≡ opened above span (map seen tokens.now) }
    ensures small { result < 2 ^ 63 }
{
    let place = tokens.partition_point(|token| token.span.from < span.from);
    opened_last(&tokens[..place], above.from)
}

/// The parentheses that close directly behind the stretch, within the one around it.
fn closed(tokens: &[Token<'_>], above: Span, span: Span) -> usize
    requires in_order { IsNonDecreasingBy (λ (t : Token). t.span.from) tokens.now }
    ensures { result ≡ closed above span (map seen tokens.now) }
{
    let place = tokens.partition_point(|token| token.span.from < span.to);
    closed_first(&tokens[place..], above.to)
}

/// How many pairs of parentheses stand directly around a span within the one above.
fn pairs_within(tokens: &[Token<'_>], above: Span, span: Span) -> usize
    requires in_order { IsNonDecreasingBy (λ (t : Token). t.span.from) tokens.now }
    ensures value { result ≡ pairs_within (map seen tokens.now) above span }
    ensures small { result < 2 ^ 63 }
{
    opened(tokens, above, span).min(closed(tokens, above, span))
}

/// How many of the parentheses around an expression are a part of the node above.
fn syntactic_at(tree: &SyntaxTree<'_>, above: Node) -> usize
    requires inside { above.0 < length tree.now.nodes }
    ensures { result ≡ syntactic_at tree.now above }
{
    syntactic(tree.kind(above), tree, above)
}

/// How many of these pairs are a part of the construct above, and no parentheses around an expression.
fn syntactic(kind: Kind, tree: &SyntaxTree<'_>, above: Node) -> usize
    requires inside { above.0 < length tree.now.nodes }
    ensures { result ≡ syntactic kind tree.now above }
{
    match kind {
        Kind::IfStatement
        | Kind::WhileStatement
        | Kind::DoStatement
        | Kind::SwitchStatement
        | Kind::SwitchExpression
        | Kind::SynchronizedStatement => 1,
        Kind::ArgumentList => {
            if second_child(tree, above).is_some() {
                0
            } else {
                1
            }
        }
        _ => 0,
    }
}

/// How many pairs of parentheses stand around a node within the node above.
fn depth_below(parsed: &Parsed<'_>, n: Node, above: Node) -> usize
    requires inside { n.0 < length parsed.now.tree.nodes }
    requires inside_above { above.0 < length parsed.now.tree.nodes }
    requires in_order { IsNonDecreasingBy (λ (t : Token). t.span.from) parsed.now.tokens }
    ensures value { result ≡ depth_below (file_parsed parsed.now) n above }
    ensures small { result < 2 ^ 63 }
{
    let tree = &parsed.tree;
    let pairs = pairs_within(parsed.tokens.as_slice(), tree.span(above), tree.span(n));
    pairs.saturating_sub(syntactic_at(tree, above))
}

/// How many pairs of parentheses stand directly around the node.
pub fn parenthesis_depth(parsed: &Parsed<'_>, n: Node) -> usize
    requires inside { n.0 < length parsed.now.tree.nodes }
    requires in_order { IsNonDecreasingBy (λ (t : Token). t.span.from) parsed.now.tokens }
    ensures value { result ≡ parenthesis_depth (file_parsed parsed.now) n }
    ensures small { result < 2 ^ 63 }
{
    match parsed.tree.parent(n) {
        Some(above) => depth_below(parsed, n, above),
        None => 0,
    }
}
