//! The search for what a name means at a place.

ghost use Rattle.std.specs.Prelude.{◌≡◌, ◌<◌, ◌≤◌, true, false, length, filter, nat_lt};
ghost use Rattle.std.specs.List.Sorted.{IsPartitionPoint};
ghost use Rattle.pj_declared.specs.Nearest.{meant_among, nearest, nearer_of};
ghost use Rattle.pj_declared.specs.Table.{is_before, is_of, is_open, name_rank, IsInOrder};
ghost use Rattle.pj_declared.specs.declared.named.Named.{Named};
ghost use Rattle.pj_tree.specs.Tree.{Tree};
ghost use Rattle.pj_tree.specs.declared.node.Node.{Node as NodeSeen};

use crate::named::Named;
use crate::nearest::{Declared, declared_by, nearer};
use pj_tree::{Node, SyntaxTree};
use std::cmp::Ordering;

/// Where the name of a row stands beside another one: 0 before it, 1 where they are the same, 2 behind it.
fn name_rank(row: &Named, name: &str) -> u32
    ensures { result ≡ name_rank name.now row.now }
{
    match row.name.as_str().cmp(name) {
        Ordering::Less => 0,
        Ordering::Equal => 1,
        Ordering::Greater => 2,
    }
}

/// How many rows have a name of a lesser rank: by bisection.
fn count_below(rows: &[Named], name: &str, rank: u32) -> usize
    requires ordered { IsInOrder rows.now }
    ensures few { result ≤ length rows.now }
    ensures split { IsPartitionPoint (λ (row : Named). nat_lt (name_rank name.now row) rank ≡ true) (λ (row : Named). nat_lt (name_rank name.now row) rank ≡ false) rows.now result }
{
    rows.partition_point(|row| name_rank(row, name) < rank)
}

/// The rows of a name, which stand beside one another: what the name means, it means among them.
fn rows_of<'a>(rows: &'a [Named], name: &str) -> &'a [Named]
    requires ordered { IsInOrder rows.now }
    ensures ordered { IsInOrder result.now }
    ensures same { (t : Tree) (place : NodeSeen) → meant_among t result.now name.now place ≡ meant_among t rows.now name.now place }
{
    let first = count_below(rows, name, 1);
    let rest = &rows[first..];
    let past = count_below(rest, name, 2);
    &rest[..past]
}

/// Whether a row stands before the scopes of the name within the node that this number opens, or a greater one.
fn is_before(row: &Named, name: &str, within: Node, opened: u32) -> bool
    ensures { result ≡ is_before name.now within opened row.now }
{
    match row.name.as_str().cmp(name) {
        Ordering::Less => true,
        Ordering::Greater => false,
        Ordering::Equal => {
            row.scope.within.0 < within.0
                || (row.scope.within.0 == within.0 && row.scope.opened < opened)
        }
    }
}

/// How many rows stand before them: by bisection.
fn count_before(rows: &[Named], name: &str, within: Node, opened: u32) -> usize
    requires ordered { IsInOrder rows.now }
    ensures few { result ≤ length rows.now }
    ensures split { IsPartitionPoint (λ (row : Named). is_before name.now within opened row ≡ true) (λ (row : Named). is_before name.now within opened row ≡ false) rows.now result }
{
    rows.partition_point(|row| is_before(row, name, within, opened))
}

/// Whether a row is of the name, with a scope within the node.
fn is_of(row: &Named, name: &str, within: Node) -> bool
    ensures { result ≡ is_of name.now within row.now }
{
    row.name.as_str() == name && row.scope.within.0 == within.0
}

/// The nearest declaration of the name with a scope within the node that the place does not come before.
fn nearest_within(rows: &[Named], name: &str, within: Node, place: Node) -> Option<Declared>
    requires ordered { IsInOrder rows.now }
    requires inside { place.0 < 4294967295 }
    ensures { result ≡ nearest (filter (is_open name.now within place) rows.now) }
{
    let past = count_before(rows, name, within, place.0 + 1);
    if past == 0 {
        return None;
    }
    let last = &rows[past - 1];
    if !is_of(last, name, within) {
        return None;
    }
    let first = count_before(rows, name, within, last.scope.opened);
    Some(declared_by(rows[first].scope))
}

/// What is nearest of what was found further in, and what is found within one more node.
fn nearer_of(found: Option<Declared>, known: Option<Declared>) -> Option<Declared>
    ensures { result ≡ nearer_of found known }
{
    match found {
        Some(found) => Some(nearer(found, known)),
        None => known,
    }
}

/// What the name means at the place, among these rows: by a bisection for each node around the place.
fn meant_of(tree: &SyntaxTree<'_>, rows: &[Named], name: &str, place: Node) -> Option<Declared>
    requires inside { place.0 < length tree.now.nodes }
    requires ordered { IsInOrder rows.now }
    ensures { result ≡ meant_among tree.now rows.now name.now place }
{
    let _nodes = tree.len();
    let mut known = nearest_within(rows, name, place, place);
    let mut at = place;
    while let Some(around) = tree.parent(at) {
        known = nearer_of(nearest_within(rows, name, around, place), known);
        at = around;
    }
    known
}

/// What the name means at the place, among the rows of the file: by two bisections, and where there are rows of the name, by one among these for each node around the place.
pub fn meant_among(
    tree: &SyntaxTree<'_>,
    rows: &[Named],
    name: &str,
    place: Node,
) -> Option<Declared>
    requires inside { place.0 < length tree.now.nodes }
    requires ordered { IsInOrder rows.now }
    ensures { result ≡ meant_among tree.now rows.now name.now place }
{
    let own = rows_of(rows, name);
    if own.is_empty() {
        return None;
    }
    meant_of(tree, own, name, place)
}
