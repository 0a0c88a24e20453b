//! The classes around a place.

ghost use Rattle.std.specs.Prelude.{◌≡◌, ◌<◌, ◌∷◌, [], length, IfSome, MatchOption};
ghost use Rattle.pj_outer_names.specs.Around.{classes_around, further_in, is_found_within};

use pj_declared::{Declared, class_at};
use pj_tree::{Node, SyntaxTree};

/// Whether what was found stands in the class, or is one of its members.
fn is_found_within(found: Option<Declared>, class: Node) -> bool
    ensures { result ≡ is_found_within found class }
{
    match found {
        Some(found) => class.0 <= found.opened,
        None => false,
    }
}

/// The innermost class around the place: in its body or record header the place is. Behind it the further ones around that class stand.
fn innermost_class(tree: &SyntaxTree<'_>, place: Node) -> Option<Node>
    requires inside { place.0 < length tree.now.nodes }
    ensures value { MatchOption result (classes_around tree.now place ≡ []) (λ class. classes_around tree.now place ≡ class ∷ classes_around tree.now class) }
    ensures before { IfSome result (λ class. class.0 < place.0) }
{
    let _nodes = tree.len();
    class_at(tree, place)
}

/// The innermost class around the place, where it stands further in than what was found. It takes a step for each node between.
#[tactic(auto, using(crate::proofs::Enclosing::searched_steps))]
pub fn next_searched(tree: &SyntaxTree<'_>, found: Option<Declared>, place: Node) -> Option<Node>
    requires inside { place.0 < length tree.now.nodes }
    ensures value { MatchOption result (further_in found (classes_around tree.now place) ≡ []) (λ class. further_in found (classes_around tree.now place) ≡ class ∷ further_in found (classes_around tree.now class)) }
    ensures before { IfSome result (λ class. class.0 < place.0) }
{
    let class = innermost_class(tree, place)?;
    if is_found_within(found, class) {
        return None;
    }
    Some(class)
}
