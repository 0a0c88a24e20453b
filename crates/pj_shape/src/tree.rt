//! The tree of a derivation.

ghost use Rattle.std.specs.Prelude.{◌≡◌, ◌≤◌, ◌⊎◌, length, Ok, Err, MatchResult};
ghost use Rattle.pj_peg_grammar.specs.Derivation.{Forest, steps_of};
ghost use Rattle.pj_tree.specs.declared.shape_fault.ShapeFault.{ShapeFault};
ghost use Rattle.pj_shape.specs.Shaped.{shape_of};
ghost use Rattle.pj_shape.specs.ShapedTree.{shaped_tree, MakesNode, IsDerived};
ghost use Rattle.pj_shape.specs.Words.{AreTokens};

use crate::marks::class_marks;
use crate::nodes::made_nodes;
use crate::shape::Shape;
use crate::writing::write_nodes;
use pj_peg_grammar::Derivation;
use pj_tree::{Builder, ShapeFault, Span, SyntaxTree};
use std::alloc::Global;

/// The syntax tree of a derivation of the first rule over the tokens of a text, comments left out. `shapes` has what each
/// rule makes, and the first rule makes a node, which is the root. The answer is `TooDeep` with the greatest depth exactly
/// where that is above 1,000, else `TooMany` with the number of nodes exactly where that is above 2,000,000.
pub fn shape_derivation<'s>(
    alloc: Global,
    text: &'s str,
    tokens: &[Span],
    shapes: &[Shape],
    derivation: &Derivation,
) -> Result<SyntaxTree<'s>, ShapeFault>
    requires length { length text.now ≤ 4294967294 }
    requires tokens { AreTokens text.now tokens.now }
    requires root { MakesNode (shape_of shapes.now 0) }
    requires derived { IsDerived (length tokens.now) derivation.now }
    ensures value { (d : Forest) → derivation.now ≡ steps_of d →
        MatchResult result (λ tree. shaped_tree text.now tokens.now shapes.now d ≡ Ok tree)
        (λ fault. (fault ≡ ShapeFault.Memory) ⊎ (shaped_tree text.now tokens.now shapes.now d ≡ Err fault)) }
{
    let Ok(nodes) = made_nodes(alloc, shapes, text, tokens, derivation) else {
        return Err(ShapeFault::Memory);
    };
    let marked = class_marks(alloc, text, tokens, &nodes)?;
    let mut builder = Builder::new(alloc, text);
    write_nodes(alloc, text, tokens, &nodes, &marked, &mut builder)?;
    builder.finish()
}
