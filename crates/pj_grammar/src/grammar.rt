//! The grammar of Java 17.

ghost use Rattle.std.specs.Prelude.{◌≡◌, ◌^◌, ◌<◌, ◌≤◌, length, IfOk};
ghost use Rattle.pj_peg_grammar.specs.Form.{forms_of};
ghost use Rattle.pj_peg_grammar.specs.WellFormed.{IsWellFormed};
ghost use Rattle.pj_grammar.specs.Piece.{decoded};
ghost use Rattle.pj_grammar.specs.Java17.{java_17_forms, java_17_shapes};
ghost use Rattle.pj_shape.specs.Shaped.{shape_of};
ghost use Rattle.pj_shape.specs.ShapedTree.{MakesNode};

use crate::decoder::items_of;
use crate::laws::rules_have_their_numbers;
use crate::piece::Piece;
use crate::table::{PIECES, SHAPES};
use pj_base::NoMemory;
use pj_peg::WellFormed;
use pj_shape::Shape;
use std::alloc::Global;

/// The pieces of the grammar's rules.
#[tactic(none)]
fn pieces() -> &'static [Piece]
    ensures pieces { decoded result.now ≡ java_17_forms }
    ensures some { 0 < length java_17_forms }
    ensures most { length java_17_forms ≤ 2 ^ 16 }
    ensures well_formed { IsWellFormed java_17_forms }
{
    &PIECES
}

/// The grammar of Java 17, whose rule 0 is a whole file. It fails only for want of memory.
pub fn java_17(alloc: Global) -> Result<WellFormed, NoMemory>
    ensures grammar { IfOk result (λ grammar. forms_of grammar ≡ java_17_forms) }
{
    let rules = items_of(alloc, pieces())?;
    WellFormed::of_rules(alloc, rules)
}

/// What each rule of the grammar makes, by its number.
#[tactic(none)]
pub fn shapes() -> &'static [Shape]
    ensures shapes { result.now ≡ java_17_shapes }
{
    &SHAPES
}

/// What the rules make. The first one makes the root.
pub fn java_shapes() -> &'static [Shape]
    ensures shapes { result.now ≡ java_17_shapes }
    ensures root { MakesNode (shape_of java_17_shapes 0) }
{
    rules_have_their_numbers();
    shapes()
}
