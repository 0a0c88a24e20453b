//! Laws of the grammar. The functions do nothing, and their contracts are the laws.

ghost use Rattle.std.specs.Prelude.{◌≡◌, ◌<◌, Some, length, slice_get};
ghost use Rattle.pj_peg_grammar.specs.WellFormed.{IsWellFormed};
ghost use Rattle.pj_shape.specs.Shaped.{shape_of};
ghost use Rattle.pj_shape.specs.ShapedTree.{MakesNode};
ghost use Rattle.pj_grammar.specs.declared.rule.Rule.{Rule};
ghost use Rattle.pj_grammar.specs.declared.rule.Rule.TheVariants.{Unit};
ghost use Rattle.pj_grammar.specs.declared.terminal.Terminal.{Terminal};
ghost use Rattle.pj_grammar.specs.Notation.{rule_number};
ghost use Rattle.pj_grammar.specs.Terminal.{terminal_number};
ghost use Rattle.pj_grammar.specs.Java17.{java_17, java_17_forms, java_17_shapes};

/// Each rule stands at its number, and there are 179.
pub fn rules_have_their_numbers()
    ensures count { length java_17_forms ≡ 179 }
    ensures forms { (name : Rule) → slice_get java_17_forms (rule_number name) ≡ Some (java_17 name).form }
    ensures shapes { (name : Rule) → slice_get java_17_shapes (rule_number name) ≡ Some (java_17 name).makes }
{}

/// The grammar is well-formed, so each rule has one outcome at each place of each text.
pub fn grammar_is_well_formed()
    ensures well_formed { IsWellFormed java_17_forms }
{}

/// The first rule, a whole file, makes one node.
pub fn file_is_one_node()
    ensures file { rule_number Unit ≡ 0 }
    ensures node { MakesNode (shape_of java_17_shapes 0) }
{}

/// Two terminals have two numbers, below 113.
pub fn terminals_have_their_numbers()
    ensures one { (a b : Terminal) → terminal_number a ≡ terminal_number b → a ≡ b }
    ensures most { (a : Terminal) → terminal_number a < 113 }
{}
