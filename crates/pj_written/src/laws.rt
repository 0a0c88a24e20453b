//! Laws of written types, each the contract of a call that does nothing.
ghost use Rattle.std.specs.Prelude.{ℕ, ◌<◌, length};
ghost use Rattle.pj_tree.specs.Tree.{IsSyntaxTree, Tree};
ghost use Rattle.pj_tree.specs.declared.node.Node.{Node};
ghost use Rattle.pj_written.specs.Fits.{FitsEnd};
ghost use Rattle.pj_written.specs.Written.{WrittenEnd};

/// The number by which lists of type arguments in one another are counted is never reached: with a larger one a type fits just as well.
pub fn fits_end()
    ensures { (t : Tree) (around : ℕ) (n : Node) → FitsEnd t around n }
{}

/// The number by which class types in one another are counted is never reached: with a larger one a class type of a syntax tree has the same name.
pub fn written_names_end()
    ensures { (t : Tree) → IsSyntaxTree t → (n : Node) → n.0 < length t.nodes → WrittenEnd t n }
{}
