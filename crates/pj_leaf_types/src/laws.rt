//! A law of types of nodes, the contract of a call that does nothing.

ghost use Rattle.std.specs.Prelude.{Option};
ghost use Rattle.pj_names.specs.Meaning.{Source, Agrees};
ghost use Rattle.pj_tree.specs.Tree.{Tree};
ghost use Rattle.pj_tree.specs.declared.kind.Kind.{Kind};
ghost use Rattle.pj_tree.specs.declared.node.Node.{Node};
ghost use Rattle.pj_leaf_types.specs.Leaves.{leaf_by};
ghost use Rattle.pj_leaf_types.specs.Variables.{declared_by as written_by};

/// Agreement: the type of a node, and the one that the declaration of a variable writes, are, over one source of answers, what they are over every source that
/// answers alike the names that were asked.
pub fn sources_agree()
    ensures nodes { (first second : Source) (t : Tree) (n : Node) (kind : Option Kind) → Agrees first second (leaf_by t n kind) }
    ensures variables { (first second : Source) (t : Tree) (id declaration : Node) → Agrees first second (written_by t id declaration) }
{}
