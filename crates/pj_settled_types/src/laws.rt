//! Laws of the definitions, each the contract of a call that does nothing.
ghost use Rattle.std.specs.Prelude.{List, Option};
ghost use Rattle.pj_exprtypes.specs.Chosen.{chosen_pair};
ghost use Rattle.pj_exprtypes.specs.TypeOf.{type_of};
ghost use Rattle.pj_javafuncs.specs.Facts.{Facts};
ghost use Rattle.pj_javafuncs.specs.Replies.{reply};
ghost use Rattle.pj_settling.specs.Settling.{FindsFinitely, Settles, World};
ghost use Rattle.pj_tree.specs.Tree.{Tree};
ghost use Rattle.pj_tree.specs.declared.node.Node.{Node};
ghost use Rattle.pj_xexpressions.specs.declared.pmd_function.PmdFunction.{PmdFunction};
ghost use Rattle.pj_xvalue.specs.Items.{ItemValue};

/// In a world that finds finitely many classes the type of a node comes to something, and so does what a node calls.
pub fn types_of_nodes_settle()
    ensures types { (world : World) (tree : Tree) (n : Node) → FindsFinitely world → Settles world (type_of tree n) }
    ensures chosen { (world : World) (tree : Tree) (n : Node) → FindsFinitely world → Settles world (chosen_pair tree n) }
{}

/// So does what each of PMD's functions replies, whatever it is called with.
pub fn replies_settle()
    ensures { (world : World) (tree : Tree) (known : Facts) (function : PmdFunction) (place : Option Node) (arguments : List (List ItemValue)) → FindsFinitely world → Settles world (reply known tree function place arguments) }
{}
