//! Laws of replies, each the contract of a call that does nothing.

ghost use Rattle.std.specs.Prelude.{List, Option};
ghost use Rattle.pj_names.specs.Expand.{expand};
ghost use Rattle.pj_names.specs.Meaning.{Source, Agrees};
ghost use Rattle.pj_tree.specs.Tree.{Tree};
ghost use Rattle.pj_tree.specs.declared.node.Node.{Node};
ghost use Rattle.pj_xexpressions.specs.declared.pmd_function.PmdFunction.{PmdFunction};
ghost use Rattle.pj_xvalue.specs.Items.{ItemValue};
ghost use Rattle.pj_file_oracle.specs.FileAnswer.{file_answer};
ghost use Rattle.pj_javafuncs.specs.Facts.{Facts};
ghost use Rattle.pj_javafuncs.specs.Replies.{reply};

/// Agreement: a reply over the oracle of a file is, over one source of answers, what it is over every source that answers alike the names that were asked of the
/// oracle beneath.
pub fn sources_agree()
    ensures { (first second : Source) (known : Facts) (t : Tree) (function : PmdFunction) (at : Option Node) (arguments : List (List ItemValue)) → Agrees first second (expand (file_answer t) (reply known t function at arguments)) }
{}
