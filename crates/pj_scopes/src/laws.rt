//! A law of names over the oracle of a file, the contract of a call that does nothing.
ghost use Rattle.std.specs.Prelude.{ℕ, List};
ghost use Rattle.pj_names.specs.Expand.{expand};
ghost use Rattle.pj_names.specs.Meaning.{Source, Agrees};
ghost use Rattle.pj_tree.specs.Tree.{Tree};
ghost use Rattle.pj_tree.specs.declared.node.Node.{Node};
ghost use Rattle.pj_file_oracle.specs.FileAnswer.{file_answer};
ghost use Rattle.pj_scopes.specs.VariableName.{variable_name as variable_of};

/// Agreement: the variable that a name means over the oracle of a file is, over one source of answers, what it is over every source that
/// answers alike the names that were asked of the oracle beneath.
pub fn sources_agree()
    ensures { (first second : Source) (t : Tree) (place : Node) (name : List ℕ) → Agrees first second (expand (file_answer t) (variable_of t place name)) }
{}
