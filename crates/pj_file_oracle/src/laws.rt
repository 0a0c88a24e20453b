//! A law of what the oracle of a file answers, the contract of a call that does nothing.
ghost use Rattle.pj_file_oracle.specs.FileAnswer.{file_answer};
ghost use Rattle.pj_names.specs.ClassName.{Name};
ghost use Rattle.pj_names.specs.Meaning.{Agrees, Source};
ghost use Rattle.pj_tree.specs.Tree.{Tree};

/// Agreement: what the oracle of a file answers for a name over one source of answers, it answers over every source that answers alike the
/// names that were asked.
pub fn sources_agree()
    ensures { (first second : Source) (t : Tree) (name : Name) → Agrees first second (file_answer t name) }
{}
