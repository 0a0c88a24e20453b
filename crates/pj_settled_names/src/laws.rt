//! Laws of the definitions, each the contract of a call that does nothing.
ghost use Rattle.std.specs.Prelude.{ℕ, List};
ghost use Rattle.pj_file_oracle.specs.FileAnswer.{file_answer};
ghost use Rattle.pj_names.specs.Asking.{Asking};
ghost use Rattle.pj_names.specs.ClassName.{Name};
ghost use Rattle.pj_names.specs.Expand.{expand};
ghost use Rattle.pj_settling.specs.Settling.{FindsFinitely, Settles, World};
ghost use Rattle.pj_tree.specs.Tree.{Tree};
ghost use Rattle.pj_tree.specs.declared.node.Node.{Node};
ghost use Rattle.pj_type_names.specs.TypeName.{supers_of, type_name, written_type};

/// In a world that finds finitely many classes these come to something: the direct supertypes of a class of a file, what a name of a type means at a place, and the
/// type that is written in a node.
pub fn names_of_types_settle()
    ensures supertypes { (world : World) (tree : Tree) (busy : List ℕ) (name : Name) → FindsFinitely world → Settles world (supers_of tree busy name) }
    ensures names { (world : World) (tree : Tree) (place : Node) (text : List ℕ) → FindsFinitely world → Settles world (type_name tree place text) }
    ensures written { (world : World) (tree : Tree) (busy : List ℕ) (behind : ℕ) (n : Node) → FindsFinitely world → Settles world (written_type tree busy behind n) }
{}

/// So does what a class of a file answers.
pub fn file_answers_settle()
    ensures { (world : World) (tree : Tree) (name : Name) → FindsFinitely world → Settles world (file_answer tree name) }
{}

/// So does a meaning in which the classes of a file answer by their declarations, if it does in each such world.
pub fn types_in_files_settle<T>()
    ensures { (world : World) (tree : Tree) (meaning : Asking T) → FindsFinitely world → ((above : World) → FindsFinitely above → Settles above meaning) → Settles world (expand (file_answer tree) meaning) }
{}
