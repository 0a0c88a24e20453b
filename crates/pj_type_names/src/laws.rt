//! Laws of names of types at a place, each the contract of a call that does nothing.
ghost use Rattle.std.specs.Prelude.{ℕ, List};
ghost use Rattle.pj_names.specs.Asking.{Asking};
ghost use Rattle.pj_names.specs.JavaType.{JavaType};
ghost use Rattle.pj_symbols.specs.declared.class.Class.{Class as DeclaredClass};
ghost use Rattle.pj_type_names.specs.Resolved.{ArgumentsEnd};
ghost use Rattle.pj_names.specs.ClassName.{Name};
ghost use Rattle.pj_names.specs.Meaning.{Source, Agrees};
ghost use Rattle.pj_tree.specs.Tree.{Tree};
ghost use Rattle.pj_tree.specs.declared.node.Node.{Node};
ghost use Rattle.pj_type_names.specs.TypeName.{AsksOthersAlone, HeadersEnd, type_name, written_bound, written_type};

/// Agreement: what a name or a written type means over one source of answers, it means over every source that answers alike the
/// names that were asked.
pub fn sources_agree()
    ensures names { (first second : Source) (t : Tree) (place : Node) (text : List ℕ) → Agrees first second (type_name t place text) }
    ensures written { (first second : Source) (t : Tree) (busy : List ℕ) (behind : ℕ) (n : Node) → Agrees first second (written_type t busy behind n) }
    ensures bounds { (first second : Source) (t : Tree) (busy : List ℕ) (n : Node) → Agrees first second (written_bound t busy n) }
{}

/// The number that bounds how many headers are entered within one another is never reached: with a larger one a class has the same
/// direct supertypes, and the same names are asked.
pub fn headers_end()
    ensures { (t : Tree) (busy : List ℕ) (name : Name) → HeadersEnd t busy name }
{}

/// No class of the file is asked. So over an oracle that answers the classes of the file by meanings of their own, as the oracle of the file does, a name
/// and a written type mean what they mean over the oracle beneath.
pub fn others_are_asked()
    ensures names { (t : Tree) (place : Node) (text : List ℕ) → AsksOthersAlone t (type_name t place text) }
    ensures written { (t : Tree) (busy : List ℕ) (behind : ℕ) (n : Node) → AsksOthersAlone t (written_type t busy behind n) }
    ensures bounds { (t : Tree) (busy : List ℕ) (n : Node) → AsksOthersAlone t (written_bound t busy n) }
{}

/// The number by which lists of type arguments in one another are counted is never reached by a type that fits: with a larger one it is the same type, and the same
/// names are asked, whatever simple names and member classes are.
pub fn arguments_end()
    ensures { (t : Tree) (classes : List DeclaredClass) (simple : Node → List ℕ → Asking JavaType) (member : Name → List ℕ → Asking JavaType) (around : ℕ) (n : Node) → ArgumentsEnd t classes simple member around n }
{}
