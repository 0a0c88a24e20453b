//! Laws of calls, each the contract of a call that does nothing.

ghost use Rattle.std.specs.Prelude.{◌≡◌, ℕ, IsTrue, Option, None, Some, is_some, slice_get, List};
ghost use Rattle.pj_names.specs.declared.answer.Answer.{Answer};
ghost use Rattle.pj_names.specs.Asking.{Asking, Return, value_of};
ghost use Rattle.pj_names.specs.ClassName.{Name};
ghost use Rattle.pj_names.specs.JavaType.{JavaType, Unknown};
ghost use Rattle.pj_names.specs.Meaning.{Source, Agrees};
ghost use Rattle.pj_tree.specs.Tree.{Tree, kind_of};
ghost use Rattle.pj_tree.specs.declared.kind.Kind.TheVariants as k;
ghost use Rattle.pj_tree.specs.declared.node.Node.{Node};
ghost use Rattle.pj_types.specs.Members.{FoundMethod};
ghost use Rattle.pj_overload.specs.declared.choice.Choice.TheVariants.{One, None as NoMethod, Tie};
ghost use Rattle.pj_overload.specs.Choosing.{choose as choice_of};
ghost use Rattle.pj_calls.specs.Candidates.{Candidates as CandidatesOf, candidates_of as candidates_at};
ghost use Rattle.pj_calls.specs.Calls.{chosen};
ghost use Rattle.pj_calls.specs.Choosing.{chosen_among as chosen_of, chosen_as};

use pj_overload::one_is_a_candidate;

/// Agreement: the candidates of a call, and what is chosen among them, are, over one source of answers, what they are over every source that answers alike the names that were asked. So is what a
/// call comes to, whatever the types of nodes are.
pub fn sources_agree()
    ensures candidates { (first second : Source) (t : Tree) (n : Node) (receiver : Option JavaType) → Agrees first second (candidates_at t n receiver) }
    ensures choice { (first second : Source) (candidates : CandidatesOf) (arguments : List JavaType) (functions : List ℕ) → Agrees first second (chosen_of candidates arguments functions) }
    ensures calls { (first second : Source) (t : Tree) (type_of : Node → Asking JavaType) (n : Node) → Agrees first second (chosen t type_of n) }
{}

/// Of a receiver that is not known there is no candidate, and nothing is asked.
pub fn unknown_receivers()
    ensures { (t : Tree) (n : Node) → kind_of t n ≡ Some k.MethodCall → candidates_at t n (Some Unknown) ≡ Return None }
{}

/// A method is chosen exactly where the choice among the candidates is one of them, and it is that one.
pub fn one_is_chosen()
    ensures one { (depth : ℕ) (world : Name → Answer) (candidates : CandidatesOf) (arguments : List JavaType) (functions : List ℕ) (number : ℕ) → value_of depth world (choice_of candidates.methods arguments functions) ≡ One number
        → IsTrue (is_some (value_of depth world (chosen_of candidates arguments functions))) }
    ensures method { (depth : ℕ) (world : Name → Answer) (candidates : CandidatesOf) (arguments : List JavaType) (functions : List ℕ) (number : ℕ) (method : FoundMethod) → value_of depth world (choice_of candidates.methods arguments functions) ≡ One number
        → slice_get candidates.methods number ≡ Some method → value_of depth world (chosen_of candidates arguments functions) ≡ Some (chosen_as candidates.receiver arguments method) }
    ensures none { (depth : ℕ) (world : Name → Answer) (candidates : CandidatesOf) (arguments : List JavaType) (functions : List ℕ) → value_of depth world (choice_of candidates.methods arguments functions) ≡ NoMethod
        → value_of depth world (chosen_of candidates arguments functions) ≡ None }
    ensures tie { (depth : ℕ) (world : Name → Answer) (candidates : CandidatesOf) (arguments : List JavaType) (functions : List ℕ) → value_of depth world (choice_of candidates.methods arguments functions) ≡ Tie
        → value_of depth world (chosen_of candidates arguments functions) ≡ None }
{
    one_is_a_candidate();
}
