//! Laws of derivations, of runs and of tables. The functions do nothing, and their contracts are the laws.

ghost use Rattle.std.specs.Prelude.{◌≡◌, ℕ, IsTrue, List};
ghost use Rattle.pj_ll.specs.declared.grammar.Symbol.{Symbol};
ghost use Rattle.pj_ll.specs.declared.parser.End.{End};
ghost use Rattle.pj_ll.specs.Grammar.{Entry, Grammar, grammar_of};
ghost use Rattle.pj_ll.specs.Leads.{Behind, Derives};
ghost use Rattle.pj_ll.specs.Outcome.{IsEnd, IsLeftOutAt};
ghost use Rattle.pj_ll.specs.Predictive.{RuleFacts, IsPredictive};
ghost use Rattle.pj_ll.specs.Test.{predictive_by};

/// One derivation: in a predictive grammar a list of terminals has one leftmost derivation at most, and the productions that
/// are used up to the last terminal of a beginning are determined by it.
pub fn one_derivation()
    ensures whole { (facts : List RuleFacts) (entries : List Entry) (terminals ps qs : List ℕ) → IsPredictive facts entries →
        Derives (grammar_of entries) terminals ps → Derives (grammar_of entries) terminals qs → ps ≡ qs }
    ensures beginning { (facts : List RuleFacts) (entries : List Entry) (before ps qs : List ℕ) (ss ends : List Symbol) → IsPredictive facts entries →
        Behind (grammar_of entries) before ps ss → Behind (grammar_of entries) before qs ends → (ps ≡ qs) × (ss ≡ ends) }
{}

/// One end: a run of the parser over a list of terminals ends in one way at most, in every grammar, and in one way in a
/// predictive grammar.
pub fn one_end()
    ensures at_most { (g : Grammar) (terminals : List ℕ) (deepest : ℕ) (a b : End) → IsEnd g terminals deepest a → IsEnd g terminals deepest b → a ≡ b }
    ensures some { (facts : List RuleFacts) (entries : List Entry) (terminals : List ℕ) (deepest : ℕ) → IsPredictive facts entries →
        (end : End) × IsEnd (grammar_of entries) terminals deepest end }
{}

/// In what a predictive grammar derives nothing is left out: at no place does a construct begin there that the language leaves out.
pub fn derived_is_not_left_out()
    ensures { (facts : List RuleFacts) (entries : List Entry) (terminals ps : List ℕ) (i : ℕ) → IsPredictive facts entries →
        Derives (grammar_of entries) terminals ps → ¬ IsLeftOutAt (grammar_of entries) terminals i }
{}

/// A table of productions that passes the test is predictive.
pub fn tested_tables_are_predictive()
    ensures { (facts : List RuleFacts) (entries : List Entry) → IsTrue (predictive_by facts entries) → IsPredictive facts entries }
{}
