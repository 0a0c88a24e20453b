//! Laws of outcomes. The functions do nothing, and their contracts are the laws.

ghost use Rattle.std.specs.Prelude.{◌++◌, ◌≡◌, ◌≤◌, ℕ, List, length};
ghost use Rattle.pj_ll.specs.declared.parser.End.{End};
ghost use Rattle.pj_ll.specs.Grammar.{Entry, grammar_of};
ghost use Rattle.pj_ll.specs.Leads as leads;
ghost use Rattle.pj_ll.specs.Outcome as terminals;
ghost use Rattle.pj_ll.specs.Outcome.{LeadBehind};
ghost use Rattle.pj_ll.specs.Predictive.{RuleFacts, IsPredictive};
ghost use Rattle.pj_xtokens.specs.Tokens.{Lexed};
ghost use Rattle.pj_xgrammar.specs.Terminals.{numbers};
ghost use Rattle.pj_xgrammar.specs.XPath.{greatest_nesting, xpath_grammar};
ghost use Rattle.pj_xderive.specs.Expressions.{AreDerived, CanGoOn, IsOutcome, IsRun, LeadBehindFirst, place_of};

use pj_ll::{one_end, tested_tables_are_predictive};

/// Each list of tokens has one outcome: it is an expression, or it has one first fault.
pub fn one_outcome()
    ensures at_most { (tokens : List Lexed) (a b : End) → IsOutcome tokens a → IsOutcome tokens b → a ≡ b }
    ensures some { (tokens : List Lexed) → (end : End) × IsOutcome tokens end }
{
    grammar_is_predictive();
    one_end();
}

/// The tokens of an expression have one leftmost derivation: the grammar is not ambiguous.
pub fn one_derivation()
    ensures { (tokens : List Lexed) (ps qs : List ℕ) → AreDerived tokens ps → AreDerived tokens qs → ps ≡ qs }
{
    grammar_is_predictive();
    pj_ll::one_derivation();
}

/// The tokens have one list of productions that derive them as far as their terminals go.
pub fn one_run()
    ensures some { (tokens : List Lexed) → (productions : List ℕ) × IsRun tokens productions }
    ensures at_most { (tokens : List Lexed) (ps qs : List ℕ) → IsRun tokens ps → IsRun tokens qs → ps ≡ qs }
{
    grammar_is_predictive();
    pj_ll::one_derivation();
    one_end();
}

/// The run of the parser over the terminals of tokens ends where the tokens have their fault, or before it.
pub fn runs_end_before_faults()
    ensures { (tokens : List Lexed) (fault end : End) → IsOutcome tokens fault → terminals.IsEnd xpath_grammar (numbers tokens) greatest_nesting end →
        place_of tokens end ≤ place_of tokens fault }
{
    grammar_is_predictive();
    one_end();
}

/// Tokens begin an expression exactly where productions lead behind their terminals, as these are before some other tokens; and terminals begin one exactly
/// where productions lead behind them.
pub fn beginnings_lead()
    ensures led { (tokens : List Lexed) → CanGoOn tokens → (more : List Lexed) × ((productions : List ℕ) × LeadBehindFirst (tokens ++ more) (length tokens) productions) }
    ensures begun { (tokens more : List Lexed) (productions : List ℕ) → LeadBehindFirst (tokens ++ more) (length tokens) productions → CanGoOn tokens }
    ensures terminals_led { (before : List ℕ) → leads.CanGoOn xpath_grammar before → (productions : List ℕ) × LeadBehind xpath_grammar before productions }
    ensures terminals_begun { (before productions : List ℕ) → LeadBehind xpath_grammar before productions → leads.CanGoOn xpath_grammar before }
{}

/// The grammar is LL(1): with some select sets its predictive parser is exact.
pub fn grammar_is_predictive()
    ensures { (facts : List RuleFacts) × ((entries : List Entry) × (grammar_of entries ≡ xpath_grammar) × IsPredictive facts entries) }
{
    tested_tables_are_predictive();
}
