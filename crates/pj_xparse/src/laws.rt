//! Laws of what texts spell and of their faults, of what tokens read, and of what the expressions look like that they read. The
//! functions do nothing, and their contracts are the laws. A text is a list of characters.

ghost use Rattle.std.specs.Prelude.{IsTrue, List, None, [], length, ℕ, ◌+◌, ◌≡◌, ◌≤◌, ◌⊎◌};
ghost use Rattle.std.specs.Str.{all_scalars};
ghost use Rattle.pj_xtokens.specs.Tokens.{Lexed, Tokens};
ghost use Rattle.pj_xtokens.specs.declared.token.End.{End};
ghost use Rattle.pj_xexpressions.specs.Expressions.{IsExpression};
ghost use Rattle.pj_xexpressions.specs.Trees.{Tree, tree_of};
ghost use Rattle.pj_xexpressions.specs.declared.expr.Expr.{Expr};
ghost use Rattle.pj_ll.specs.Outcome.{IsEnd};
ghost use Rattle.pj_ll.specs.declared.parser.End as outcome;
ghost use Rattle.pj_xgrammar.specs.Terminals.{numbers};
ghost use Rattle.pj_xgrammar.specs.XPath.{greatest_nesting, xpath_grammar};
ghost use Rattle.pj_xderive.specs.Expressions as derived;
ghost use Rattle.pj_xderive.specs.Expressions.{AreClear, AreDerived, CanGoOn, IsRun};
ghost use Rattle.pj_xreadings.specs.Operands.{Operand};
ghost use Rattle.pj_xmeaning.specs.Begun.{AreBegun};
ghost use Rattle.pj_xmeaning.specs.Reads.{AreRead};
ghost use Rattle.pj_xmeaning.specs.SoFar.{SayUpTo};
ghost use Rattle.pj_xreadings.specs.Nesting.{nesting_of_tree};
ghost use Rattle.pj_xreadings.specs.Shapes.{part_of_tree};
ghost use Rattle.pj_xreadings.specs.Spelled.{IsSpelled};
ghost use Rattle.pj_xparse.specs.Faults.{IsFault};
ghost use Rattle.pj_xparse.specs.NameFaults.{first_fault};
ghost use Rattle.pj_xparse.specs.Outcomes.{IsOutcome, IsWhole, SaySoFar};
ghost use Rattle.pj_xparse.specs.Spells.{Spells};
ghost use Rattle.pj_xparse.specs.WellSpelled.{AreWellSpelled};
ghost use Rattle.pj_xparse.specs.declared.fault.XSyntax.{XSyntax};

use pj_ll::{derived_is_not_left_out, one_end};
use pj_xderive::{beginnings_lead, grammar_is_predictive, one_outcome, one_run};
use pj_xmeaning::{depths_are_read, readings_are_whole, what_is_left_out_is_read};
use pj_xreadings::{expressions_have_shapes, nesting_is_least};
use pj_xtokens::{each_text_has_tokens, gaps_stand_in_front, tokens_are_one};

/// A text spells one expression at most.
pub fn one_expression()
    ensures { (variables : List (List ℕ)) (text : List ℕ) (a b : Tree) → Spells variables text a → Spells variables text b → a ≡ b }
{
    one_reading();
    tokens_are_one();
}

/// Each text spells an expression or has a first fault.
pub fn some_answer()
    ensures { (variables : List (List ℕ)) (text : List ℕ) → ((tree : Tree) × Spells variables text tree) ⊎ ((fault : XSyntax) × IsFault variables text fault) }
{
    each_text_has_tokens();
    one_outcome();
    one_run();
    outcomes_are_read();
    runs_say();
}

/// A text that spells an expression has no fault, and each other text has one first fault at most.
pub fn one_answer()
    ensures spelled { (variables : List (List ℕ)) (text : List ℕ) (tree : Tree) (fault : XSyntax) → Spells variables text tree → IsFault variables text fault → ⊥ }
    ensures one_fault { (variables : List (List ℕ)) (text : List ℕ) (a b : XSyntax) → IsFault variables text a → IsFault variables text b → a ≡ b }
{
    one_outcome();
    one_saying();
    outcomes_are_read();
    tokens_are_one();
}

/// What the tokens of a text read, rule by rule, has a leftmost derivation, which nests no deeper than it may.
pub fn readings_are_derivations()
    ensures { (tokens : List Lexed) (a : Operand) → AreRead tokens a → (productions : List ℕ) × AreDerived tokens productions × AreClear tokens (length tokens + 1) }
{
    grammar_is_predictive();
    readings_are_whole();
}

/// Tokens that have a leftmost derivation that nests no deeper than it may are read as something.
pub fn derivations_are_readings()
    ensures { (tokens : List Lexed) (productions : List ℕ) → AreDerived tokens productions → AreClear tokens (length tokens + 1) → (a : Operand) × AreRead tokens a }
{
    pj_xmeaning::runs_say();
}

/// Tokens begin an expression by the grammar exactly where they are read as the beginning of one; and they are one that nests no deeper than it may
/// exactly where they are read as one.
pub fn beginnings_are_read()
    ensures read { (tokens : List Lexed) → CanGoOn tokens → AreBegun tokens }
    ensures begun { (tokens : List Lexed) → AreBegun tokens → CanGoOn tokens }
    ensures whole { (tokens : List Lexed) → derived.IsWhole tokens → IsWhole tokens }
    ensures expression { (tokens : List Lexed) → IsWhole tokens → derived.IsWhole tokens }
{
    beginnings_lead();
    derivations_are_readings();
    pj_xmeaning::beginnings_are_read();
    readings_are_derivations();
}

/// The outcome of tokens by what is read of them is the one that they have by the grammar: all of them are an expression; or the same token, or the end,
/// cannot follow, begins a construct that is left out, or stands where too much is open.
pub fn outcomes_are_read()
    ensures read { (tokens : List Lexed) (end : outcome.End) → derived.IsOutcome tokens end → IsOutcome tokens end }
    ensures led { (tokens : List Lexed) (end : outcome.End) → IsOutcome tokens end → derived.IsOutcome tokens end }
{
    beginnings_are_read();
    depths_are_read();
    derivations_are_readings();
    readings_are_derivations();
    what_is_left_out_is_read();
}

/// As far as tokens are read a run over their terminals goes, and they say the same so far.
pub fn sayings_end_with_runs()
    ensures led { (tokens : List Lexed) (a : Operand) → SaySoFar tokens a → (end : outcome.End) × IsEnd xpath_grammar (numbers tokens) greatest_nesting end × SayUpTo end tokens a }
    ensures say { (tokens : List Lexed) (end : outcome.End) (a : Operand) → IsEnd xpath_grammar (numbers tokens) greatest_nesting end → SayUpTo end tokens a → SaySoFar tokens a }
{
    beginnings_lead();
    depths_are_read();
    derived_is_not_left_out();
    grammar_is_predictive();
    one_end();
    pj_xmeaning::beginnings_are_read();
    pj_xmeaning::runs_say();
    readings_are_whole();
}

/// Where productions derive tokens as far as their terminals go, all of them or those before the first one that cannot follow, is left out or
/// stands where too much is open, the tokens say something so far.
pub fn runs_say()
    ensures { (tokens : List Lexed) (productions : List ℕ) → IsRun tokens productions → (a : Operand) × SaySoFar tokens a }
{
    pj_xmeaning::runs_say();
    sayings_end_with_runs();
}

/// What tokens say as far as they are read is derived by productions so far.
pub fn sayings_are_runs()
    ensures { (tokens : List Lexed) (a : Operand) → SaySoFar tokens a → (productions : List ℕ) × IsRun tokens productions }
{
    pj_xmeaning::sayings_are_runs();
    sayings_end_with_runs();
}

/// Tokens are read as one thing at most.
pub fn one_reading()
    ensures { (tokens : List Lexed) (a b : Operand) → AreRead tokens a → AreRead tokens b → a ≡ b }
{
    grammar_is_predictive();
    pj_xmeaning::one_saying();
    readings_are_whole();
}

/// As far as they are read tokens say one thing at most.
pub fn one_saying()
    ensures { (tokens : List Lexed) (a b : Operand) → SaySoFar tokens a → SaySoFar tokens b → a ≡ b }
{
    grammar_is_predictive();
    one_end();
    pj_xmeaning::one_saying();
    sayings_end_with_runs();
}

/// An expression that is read, whose names have no fault, may be evaluated where the rule set gives these variables; each one nests no deeper
/// than may be, and where its tokens are well spelled, so are its names and literals.
pub fn read_expressions_fit()
    ensures fits { (tokens : List Lexed) (a : Operand) (variables : List (List ℕ)) → AreRead tokens a → first_fault variables a.names ≡ None →
        IsTrue ((part_of_tree a.tree).fits (record { given = variables; bound = [] })) }
    ensures nesting { (tokens : List Lexed) (a : Operand) → AreRead tokens a → nesting_of_tree a.tree ≤ 200 }
    ensures spelled { (tokens : List Lexed) (a : Operand) → AreWellSpelled tokens → AreRead tokens a → IsSpelled a.tree }
{}

/// The tokens of every text are well spelled.
pub fn tokens_are_well_spelled()
    ensures { (total : ℕ) (text : List ℕ) (tokens : List Lexed) (end : End) → IsTrue (all_scalars text) → Tokens total text tokens end → AreWellSpelled tokens }
{
    gaps_stand_in_front();
}

/// What is read of tokens, where no name has a fault, is an expression.
pub fn readings_are_expressions()
    ensures { (variables : List (List ℕ)) (tokens : List Lexed) (a : Operand) (e : Expr) → AreRead tokens a → first_fault variables a.names ≡ None →
        tree_of e ≡ a.tree → IsExpression variables e }
{
    expressions_have_shapes();
    nesting_is_least();
    read_expressions_fit();
}
