//! What the productions of derivations say, and what tokens say, are the same. The functions do nothing, and their contracts are the laws.

ghost use Rattle.std.specs.Prelude.{◌≡◌, ◌≤◌, ℕ, List, length, take};
ghost use Rattle.pj_ll.specs.Outcome.{IsEnd, IsLeftOutAt, IsTooDeepAt, IsWhole, LeadBehind, LeadTo};
ghost use Rattle.pj_ll.specs.declared.parser.End.{End};
ghost use Rattle.pj_xtokens.specs.Tokens.{Lexed};
ghost use Rattle.pj_xgrammar.specs.Predictive.{IsPredictiveXPath};
ghost use Rattle.pj_xgrammar.specs.Terminals.{numbers};
ghost use Rattle.pj_xgrammar.specs.XPath.{greatest_nesting, xpath_grammar};
ghost use Rattle.pj_xreadings.specs.Operands.{Operand};
ghost use Rattle.pj_xmeaning.specs.Begun.{BeginsLeftOut, NestsTooDeep, SayTo};
ghost use Rattle.pj_xmeaning.specs.Reach.{Plain};
ghost use Rattle.pj_xmeaning.specs.Reads.{AreRead};
ghost use Rattle.pj_xmeaning.specs.SoFar.{SayUpTo};
ghost use Rattle.pj_xmeaning.specs.Values.{said};

use pj_ll::{derived_is_not_left_out, one_derivation};
use pj_xgrammar::rules_have_their_numbers;

/// What is made of the productions of a run over the terminals of tokens is what the tokens say as far as it goes.
pub(crate) fn made_is_said()
    ensures { (end : End) (tokens : List Lexed) (productions : List ℕ) → IsEnd xpath_grammar (numbers tokens) greatest_nesting end →
        LeadTo xpath_grammar (numbers tokens) productions end → SayUpTo end tokens (said productions tokens) }
{
    rules_have_their_numbers();
}

/// As far as a run over the terminals of tokens goes, they say something.
pub fn runs_say()
    ensures { (end : End) (tokens : List Lexed) (productions : List ℕ) → IsEnd xpath_grammar (numbers tokens) greatest_nesting end →
        LeadTo xpath_grammar (numbers tokens) productions end → (a : Operand) × SayUpTo end tokens a }
{
    made_is_said();
}

/// What tokens say as far as a run over their terminals goes has productions that lead there.
pub fn sayings_are_runs()
    ensures { (end : End) (tokens : List Lexed) (a : Operand) → IsEnd xpath_grammar (numbers tokens) greatest_nesting end → SayUpTo end tokens a →
        (productions : List ℕ) × LeadTo xpath_grammar (numbers tokens) productions end }
{
    rules_have_their_numbers();
}

/// The tokens before a place, which productions lead behind, are read as the beginning of an expression, and productions lead behind what is
/// read so.
pub fn beginnings_are_read()
    ensures read { (tokens : List Lexed) (i : ℕ) (productions : List ℕ) → i ≤ length tokens → LeadBehind xpath_grammar (take i (numbers tokens)) productions →
        (a : Operand) × SayTo Plain tokens i a }
    ensures led { (tokens : List Lexed) (i : ℕ) (a : Operand) → i ≤ length tokens → SayTo Plain tokens i a →
        (productions : List ℕ) × LeadBehind xpath_grammar (take i (numbers tokens)) productions }
{
    rules_have_their_numbers();
}

/// Where more is open behind the terminals of tokens than may be, it is read so, and where it is read so, more is open.
pub fn depths_are_read()
    ensures read { (tokens : List Lexed) (i : ℕ) → i ≤ length tokens → IsTooDeepAt xpath_grammar (numbers tokens) greatest_nesting i → NestsTooDeep tokens i }
    ensures led { (tokens : List Lexed) (i : ℕ) → i ≤ length tokens → NestsTooDeep tokens i → IsTooDeepAt xpath_grammar (numbers tokens) greatest_nesting i }
{
    rules_have_their_numbers();
}

/// Where productions lead to a construct that is left out, its first token is read so, and where it is read so, productions lead to it.
pub fn what_is_left_out_is_read()
    ensures read { (tokens : List Lexed) (i : ℕ) → IsLeftOutAt xpath_grammar (numbers tokens) i → BeginsLeftOut tokens i }
    ensures led { (tokens : List Lexed) (i : ℕ) → BeginsLeftOut tokens i → IsLeftOutAt xpath_grammar (numbers tokens) i }
{
    rules_have_their_numbers();
}

/// As far as a run over the terminals of tokens goes, they say one thing at most, where the grammar is predictive.
pub fn one_saying()
    ensures { (end : End) (tokens : List Lexed) (a b : Operand) → IsPredictiveXPath → IsEnd xpath_grammar (numbers tokens) greatest_nesting end →
        SayUpTo end tokens a → SayUpTo end tokens b → a ≡ b }
{
    one_derivation();
    rules_have_their_numbers();
}

/// The terminals of tokens that are read whole are a sentence, in which nothing is left out or nests too deep, where the grammar is predictive.
pub fn readings_are_whole()
    ensures { (tokens : List Lexed) (a : Operand) → IsPredictiveXPath → AreRead tokens a → IsWhole xpath_grammar (numbers tokens) greatest_nesting }
{
    derived_is_not_left_out();
    one_derivation();
    rules_have_their_numbers();
}
