//! Laws of the grammar. The functions do nothing, and their contracts are the laws.

ghost use Rattle.std.specs.Prelude.{◌≡◌, ◌<◌, Some, length, slice_get};
ghost use Rattle.pj_xgrammar.specs.declared.rule.Rule.{Rule};
ghost use Rattle.pj_xgrammar.specs.declared.terminal.Terminal.{Terminal};
ghost use Rattle.pj_xgrammar.specs.Notation.{rule_number};
ghost use Rattle.pj_xgrammar.specs.Terminals.{terminal_number};
ghost use Rattle.pj_xgrammar.specs.XPath.{rules, xpath_grammar};

/// Each rule stands at its number, and there are 159 productions.
pub fn rules_have_their_numbers()
    ensures rules { (rule : Rule) → slice_get rules (rule_number rule) ≡ Some rule }
    ensures count { length xpath_grammar ≡ 159 }
{}

/// Two terminals have two numbers, below 75.
pub fn terminals_have_their_numbers()
    ensures one { (a b : Terminal) → terminal_number a ≡ terminal_number b → a ≡ b }
    ensures most { (a : Terminal) → terminal_number a < 75 }
{}
