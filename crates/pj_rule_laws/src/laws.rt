//! Laws of the definitions. The functions do nothing, and their contracts are the laws.
ghost use Rattle.pj_rule_laws.specs.Laws.{HavePriorities, ReadIsShort, RulesOrFirstFault, SoundOrSomeFault};

use pj_rules::files_are_read;
use pj_xparse::some_answer;
use pj_xsizes::some_expression;

/// The values of properties in a ruleset that is read, of which one may be the `xpath` of a rule, have at most four bytes for each byte that a
/// ruleset may have.
pub fn read_texts_are_short()
    ensures { ReadIsShort }
{}

/// Texts of a rule that are so short make a rule that can be used, or they have a fault, which is not want of memory.
pub fn short_texts_are_sound_or_not()
    ensures { SoundOrSomeFault }
{
    some_answer();
    some_expression();
}

/// The ruleset files that are named come to rules, or they have a first fault. A reference leads to a file that is not open, or it has the fault
/// `RefCycle`, and a tree of files has so many files only: so the reading ends.
pub fn rules_or_first_fault()
    ensures { RulesOrFirstFault }
{
    files_are_read();
    read_texts_are_short();
    short_texts_are_sound_or_not();
}

/// The rules that the ruleset files come to have priorities from 1 to 5, also where a reference changes them.
pub fn rules_have_priorities()
    ensures { HavePriorities }
{}
