//! Laws of the definitions. The functions do nothing, and their contracts are the laws.
ghost use Rattle.pj_rules.specs.Laws.{MarkupOrFault, OneFirstFault, OneList, OneSet, ReadOrFault, RulesAreSound, RulesOrFault};

use pj_markup::one_reading;
use pj_rule_sets::{one_fault, sound_or_fault};

/// Each text is markup or has a fault, and what stands under a path is read as a ruleset or has a fault.
pub fn files_are_read()
    ensures markup { MarkupOrFault }
    ensures files { ReadOrFault }
{}

/// A file has one list of rules at most, and the files that are named have one set of rules at most.
pub fn one_set()
    ensures list { OneList }
    ensures set { OneSet }
{
    one_reading();
}

/// The files that are named do not have both a set of rules and a first fault.
pub fn rules_or_fault()
    ensures { RulesOrFault }
{
    one_reading();
    sound_or_fault();
}

/// The files that are named have one first fault at most.
pub fn one_first_fault()
    ensures { OneFirstFault }
{
    one_reading();
    sound_or_fault();
    one_fault();
}

/// The rules that files come to can be used.
pub fn rules_are_sound()
    ensures { RulesAreSound }
{}
