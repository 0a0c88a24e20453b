//! Laws of the definitions, each the contract of a function that does nothing.
ghost use Rattle.pj_cold.specs.Laws.{SetSettlesByReplies, SetSettlesWithoutTypes, SomeReport};

use pj_rules::rules_are_sound;
use pj_workers::{settled_cold_report, what_rules_mean_settles};

/// The rules that rulesets come to have a cold report of every list of sources, where what they mean comes to something.
pub fn rules_have_reports()
    ensures { SomeReport }
{
    rules_are_sound();
    settled_cold_report();
}

/// What the rules of a set mean at sources comes to something over a world of classes, if what the functions of PMD that they call reply in these sources does: so
/// it is over every world of rules that call none of `typeIs`, `typeIsExactly`, `hasAnnotation` and `matchesSig`.
pub fn what_sets_mean_settles()
    ensures replies { SetSettlesByReplies }
    ensures without_types { SetSettlesWithoutTypes }
{
    what_rules_mean_settles();
}
