//! Loading rulesets.
ghost use Rattle.std.specs.Prelude.{◌≡◌, ◌≢◌, ◌≤◌, map, Err, IfOk, IfErr, IfSome};
ghost use Rattle.pj_rules.specs.Gathering.{IsTooMany};
ghost use Rattle.pj_rules.specs.Load.{IsEffective, count_of, effective, greatest_count};
ghost use Rattle.pj_rules.specs.Counts.{CountsFaults};
ghost use Rattle.pj_rules.specs.Outcome.{IsRefused};
ghost use Rattle.pj_rules.specs.States.{top_rules};

use crate::counting::count_of;
use crate::fault::RuleRefused;
use crate::gathering::{Gathered, gather};
use crate::top::{Top, read_tops};
use pj_base::{Copied, ListOf, Names, Text};
use pj_outside::Tree;
use pj_rule_sets::RuleSet;
use std::alloc::Global;

/// How many rules there may be, unusable ones included.
const GREATEST_COUNT: u32 = 2_000;

/// The set of the rules of top rulesets, where there are not too many.
fn set_of(
    alloc: Global,
    minimum: u8,
    marker: &Text,
    tops: ListOf<Top>,
) -> Result<RuleSet, RuleRefused>
    ensures set { IfOk result (λ set. set ≡ effective minimum marker.now (map top_rules tops)) }
    ensures few { IfOk result (λ set. count_of set ≤ greatest_count) }
    ensures many { IfErr result (IsTooMany (effective minimum marker.now (map top_rules tops))) }
{
    let count = count_of(minimum, tops.as_slice())?;
    if count > GREATEST_COUNT {
        return Err(RuleRefused::TooManyRules(count));
    }
    let Gathered { rules, unusable } = gather(alloc, minimum, tops)?;
    let marker = marker.copied()?;
    Ok(RuleSet::of(rules, unusable, marker))
}

/// Loads the rulesets of the paths that are named: their rules of a priority number that is not above the minimum, with the rules that
/// they refer to, or the first fault in the order of reading.
///
/// `TooManyRules` comes exactly where there is no fault and the rules are more than 2,000, those that cannot be used included. `Failed`
/// comes only where the tree's count rose.
pub fn load<T: Tree>(
    alloc: Global,
    tree: &mut T,
    paths: &Names,
    minimum: u8,
    marker: &Text,
) -> Result<RuleSet, RuleRefused>
    ensures same_files { T.holds tree.new ≡ T.holds tree.old }
    ensures counts_faults { CountsFaults (T.faults tree.old) (T.faults tree.new) result }
    ensures steady { T.never_fails tree.old → T.never_fails tree.new × (result ≢ Err RuleRefused.Failed) }
    ensures rules { IfSome (T.holds tree.old) (λ files. IfOk result (IsEffective files paths.now minimum marker.now)) }
    ensures few { IfOk result (λ rules. count_of rules ≤ greatest_count) }
    ensures refused { IfSome (T.holds tree.old) (λ files. IfErr result (IsRefused files paths.now minimum marker.now)) }
{
    let tops = read_tops(alloc, tree, paths)?;
    let set = set_of(alloc, minimum, marker, tops)?;
    Ok(set)
}
