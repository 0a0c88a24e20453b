//! Counting rules.
ghost use Rattle.std.specs.Prelude.{◌≡◌, ◌+◌, map, count_by, IfOk};
ghost use Rattle.pj_rules.specs.Gathering.{counted, is_kept};
ghost use Rattle.pj_rules.specs.States.{top_rules};

use crate::top::Top;
use pj_base::NoMemory;
use pj_rule_sets::{Entry, Origin};

/// Whether a member of a list counts: a rule of a priority number that is not above the minimum, or what cannot be used.
fn is_kept(minimum: u8, taken: &(Origin, Entry)) -> bool
    ensures { result ≡ is_kept minimum taken.now }
{
    match &taken.1 {
        Entry::Rule(rule) => rule.texts().row.priority <= minimum,
        Entry::Unusable(_) => true,
    }
}

/// How many members of a list count.
fn count_of_list(minimum: u8, list: &[(Origin, Entry)]) -> usize
    ensures { result ≡ count_by (is_kept minimum) list.now }
{
    list.iter().filter(|taken| is_kept(minimum, taken)).count()
}

/// A count and so many more. More than 4,294,967,295 is want of memory.
fn count_more(count: u32, more: usize) -> Result<u32, NoMemory>
    ensures { IfOk result (λ sum. sum ≡ count + more) }
{
    let Ok(more) = u32::try_from(more) else {
        return Err(NoMemory);
    };
    match count.checked_add(more) {
        Some(sum) => Ok(sum),
        None => Err(NoMemory),
    }
}

/// How many members of the lists of top rulesets count. More than 4,294,967,295 is want of memory.
pub fn count_of(minimum: u8, tops: &[Top]) -> Result<u32, NoMemory>
    ensures { IfOk result (λ count. count ≡ counted minimum (map top_rules tops.now)) }
{
    let mut count: u32 = 0;
    for top in tops {
        count = count_more(count, count_of_list(minimum, top.list.as_slice()))?;
    }
    Ok(count)
}
