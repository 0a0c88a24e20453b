//! The numbers of rules.
ghost use Rattle.std.specs.Prelude.{◌≡◌, ◌++◌, ◌∷◌, [], IfOk, OnOk, if◌then◌else◌};
ghost use Rattle.pj_workers.specs.Chosen.{numbers_to};
ghost use Rattle.pj_workers.specs.Evaluated.{active_numbers};

use pj_base::{NoMemory, Numbers, Text};
use pj_rule_sets::{RuleSet, which_are_active};
use std::alloc::Global;

/// The numbers of so many rules, from 0. More than four bytes tell are want of memory.
pub fn all_numbers(alloc: Global, count: usize) -> Result<Numbers, NoMemory>
    ensures { IfOk result (λ numbers. numbers ≡ numbers_to count) }
{
    if count > 0xffff_ffff {
        return Err(NoMemory);
    }
    let mut numbers = Numbers::new(alloc);
    for number in 0..count {
        numbers.push(number as u32)?;
    }
    Ok(numbers)
}

/// Puts a number behind others, if it is to be put there.
fn put_number(numbers: &mut Numbers, number: u32, is_put: bool) -> Result<(), NoMemory>
    ensures { OnOk result (numbers.new ≡ (if is_put then numbers.old ++ number ∷ [] else numbers.old)) }
{
    if !is_put {
        return Ok(());
    }
    numbers.push(number)
}

/// The numbers, from 0, of the rules that are active for a path, ascending. More than four bytes tell are want of memory.
pub fn active_numbers(alloc: Global, rules: &RuleSet, path: &Text) -> Result<Numbers, NoMemory>
    ensures { IfOk result (λ numbers. numbers ≡ active_numbers rules.now path.now) }
{
    let is_active = which_are_active(alloc, rules.rules().as_slice(), path.as_str())?;
    let flags = is_active.as_slice();
    let count = flags.len();
    if count > 0xffff_ffff {
        return Err(NoMemory);
    }
    let mut numbers = Numbers::new(alloc);
    for number in 0..count {
        put_number(&mut numbers, number as u32, flags[number])?;
    }
    Ok(numbers)
}
