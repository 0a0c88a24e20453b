//! Trees of files, of which calls fail.
use pj_base::{NoMemory, Numbers};
use pj_outside::{Files, MemTree};
use std::alloc::Global;

/// The number of the call that fails, as `call 2 fails`.
pub fn failing_call(given: &str) -> Option<u32> {
    let number = given.strip_prefix("call ")?.strip_suffix(" fails")?;
    number.parse::<u32>().ok()
}

/// The numbers of the calls that fail, at most one.
fn numbers_of(alloc: Global, call: Option<u32>) -> Result<Numbers, NoMemory> {
    let mut numbers = Numbers::new(alloc);
    if let Some(call) = call {
        numbers.push(call)?;
    }
    Ok(numbers)
}

/// A tree of these files, of which the call of a number fails.
pub fn tree_of(alloc: Global, files: Files, call: Option<u32>) -> Result<MemTree, NoMemory> {
    let numbers = numbers_of(alloc, call)?;
    Ok(MemTree::new(alloc, files, numbers))
}
