//! Texts, names and lists of numbers, made of rows.
use pj_base::{NoMemory, Numbers, Text};
use pj_names::ClassName;
use std::alloc::Global;
use std::test::Fail;

/// Fails with the name of a row where what it says does not hold.
pub fn expect(holds: bool, row: &'static str) -> Result<(), Fail> {
    if holds { Ok(()) } else { Err(Fail::new(row)) }
}

/// A text of its own.
pub fn text(alloc: Global, text: &str) -> Result<Text, NoMemory> {
    Text::from_str(alloc, text)
}

/// The name of a class.
pub fn name(alloc: Global, text: &str) -> Result<ClassName, Fail> {
    Ok(ClassName::of(alloc, text)?.ok_or("no class name")?)
}

/// A list of numbers.
pub fn numbers(alloc: Global, numbers: &[u32]) -> Result<Numbers, NoMemory> {
    Ok(Numbers::from_vec(Vec::from_slice(alloc, numbers)?))
}
