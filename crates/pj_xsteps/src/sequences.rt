//! Sequences: made and copied.
ghost use Rattle.std.specs.Prelude.{◌≡◌, ℕ, ◌∷◌, [], IfOk, reverse};
ghost use Rattle.pj_xvalue.specs.OfTree.{OfTree};
ghost use Rattle.pj_xvalue.specs.Items.{value_of_item, values_of};

use pj_base::{Copied, NoMemory};
use pj_xvalue::{Item, Sequence};
use std::alloc::Global;

/// A sequence of one item.
pub fn one<'t>(alloc: Global, item: Item<'t>) -> Result<Sequence<'t>, NoMemory>
    ensures { IfOk result (λ items. values_of items ≡ value_of_item item.entry ∷ []) }
{
    let mut items = Sequence::new(alloc);
    items.push(item)?;
    Ok(items)
}

/// The same items again.
pub fn copied_items<'t>(alloc: Global, items: &[Item<'t>]) -> Result<Sequence<'t>, NoMemory>
    ensures { IfOk result (λ copy. copy ≡ items.now) }
{
    let mut copy = Sequence::new(alloc);
    for item in items {
        copy.push(item.copied()?)?;
    }
    Ok(copy)
}

/// The items from the last to the first. It takes no memory.
pub fn turned_back<'t>(items: Sequence<'t>) -> Sequence<'t>
    ensures value { values_of result ≡ reverse (values_of items.entry) }
    ensures of_tree { (n : ℕ) → OfTree n (values_of items.entry) → OfTree n (values_of result) }
{
    items_turned_back(items)
}

/// The same of items as they are.
fn items_turned_back<'t>(items: Sequence<'t>) -> Sequence<'t>
    ensures { result ≡ reverse items.entry }
{
    let mut held = items.into_vec();
    held.as_mut_slice().reverse();
    Sequence::from_vec(held)
}
