//! The keys of the rules that are active for a path.
ghost use Rattle.std.specs.Prelude.{◌≡◌, ◌++◌, ◌∷◌, [], IfOk, OnOk, length, if◌then◌else◌};
ghost use Rattle.pj_left_cache.specs.Missing.{keys_of_active};

use pj_base::{Copied, NoMemory};
use pj_cache::{Key, Keys};
use std::alloc::Global;

/// Puts a key to others, if its rule is active.
fn note_key(active: &mut Keys, key: &Key, is_active: bool) -> Result<(), NoMemory>
    ensures { OnOk result (active.new ≡ (if is_active then active.old ++ key.now ∷ [] else active.old)) }
{
    if !is_active {
        return Ok(());
    }
    active.push(key.copied()?)?;
    Ok(())
}

/// The keys of the rules that are active, in the order of the rules. The condition is that there are as many tests as keys.
pub fn active_keys(alloc: Global, keys: &[Key], is_active: &[bool]) -> Result<Keys, NoMemory>
    requires { length is_active.now ≡ length keys.now }
    ensures { IfOk result (λ active. active ≡ keys_of_active keys.now is_active.now) }
{
    let mut active = Keys::new(alloc);
    for i in 0..keys.len() {
        note_key(&mut active, &keys[i], is_active[i])?;
    }
    Ok(active)
}
