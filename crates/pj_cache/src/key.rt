//! Keys of rules.
ghost use Rattle.std.specs.Prelude.{◌≡◌, IfOk};

use pj_base::{Bytes, Copied, ListOf, NoMemory};
use std::alloc::Global;
use std::cmp::Ordering;
use std::marker::Model;
use std::sync::Arc;

/// The key of a rule, the bytes that tell what the rule is, which contracts see as their list.
///
/// All results of a rule share the bytes, so a copy takes no memory for them.
#[derive(Debug, Drop)]
pub struct Key {
    bytes: Arc<Bytes>,
}

/// Keys, in the order of their rules.
pub type Keys = ListOf<Key>;

impl Model for Key {
    ghost use Rattle.std.specs.Prelude.{List, ℕ};

    ghost Value = { List ℕ };

    ghost view = { λ key. key.bytes.value };
}

impl Key {
    /// The key of these bytes.
    pub fn new(alloc: Global, bytes: Bytes) -> Result<Key, NoMemory>
        ensures { IfOk result (λ key. key ≡ bytes) }
    {
        Ok(Key {
            bytes: Arc::new(alloc, bytes)?,
        })
    }

    /// Its bytes, borrowed.
    pub fn as_slice(&self) -> &[u8]
        ensures { result.now ≡ self.now }
    {
        (*self.bytes).as_slice()
    }
}

impl Copied for Key {
    fn copied(&self) -> Result<Key, NoMemory> {
        Ok(Key {
            bytes: Arc::try_clone(&self.bytes)?,
        })
    }
}

impl PartialEq for Key {
    ghost use Rattle.std.specs.Prelude.{nat_eq};
    ghost use Rattle.std.specs.Cmp.{partial_equiv_from_equiv};
    ghost use Rattle.std.specs.Cmp.Lexicographic.{nat_list_eq_equiv, pointwise};

    ghost eq = { pointwise nat_eq };

    ghost laws = { partial_equiv_from_equiv nat_list_eq_equiv };

    fn eq(&self, other: &Self) -> bool {
        self.as_slice() == other.as_slice()
    }
}

impl Eq for Key {
    ghost use Rattle.std.specs.Cmp.Lexicographic.{nat_list_eq_equiv};

    ghost laws = { nat_list_eq_equiv };
}

impl PartialOrd for Key {
    ghost use Rattle.std.specs.Prelude.{Some};
    ghost use Rattle.std.specs.Ordering.{nat_cmp};
    ghost use Rattle.std.specs.Cmp.Lexicographic.{slice_cmp, texts_po};

    ghost partial_cmp = { λ x y. Some (slice_cmp nat_cmp x y) };

    ghost laws = { texts_po };

    fn partial_cmp(&self, other: &Self) -> Option<Ordering> {
        Some(self.cmp(other))
    }
}

impl Ord for Key {
    ghost use Rattle.std.specs.Prelude.{refl};
    ghost use Rattle.std.specs.Ordering.{nat_cmp};
    ghost use Rattle.std.specs.Cmp.Lexicographic.{nat_list_cmp_total, slice_cmp, texts_ties};

    ghost cmp = { slice_cmp nat_cmp };

    ghost total = { nat_list_cmp_total };

    ghost matches_partial_cmp = { λ x y. refl };

    ghost matches_eq = { texts_ties };

    fn cmp(&self, other: &Self) -> Ordering {
        self.as_slice().cmp(other.as_slice())
    }
}
