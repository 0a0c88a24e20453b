//! Names of classes that results share.
ghost use Rattle.std.specs.Prelude.{◌≡◌, IfOk};

use pj_base::{Copied, ListOf, NoMemory};
use pj_names::ClassName;
use std::alloc::Global;
use std::cmp::Ordering;
use std::marker::Model;
use std::sync::Arc;

/// The name of a class that results share, which contracts see as the list of its UTF-8 bytes.
///
/// All mentions of a name share its bytes, so a copy takes no memory for them, and no time for their number.
#[derive(Debug, Drop)]
pub struct SharedName {
    name: Arc<ClassName>,
}

/// Names that results share.
pub type SharedNames = ListOf<SharedName>;

impl Model for SharedName {
    ghost use Rattle.std.specs.Prelude.{List, ℕ};

    ghost Value = { List ℕ };

    ghost view = { λ shared. shared.name.value };
}

impl SharedName {
    /// This name, to be shared.
    pub fn new(alloc: Global, name: ClassName) -> Result<SharedName, NoMemory>
        ensures { IfOk result (λ shared. shared ≡ name) }
    {
        Ok(SharedName {
            name: Arc::new(alloc, name)?,
        })
    }

    /// The name, borrowed.
    pub fn as_name(&self) -> &ClassName
        ensures { result.now ≡ self.now }
    {
        &*self.name
    }
}

impl Copied for SharedName {
    fn copied(&self) -> Result<SharedName, NoMemory> {
        Ok(SharedName {
            name: Arc::try_clone(&self.name)?,
        })
    }
}

impl PartialEq for SharedName {
    ghost use Rattle.std.specs.Prelude.{nat_eq};
    ghost use Rattle.std.specs.Cmp.{partial_equiv_from_equiv};
    ghost use Rattle.std.specs.Cmp.Lexicographic.{nat_list_eq_equiv, pointwise};

    ghost eq = { pointwise nat_eq };

    ghost laws = { partial_equiv_from_equiv nat_list_eq_equiv };

    fn eq(&self, other: &Self) -> bool {
        self.as_name() == other.as_name()
    }
}

impl Eq for SharedName {
    ghost use Rattle.std.specs.Cmp.Lexicographic.{nat_list_eq_equiv};

    ghost laws = { nat_list_eq_equiv };
}

impl PartialOrd for SharedName {
    ghost use Rattle.std.specs.Prelude.{Some};
    ghost use Rattle.std.specs.Ordering.{nat_cmp};
    ghost use Rattle.std.specs.Cmp.Lexicographic.{slice_cmp, texts_po};

    ghost partial_cmp = { λ x y. Some (slice_cmp nat_cmp x y) };

    ghost laws = { texts_po };

    fn partial_cmp(&self, other: &Self) -> Option<Ordering> {
        Some(self.cmp(other))
    }
}

impl Ord for SharedName {
    ghost use Rattle.std.specs.Prelude.{refl};
    ghost use Rattle.std.specs.Ordering.{nat_cmp};
    ghost use Rattle.std.specs.Cmp.Lexicographic.{nat_list_cmp_total, slice_cmp, texts_ties};

    ghost cmp = { slice_cmp nat_cmp };

    ghost total = { nat_list_cmp_total };

    ghost matches_partial_cmp = { λ x y. refl };

    ghost matches_eq = { texts_ties };

    fn cmp(&self, other: &Self) -> Ordering {
        self.as_name().cmp(other.as_name())
    }
}
