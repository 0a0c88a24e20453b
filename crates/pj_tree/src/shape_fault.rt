//! Refusals.

use pj_base::NoMemory;

/// Why nodes make no tree.
#[derive(Clone, Copy, Debug, PartialEq, Eq)]
pub enum ShapeFault {
    /// The depth of the deepest node, which is more than 1,000. The root has depth 1.
    TooDeep(u32),
    /// The number of nodes, which is more than 2,000,000.
    TooMany(u32),
    /// Want of memory.
    Memory,
}

impl From<NoMemory> for ShapeFault {
    ghost use Rattle.std.specs.Prelude.{◌≡◌};
    ghost use Rattle.pj_tree.specs.declared.shape_fault.ShapeFault.TheVariants.{Memory};

    ghost from_gives = { λ _ fault. fault ≡ Memory };

    fn from(_: NoMemory) -> Self {
        ShapeFault::Memory
    }
}
