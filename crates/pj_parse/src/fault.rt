//! Why a source file has no syntax tree.

use pj_base::NoMemory;
use pj_lex::LexFault;
use pj_tree::ShapeFault;
use std::alloc::{AllocError, AllocFailed};

/// Why a source file has no syntax tree. Of several reasons the first in this order counts.
#[derive(Clone, Copy, Debug, PartialEq, Eq)]
pub enum ParseFault {
    /// The first fault among the tokens.
    Lex(LexFault),
    /// The number of tokens without comments, which is more than 200,000.
    TooManyTokens(u32),
    /// The grammar does not derive the tokens.
    Syntax,
    /// The depth of the deepest node, which is more than 1,000. The root has depth 1.
    TooDeep(u32),
    /// The number of nodes, which is more than 2,000,000.
    TooMany(u32),
    /// Want of memory.
    Memory,
}

impl From<AllocError> for ParseFault {
    ghost use Rattle.std.specs.Prelude.{◌≡◌};
    ghost use Rattle.pj_parse.specs.declared.fault.ParseFault.TheVariants.{Memory};

    ghost from_gives = { λ _ fault. fault ≡ Memory };

    fn from(_: AllocError) -> Self {
        ParseFault::Memory
    }
}

impl<T: Drop> From<AllocFailed<T>> for ParseFault {
    ghost use Rattle.std.specs.Prelude.{◌≡◌};
    ghost use Rattle.pj_parse.specs.declared.fault.ParseFault.TheVariants.{Memory};

    ghost from_gives = { λ _ fault. fault ≡ Memory };

    fn from(_: AllocFailed<T>) -> Self {
        ParseFault::Memory
    }
}

impl From<NoMemory> for ParseFault {
    ghost use Rattle.std.specs.Prelude.{◌≡◌};
    ghost use Rattle.pj_parse.specs.declared.fault.ParseFault.TheVariants.{Memory};

    ghost from_gives = { λ _ fault. fault ≡ Memory };

    fn from(_: NoMemory) -> Self {
        ParseFault::Memory
    }
}

impl From<ShapeFault> for ParseFault {
    ghost use Rattle.std.specs.Prelude.{◌≡◌};
    ghost use Rattle.pj_parse.specs.Faults.{of_shape};

    ghost from_gives = { λ fault result. result ≡ of_shape fault };

    fn from(fault: ShapeFault) -> Self {
        match fault {
            ShapeFault::TooDeep(depth) => ParseFault::TooDeep(depth),
            ShapeFault::TooMany(count) => ParseFault::TooMany(count),
            ShapeFault::Memory => ParseFault::Memory,
        }
    }
}
