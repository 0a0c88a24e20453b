//! Errors.
ghost use Rattle.std.specs.Prelude.{◌≡◌};
ghost use Rattle.pj_names.specs.declared.oracle.AskFault.TheVariants.{Memory};

use pj_base::NoMemory;
use pj_names::AskFault;
use std::alloc::{AllocError, AllocFailed};

/// The code of an error of XPath (XPath 2.0, appendix G, and XPath Functions and Operators, appendix C).
#[derive(Clone, Copy, Debug, PartialEq, Eq)]
pub enum XCode {
    /// A sequence that has no effective boolean value.
    FORG0006,
    /// A value of a wrong type or number.
    XPTY0004,
    /// A step of a path that gives nodes and other items.
    XPTY0018,
    /// A step over an item that is no node.
    XPTY0019,
    /// An axis step, or a `/`, whose context item is no node.
    XPTY0020,
    /// A division by zero.
    FOAR0001,
    /// An integer outside 64 bits.
    FOAR0002,
    /// The typed value of an element or of the document, which have none.
    FOTY0012,
    /// A pattern that is found in the empty string, where `replace` and `tokenize` take none.
    FORX0003,
}

/// Why there is no value.
#[derive(Clone, Copy, Debug, PartialEq, Eq)]
pub enum XFault {
    /// An error of XPath.
    Code(XCode),
    /// A class could not be asked for, or memory was wanting.
    Ask(AskFault),
}

impl From<XCode> for XFault {
    ghost use Rattle.pj_xvalue.specs.declared.fault.XFault.TheVariants.{Code};

    ghost from_gives = { λ code fault. fault ≡ Code code };

    fn from(code: XCode) -> Self {
        XFault::Code(code)
    }
}

impl From<AskFault> for XFault {
    ghost use Rattle.pj_xvalue.specs.declared.fault.XFault.TheVariants.{Ask};

    ghost from_gives = { λ asked fault. fault ≡ Ask asked };

    fn from(fault: AskFault) -> Self {
        XFault::Ask(fault)
    }
}

impl From<NoMemory> for XFault {
    ghost use Rattle.pj_xvalue.specs.declared.fault.XFault.TheVariants.{Ask};

    ghost from_gives = { λ _ fault. fault ≡ Ask Memory };

    fn from(_: NoMemory) -> Self {
        XFault::Ask(AskFault::Memory)
    }
}

impl From<AllocError> for XFault {
    ghost use Rattle.pj_xvalue.specs.declared.fault.XFault.TheVariants.{Ask};

    ghost from_gives = { λ _ fault. fault ≡ Ask Memory };

    fn from(_: AllocError) -> Self {
        XFault::Ask(AskFault::Memory)
    }
}

impl<T: Drop> From<AllocFailed<T>> for XFault {
    ghost use Rattle.pj_xvalue.specs.declared.fault.XFault.TheVariants.{Ask};

    ghost from_gives = { λ _ fault. fault ≡ Ask Memory };

    fn from(_: AllocFailed<T>) -> Self {
        XFault::Ask(AskFault::Memory)
    }
}
