//! Why bytes are no class.
ghost use Rattle.std.specs.Prelude.{◌≡◌, Ok, Err, MatchResult};
ghost use Rattle.pj_format.specs.declared.fault.Refused.TheVariants as refusals;

use pj_base::NoMemory;
use pj_format::Refused;
use pj_names::ClassFault;

/// Why there is no class.
#[derive(Clone, Copy, Debug, PartialEq, Eq)]
pub enum ClassRefused {
    /// The bytes are no class file: their first fault.
    Fault(ClassFault),
    /// Memory ran out.
    Memory,
}

/// The kind of a fault: another magic number.
pub(crate) const OTHER_MAGIC: u8 = 2;

/// The kind of a fault: a major version that is too low.
pub(crate) const LOW_VERSION: u8 = 3;

/// The kind of a fault: a tag of a constant that there is not.
pub(crate) const NO_TAG: u8 = 4;

/// The kind of a fault: an index that is out of range, or leads to another kind of constant.
pub(crate) const BAD_INDEX: u8 = 5;

/// The kind of a fault: a text that is no modified UTF-8, or no name of a class.
pub(crate) const BAD_TEXT: u8 = 6;

/// The kind of a fault: a descriptor that is none.
pub(crate) const BAD_DESCRIPTOR: u8 = 7;

/// The kind of a fault: a signature that is none.
pub(crate) const BAD_SIGNATURE: u8 = 8;

/// The kind of a fault: an attribute `Signature` of another length.
pub(crate) const BAD_LENGTH: u8 = 9;

/// The kind of a fault: bytes behind the class.
pub(crate) const BYTES_BEHIND: u8 = 10;

/// The value, or that memory ran out.
pub(crate) fn or_memory<T>(value: Result<T, NoMemory>) -> Result<T, Refused>
    ensures { MatchResult value (λ x. result ≡ Ok x) (λ e. result ≡ Err refusals.Memory) }
{
    match value {
        Ok(value) => Ok(value),
        Err(_) => Err(Refused::Memory),
    }
}
