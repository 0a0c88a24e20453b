//! Copies that may want memory.
ghost use Rattle.std.specs.Prelude.{◌≡◌, IfOk};

use crate::memory::NoMemory;

/// A value of which an equal one can be made.
///
/// It takes the place of `Clone` for types that own memory: a copy answers `NoMemory` where there is none.
pub trait Copied: Sized {
    /// An equal value.
    fn copied(&self) -> Result<Self, NoMemory>
        ensures { IfOk result (λ copy. copy ≡ self.now) };
}

impl Copied for bool {
    fn copied(&self) -> Result<bool, NoMemory> {
        Ok(*self)
    }
}

impl Copied for char {
    fn copied(&self) -> Result<char, NoMemory> {
        Ok(*self)
    }
}

impl Copied for u8 {
    fn copied(&self) -> Result<u8, NoMemory> {
        Ok(*self)
    }
}

impl Copied for u16 {
    fn copied(&self) -> Result<u16, NoMemory> {
        Ok(*self)
    }
}

impl Copied for u32 {
    fn copied(&self) -> Result<u32, NoMemory> {
        Ok(*self)
    }
}

impl Copied for u64 {
    fn copied(&self) -> Result<u64, NoMemory> {
        Ok(*self)
    }
}

impl Copied for i64 {
    fn copied(&self) -> Result<i64, NoMemory> {
        Ok(*self)
    }
}

impl<T: Copied + Drop> Copied for Option<T> {
    fn copied(&self) -> Result<Option<T>, NoMemory> {
        Ok(match self {
            Some(value) => Some(value.copied()?),
            None => None,
        })
    }
}

impl<A: Copied + Drop, B: Copied + Drop> Copied for (A, B) {
    fn copied(&self) -> Result<(A, B), NoMemory> {
        Ok((self.0.copied()?, self.1.copied()?))
    }
}
