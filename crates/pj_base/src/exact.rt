//! Comparisons that say exactly whether two values are the same.
ghost use Rattle.std.specs.Prelude.{◌≡◌, ◌↔◌, IsTrue};

/// A type whose values can be told apart exactly.
///
/// A caller that is generic over `PartialEq` knows no more of `==` than that it is symmetric and transitive. This
/// says in both directions what the answer means.
pub trait Exact {
    /// Whether both are the same value.
    fn is(&self, other: &Self) -> bool
        ensures { IsTrue result ↔ (self.now ≡ other.now) };
}

impl Exact for bool {
    fn is(&self, other: &bool) -> bool {
        *self == *other
    }
}

impl Exact for char {
    fn is(&self, other: &char) -> bool {
        *self == *other
    }
}

impl Exact for u8 {
    fn is(&self, other: &u8) -> bool {
        *self == *other
    }
}

impl Exact for u16 {
    fn is(&self, other: &u16) -> bool {
        *self == *other
    }
}

impl Exact for u32 {
    fn is(&self, other: &u32) -> bool {
        *self == *other
    }
}

impl Exact for u64 {
    fn is(&self, other: &u64) -> bool {
        *self == *other
    }
}

impl Exact for i64 {
    fn is(&self, other: &i64) -> bool {
        *self == *other
    }
}

impl<T: Exact> Exact for Option<T> {
    fn is(&self, other: &Option<T>) -> bool {
        match (self, other) {
            (Some(ours), Some(theirs)) => ours.is(theirs),
            (None, None) => true,
            _ => false,
        }
    }
}

impl<A: Exact, B: Exact> Exact for (A, B) {
    fn is(&self, other: &(A, B)) -> bool {
        self.0.is(&other.0) && self.1.is(&other.1)
    }
}
