//! Sets of modifiers.
ghost use Rattle.std.specs.Prelude.{◌≡◌, ◌<◌, ◌≤◌, ◌==◌, ◌||◌, false, ℕ};
ghost use Rattle.std.specs.Int.{bit_at};
ghost use Rattle.pj_xvalue.specs.declared.modifiers.Modifier.{Modifier};
ghost use Rattle.pj_xvalue.specs.Modifiers.{bit_of, has};

/// A modifier of Java (JLS 8.1.1, 8.3.1, 8.4.3, 9.4), in the byte order of the words.
#[derive(Clone, Copy, Debug, PartialEq, Eq)]
pub enum Modifier {
    Abstract,
    Default,
    Final,
    Native,
    /// `non-sealed`
    NonSealed,
    Private,
    Protected,
    Public,
    Sealed,
    Static,
    Strictfp,
    Synchronized,
    Transient,
    Volatile,
}

/// A set of modifiers: a number with a bit for each modifier, in their order from the lowest bit on, which is 1 where
/// the set has it.
#[derive(Clone, Copy, Debug, PartialEq, Eq)]
pub struct Modifiers(pub u16);

impl Modifier {
    /// The bit of a set that says whether the modifier is in it, counted from 0.
    fn bit(self) -> u32
        ensures value { result ≡ bit_of self }
        ensures few { result < 14 }
    {
        match self {
            Modifier::Abstract => 0,
            Modifier::Default => 1,
            Modifier::Final => 2,
            Modifier::Native => 3,
            Modifier::NonSealed => 4,
            Modifier::Private => 5,
            Modifier::Protected => 6,
            Modifier::Public => 7,
            Modifier::Sealed => 8,
            Modifier::Static => 9,
            Modifier::Strictfp => 10,
            Modifier::Synchronized => 11,
            Modifier::Transient => 12,
            Modifier::Volatile => 13,
        }
    }
}

impl Modifiers {
    /// The empty set.
    pub fn none() -> Modifiers
        ensures members { (modifier : Modifier) → has result modifier ≡ false }
        ensures bits { result.0 ≡ 0 }
    {
        Modifiers(0)
    }

    /// Whether the set has the modifier.
    pub fn contains(self, modifier: Modifier) -> bool
        ensures { result ≡ has self modifier }
    {
        (self.0 >> modifier.bit()) & 1 == 1
    }

    /// The set with the modifier.
    pub fn with(self, modifier: Modifier) -> Modifiers
        ensures others { (k : ℕ) → 14 ≤ k → bit_at result.0 k ≡ bit_at self.0 k }
        ensures members { (other : Modifier) → has result other ≡ ((bit_of modifier == bit_of other) || has self other) }
    {
        let member = 1 << modifier.bit();
        Modifiers(self.0 | member)
    }
}
