//! The values that were met, in sets by their order.
ghost use Rattle.std.specs.Prelude.{◌≡◌, ◌||◌, ℕ, ℤ, Bool, List, false, nat_eq, IfOk, OnOk};
ghost use Rattle.std.specs.Cmp.Lexicographic.{pointwise};
ghost use Rattle.std.specs.Ordering.{int_eq};
ghost use Rattle.pj_xvalue.specs.Items.{ItemValue, value_of_item};
ghost use Rattle.pj_xfuncs.specs.Seen.{has, has_boolean, has_integer, has_text};
ghost use Rattle.pj_xfuncs.specs.Sequences.{same, same_boolean};

use pj_base::NoMemory;
use pj_xvalue::Item;
use std::alloc::Global;
use std::collections::BTreeSet;

/// The atomic values that were met: one is found in a time that grows with the logarithm of their number.
#[derive(Drop)]
pub(crate) struct Seen<'a> {
    /// The strings.
    pub(crate) texts: BTreeSet<&'a str>,
    /// The integers.
    pub(crate) integers: BTreeSet<i64>,
    /// Whether `true` was met.
    pub(crate) has_true: bool,
    /// Whether `false` was met.
    pub(crate) has_false: bool,
}

impl<'a> Seen<'a> {
    /// Nothing was met, which takes no memory.
    pub(crate) fn new(alloc: Global) -> Seen<'a>
        ensures { (value : ItemValue) → has result value ≡ false }
    {
        Seen {
            texts: BTreeSet::new(alloc),
            integers: BTreeSet::new(alloc),
            has_true: false,
            has_false: false,
        }
    }

    /// Whether the value was met before; it is from here on. No node is equal to anything.
    pub(crate) fn meet(&mut self, item: &'a Item<'_>) -> Result<bool, NoMemory>
        ensures was { IfOk result (λ was. was ≡ has self.old (value_of_item item.now)) }
        ensures met { OnOk result ((value : ItemValue) → has self.new value ≡ (has self.old value || same value (value_of_item item.now))) }
    {
        match item {
            Item::Str(text) => meet_text(&mut self.texts, text.as_str()),
            Item::Borrowed(text) => meet_text(&mut self.texts, *text),
            Item::Int(value) => meet_integer(&mut self.integers, *value),
            Item::Bool(value) => Ok(self.meet_boolean(*value)),
            _ => Ok(false),
        }
    }

    /// Meets a truth value, and tells whether it was met before.
    fn meet_boolean(&mut self, value: bool) -> bool
        ensures was { result ≡ has_boolean self.old.has_true self.old.has_false value }
        ensures met { (b : Bool) → has_boolean self.new.has_true self.new.has_false b ≡ (has_boolean self.old.has_true self.old.has_false b || same_boolean b value) }
        ensures texts { self.new.texts ≡ self.old.texts }
        ensures integers { self.new.integers ≡ self.old.integers }
    {
        if value {
            let was = self.has_true;
            self.has_true = true;
            was
        } else {
            let was = self.has_false;
            self.has_false = true;
            was
        }
    }
}

/// Meets a text, and tells whether it was met before.
fn meet_text<'a>(texts: &mut BTreeSet<&'a str>, text: &'a str) -> Result<bool, NoMemory>
    ensures was { IfOk result (λ was. was ≡ has_text texts.old text.now) }
    ensures met { OnOk result ((other : List ℕ) → has_text texts.new other ≡ (has_text texts.old other || pointwise nat_eq other text.now)) }
{
    Ok(!texts.insert(text)?)
}

/// Meets an integer, and tells whether it was met before.
fn meet_integer(integers: &mut BTreeSet<i64>, value: i64) -> Result<bool, NoMemory>
    ensures was { IfOk result (λ was. was ≡ has_integer integers.old value) }
    ensures met { OnOk result ((other : ℤ) → has_integer integers.new other ≡ (has_integer integers.old other || int_eq other value)) }
{
    Ok(!integers.insert(value)?)
}
