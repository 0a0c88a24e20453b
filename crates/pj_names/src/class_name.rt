//! Binary names of classes.
ghost use Rattle.std.specs.Prelude.{◌≡◌, IfOk, IsTrue, MatchOption, false};
ghost use Rattle.pj_names.specs.ClassName.{is_class_name, is_object};

use pj_base::{Copied, Exact, NoMemory, Text};
use std::alloc::Global;
use std::cmp::Ordering;
use std::convert::AsStr;
use std::hash::{Hash, Hasher};
use std::marker::Model;

/// The binary name of a class with dots, as `java.util.Map$Entry`, which contracts see as the list of its UTF-8 bytes.
///
/// Its parts between dots are unqualified names (JVMS 4.2.2): none is empty, and none holds `/`, `;` or `[`. Names
/// are compared and ordered by their bytes.
#[derive(Debug, Drop)]
pub struct ClassName {
    text: Text,
}

impl Model for ClassName {
    ghost use Rattle.std.specs.Prelude.{IsTrue, List, ℕ};
    ghost use Rattle.pj_names.specs.ClassName.{is_class_name};

    ghost Value = { List ℕ };

    ghost view = { λ name. name.text };

    ghost invariant = { λ name. IsTrue (is_class_name name.text) };
}

impl ClassName {
    /// The name that a text spells, or `None` where a part between dots is empty or holds `/`, `;` or `[`.
    pub fn of(alloc: Global, text: &str) -> Result<Option<ClassName>, NoMemory>
        ensures { IfOk result (λ name. MatchOption name (is_class_name text.now ≡ false)
            (λ made. IsTrue (is_class_name text.now) × (made ≡ text.now))) }
    {
        if !spells_class_name(text) {
            return Ok(None);
        }
        let text = Text::from_str(alloc, text)?;
        Ok(Some(ClassName { text }))
    }

    /// The name as a text, borrowed.
    pub fn as_str(&self) -> &str
        ensures value { result.now ≡ self.now }
        ensures is_name { IsTrue (is_class_name self.now) }
    {
        self.text.as_str()
    }

    /// The name as a `Text`, borrowed.
    pub fn as_text(&self) -> &Text
        ensures value { result.now ≡ self.now }
        ensures is_name { IsTrue (is_class_name self.now) }
    {
        &self.text
    }

    /// The name as a `Text`, which takes no memory.
    pub fn into_text(self) -> Text
        ensures { result ≡ self }
    {
        let ClassName { text } = self;
        text
    }

    /// Whether it is `java.lang.Object`, the class that is known without asking.
    pub fn is_object(&self) -> bool
        ensures { result ≡ is_object self.now }
    {
        self.text.as_str() == "java.lang.Object"
    }
}

/// Whether a text is a binary name: a scan that knows whether the part that it is in has begun.
fn spells_class_name(text: &str) -> bool
    ensures { result ≡ is_class_name text.now }
{
    let mut begun = false;
    for byte in text.as_bytes() {
        match byte {
            b'.' if !begun => return false,
            b'.' => begun = false,
            b'/' | b';' | b'[' => return false,
            _ => begun = true,
        }
    }
    begun
}

impl Copied for ClassName {
    fn copied(&self) -> Result<ClassName, NoMemory> {
        Ok(ClassName {
            text: self.text.copied()?,
        })
    }
}

impl Exact for ClassName {
    fn is(&self, other: &ClassName) -> bool {
        self.text.is(&other.text)
    }
}

impl AsStr for ClassName {
    ghost text = { λ name. name };

    fn as_str(&self) -> &str {
        self.text.as_str()
    }
}

impl PartialEq for ClassName {
    ghost use Rattle.std.specs.Prelude.{nat_eq};
    ghost use Rattle.std.specs.Cmp.{partial_equiv_from_equiv};
    ghost use Rattle.std.specs.Cmp.Lexicographic.{nat_list_eq_equiv, pointwise};

    ghost eq = { pointwise nat_eq };

    ghost laws = { partial_equiv_from_equiv nat_list_eq_equiv };

    fn eq(&self, other: &Self) -> bool {
        self.text == other.text
    }
}

impl Eq for ClassName {
    ghost use Rattle.std.specs.Cmp.Lexicographic.{nat_list_eq_equiv};

    ghost laws = { nat_list_eq_equiv };
}

impl Hash for ClassName {
    ghost use Rattle.std.specs.Hash as fed;
    ghost use Rattle.std.specs.Cmp.Rules.{hashing};
    ghost use Rattle.std.proofs.Common.{rules};

    ghost hash_input = { λ name. fed.str name };

    ghost respects_eq = { Prim.search (hashing, rules) };

    fn hash<H: Hasher>(&self, state: &mut H) {
        self.text.as_str().hash(state);
    }
}

impl PartialOrd for ClassName {
    ghost use Rattle.std.specs.Prelude.{Some};
    ghost use Rattle.std.specs.Ordering.{nat_cmp};
    ghost use Rattle.std.specs.Cmp.Lexicographic.{slice_cmp, texts_po};

    ghost partial_cmp = { λ x y. Some (slice_cmp nat_cmp x y) };

    ghost laws = { texts_po };

    fn partial_cmp(&self, other: &Self) -> Option<Ordering> {
        Some(self.text.cmp(&other.text))
    }
}

impl Ord for ClassName {
    ghost use Rattle.std.specs.Prelude.{refl};
    ghost use Rattle.std.specs.Ordering.{nat_cmp};
    ghost use Rattle.std.specs.Cmp.Lexicographic.{nat_list_cmp_total, slice_cmp, texts_ties};

    ghost cmp = { slice_cmp nat_cmp };

    ghost total = { nat_list_cmp_total };

    ghost matches_partial_cmp = { λ x y. refl };

    ghost matches_eq = { texts_ties };

    fn cmp(&self, other: &Self) -> Ordering {
        self.text.cmp(&other.text)
    }
}
