//! Parts of a file that are not read yet.
ghost use Rattle.std.specs.Prelude.{◌≡◌, ◌∷◌, [], MatchOption};

use pj_base::ListOf;
use pj_rule_texts::Part;
use std::alloc::Global;
use std::marker::Model;
use std::vec::IntoIter;

/// Parts of a file that are not read yet, in order. Contracts see them as a list.
#[derive(Drop)]
pub struct Rest {
    held: IntoIter<Part, Global>,
}

impl Model for Rest {
    ghost use Rattle.std.specs.Prelude.{◌≡◌, List, length};
    ghost use Rattle.std.specs.Vec.Iter.{into_iter_items, into_iter_len};
    ghost use Rattle.pj_rule_texts.specs.declared.written.Part.{Part};

    ghost Value = { List Part };

    ghost view = { λ rest. into_iter_items rest.held };

    ghost invariant = { λ rest. into_iter_len rest.held ≡ length (into_iter_items rest.held) };
}

impl Rest {
    /// All parts of a file.
    pub fn of(parts: ListOf<Part>) -> Rest
        ensures { result ≡ parts }
    {
        Rest {
            held: parts.into_vec().into_iter(),
        }
    }

    /// Takes the next part.
    pub fn next(&mut self) -> Option<Part>
        ensures { MatchOption result ((self.old ≡ []) × (self.new ≡ [])) (λ part. self.old ≡ part ∷ self.new) }
    {
        self.held.next()
    }
}
