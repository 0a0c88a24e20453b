//! The entry of a path.
ghost use Rattle.std.specs.Prelude.{◌≡◌, map};
ghost use Rattle.std.specs.List.Sorted.{IsStrictlySortedBy};
ghost use Rattle.std.specs.Option.{option_copied};
ghost use Rattle.pj_cache.specs.Places.{byte_order};
ghost use Rattle.pj_cache.specs.Found.{entry_of};

use crate::bisection::place_of_path;
use crate::cache::{Cache, Entry};
use pj_base::{Exact, Text};

impl Cache {
    /// The entry of a path, or `None` if there is none, by bisection. It takes no memory. The condition is that the entries stand
    /// in the order of their paths' bytes, each path once.
    pub fn find(&self, path: &Text) -> Option<&Entry>
        requires { IsStrictlySortedBy byte_order (map (λ e. e.path) self.now.entries) }
        ensures { option_copied result ≡ entry_of self.now.entries path.now }
    {
        let entries = self.entries.as_slice();
        let place = place_of_path(entries, path);
        if place >= entries.len() {
            return None;
        }
        let entry = &entries[place];
        let is_here = entry.path.is(path);
        if !is_here {
            return None;
        }
        Some(entry)
    }
}
