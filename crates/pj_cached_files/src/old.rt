//! The entry that a cache has of a file.
ghost use Rattle.std.specs.Prelude.{◌≡◌, Some, map};
ghost use Rattle.std.specs.List.Sorted.{IsStrictlySortedBy};
ghost use Rattle.std.specs.Option.{option_copied};
ghost use Rattle.pj_cache.specs.Places.{byte_order};
ghost use Rattle.pj_fitting.specs.Left.{entry_at};
ghost use Rattle.pj_fitting.specs.Looked.{has_no_tree};

use pj_base::{Bytes, Exact, Text};
use pj_cache::{Cache, Entry};
use pj_reports::Head;

/// The entry of a path and these bytes, or `None` if the cache has none of this path, or one with other bytes. It takes no memory. The condition
/// is that the entries stand in the order of their paths' bytes, each path once.
pub fn old_entry<'a>(found: &'a Cache, path: &Text, bytes: &Bytes) -> Option<&'a Entry>
    requires { IsStrictlySortedBy byte_order (map (λ e. e.path) found.now.entries) }
    ensures { option_copied result ≡ entry_at found.now (path.now, bytes.now) }
{
    match found.find(path) {
        None => None,
        Some(entry) => {
            let is_same = entry.bytes.is(bytes);
            if is_same {
                return Some(entry);
            }
            None
        }
    }
}

/// Whether an entry says that its file has no tree.
pub fn says_no_tree(entry: &Entry) -> bool
    ensures { result ≡ has_no_tree (Some entry.now) }
{
    match &entry.head {
        Head::Package(_) => false,
        Head::Message(_) => true,
    }
}
