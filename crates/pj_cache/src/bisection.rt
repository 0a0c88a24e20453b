//! Places in lists that stand in the order of their bytes, by bisection.
ghost use Rattle.std.specs.Prelude.{◌≡◌, map};
ghost use Rattle.std.specs.List.Sorted.{IsStrictlySortedBy};
ghost use Rattle.std.specs.Ordering.{is_lt};
ghost use Rattle.pj_cache.specs.Places.{byte_order, place_in};

use crate::cache::Entry;
use crate::key::Key;
use pj_base::Text;
use pj_names::{Answer, ClassName};
use std::sync::Arc;

/// The place of a key, counted from 0: the number of keys below it. The condition is that the keys stand in the order of their bytes,
/// each once.
pub fn place_of_key(keys: &[Key], key: &Key) -> usize
    requires { IsStrictlySortedBy byte_order keys.now }
    ensures { result ≡ place_in keys.now key.now }
{
    keys.partition_point(
        |member: &Key| -> bool
            ensures { result ≡ is_lt (byte_order member.now key.entry.now) }
        { member.cmp(key).is_lt() },
    )
}

/// The place of a name among answers, counted from 0: the number of names below it. The condition is that the answers stand in the
/// order of their names' bytes, each once.
pub fn place_of_name(answers: &[(ClassName, Arc<Answer>)], name: &ClassName) -> usize
    requires { IsStrictlySortedBy byte_order (map (λ a. a.0) answers.now) }
    ensures { result ≡ place_in (map (λ a. a.0) answers.now) name.now }
{
    answers.partition_point(
        |pair: &(ClassName, Arc<Answer>)| -> bool
            ensures { result ≡ is_lt (byte_order pair.now.0 name.entry.now) }
        { pair.0.cmp(name).is_lt() },
    )
}

/// The place of a path, counted from 0: the number of entries whose paths are below it. The condition is that the entries stand in the
/// order of their paths' bytes, each once.
pub(crate) fn place_of_path(entries: &[Entry], path: &Text) -> usize
    requires { IsStrictlySortedBy byte_order (map (λ e. e.path) entries.now) }
    ensures { result ≡ place_in (map (λ e. e.path) entries.now) path.now }
{
    entries.partition_point(
        |entry: &Entry| -> bool
            ensures { result ≡ is_lt (byte_order entry.now.path path.entry.now) }
        { entry.path.cmp(path).is_lt() },
    )
}
