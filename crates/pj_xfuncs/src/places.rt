//! Places of a list, counted from 1.
ghost use Rattle.std.specs.Prelude.{◌≡◌, drop, take};
ghost use Rattle.pj_xfuncs.specs.Places.{places_before, places_within};

/// How many places stand before one.
pub(crate) fn before(start: i64) -> usize
    ensures { result ≡ places_before start }
{
    if start <= 1 { 0 } else { (start - 1) as usize }
}

/// How many of so many places from one on are at least 1.
pub(crate) fn within(start: i64, length: i64) -> usize
    ensures { result ≡ places_within start length }
{
    if length <= 0 {
        0
    } else if start >= 1 {
        length as usize
    } else {
        let end = start + length;
        if end <= 1 { 0 } else { (end - 1) as usize }
    }
}

/// The members behind so many.
pub(crate) fn behind<T>(members: &[T], skipped: usize) -> &[T]
    ensures { result.now ≡ drop skipped members.now }
{
    if skipped >= members.len() {
        return &members[members.len()..];
    }
    &members[skipped..]
}

/// The first so many members, or all.
pub(crate) fn first_of<T>(members: &[T], count: usize) -> &[T]
    ensures { result.now ≡ take count members.now }
{
    if count >= members.len() {
        return members;
    }
    &members[..count]
}
