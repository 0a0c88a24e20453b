//! A keeper in memory: what it holds, and the calls that fail.
use crate::fixtures::{Read, expect, is_read, numbers};
use pj_base::NoMemory;
use pj_outside::{Failed, Keeper, MemKeeper};
use std::alloc::Global;
use std::test::Fail;

/// A call of a keeper, and what it is to answer.
enum Call {
    /// Puts bytes under a name.
    Replace(&'static str, &'static [u8]),
    /// The same, which fails.
    Fails(&'static str, &'static [u8]),
    /// Reads what is under a name, at most so many bytes.
    Load(&'static str, u64, Read),
    /// Asks for what is under a name, which is no call that can fail.
    Get(&'static str, &'static [u8]),
    /// The same, where there is nothing.
    None(&'static str),
}

/// Whether the keeper has these bytes under the name.
fn holds(keeper: &MemKeeper, name: &str, wanted: &[u8]) -> bool {
    match keeper.get(name) {
        Some(bytes) => bytes.as_slice() == wanted,
        None => false,
    }
}

/// Whether a call answers what it is to.
fn is_answered(keeper: &mut MemKeeper, call: &Call) -> bool {
    match call {
        Call::Replace(name, bytes) => keeper.replace(name, bytes) == Ok(()),
        Call::Fails(name, bytes) => keeper.replace(name, bytes) == Err(Failed),
        Call::Load(name, most, wanted) => is_read(&keeper.load(name, *most), *wanted),
        Call::Get(name, wanted) => holds(keeper, name, wanted),
        Call::None(name) => keeper.get(name).is_none(),
    }
}

/// Keepers: what a row shows, the numbers of the calls that are to fail, and calls.
static KEEPERS: [(&str, &[u32], &[Call]); 3] = [
    (
        "a keeper has what was put last",
        &[],
        &[
            Call::Load("a", 9, Read::Absent),
            Call::Replace("a", b"one"),
            Call::Replace("b", b""),
            Call::Load("a", 9, Read::Whole(b"one")),
            Call::Replace("a", b"three"),
            Call::Load("a", 9, Read::Whole(b"three")),
            Call::Load("b", 9, Read::Whole(b"")),
            Call::Load("ab", 9, Read::Absent),
        ],
    ),
    (
        "a keeper loads within the limit",
        &[],
        &[
            Call::Replace("a", b"one"),
            Call::Replace("b", b""),
            Call::Load("a", 3, Read::Whole(b"one")),
            Call::Load("a", 2, Read::Longer),
            Call::Load("a", 0, Read::Longer),
            Call::Load("b", 0, Read::Whole(b"")),
            Call::Load("c", 0, Read::Absent),
        ],
    ),
    (
        "a keeper fails where it is to",
        &[2, 4],
        &[
            Call::Replace("a", b"one"),
            Call::Fails("a", b"three"),
            Call::Get("a", b"one"),
            Call::Load("a", 9, Read::Whole(b"one")),
            Call::Load("a", 9, Read::Failed),
            Call::Replace("b", b"three"),
            Call::Get("a", b"one"),
            Call::Get("b", b"three"),
            Call::None("c"),
        ],
    ),
];

/// Whether each call answers what it is to.
fn are_answered(alloc: Global, fail: &[u32], calls: &[Call]) -> Result<bool, NoMemory> {
    let mut keeper = MemKeeper::new(alloc, numbers(alloc, fail)?);
    for call in calls {
        if !is_answered(&mut keeper, call) {
            return Ok(false);
        }
    }
    Ok(true)
}

#[test]
fn keepers(rt: HostRuntime) -> Result<(), Fail> {
    for (row, fail, calls) in &KEEPERS {
        expect(are_answered(rt.alloc(), fail, calls)?, row)?;
    }
    Ok(())
}
