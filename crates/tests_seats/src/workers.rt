//! A worker that asks for one class a file.
ghost use Rattle.std.specs.Prelude.{◌≡◌, vec_len};

use crate::classes::{OneClass, class_path, folder_names, names};
use pj_base::NoMemory;
use pj_names::{Answer, AskFault};
use pj_outside::{ClassDoor, ClassPath, MemDoor};
use pj_seats::{OpenGate, Share, Station, claim_loop};
use pj_table::TypeTable;
use std::alloc::Global;
use std::sync::{Arc, Wait};
use std::test::Fail;

/// A door to the folder, of which the find of this number is to fail, from 1; with 0 none is.
fn door(alloc: Global, fails: u32) -> Result<Option<MemDoor>, NoMemory> {
    let mut classes = class_path(alloc, fails)?;
    let names = folder_names(alloc)?;
    Ok(classes.open(&names).ok())
}

/// What a worker makes of all files, alone at a table, and how many finds its door had.
fn work_alone<R: Wait>(
    rt: &R,
    alloc: Global,
    door: MemDoor,
    work: &OneClass,
    files: u32,
) -> Result<(Result<Share<Arc<Answer>>, AskFault>, u64), NoMemory>
    requires { files ≡ vec_len work.now.names }
{
    let (table, seat) = TypeTable::open(alloc, &door, files)?;
    let mut station = Station { seat, door };
    let made = claim_loop(rt, alloc, &table, &mut station, work, &OpenGate);
    Ok((made, station.door.count_finds()))
}

/// Whether each file has its turn, and its class is absent where this says so.
fn are_all(share: &Share<Arc<Answer>>, absent: &[bool]) -> bool {
    for ((_, answer), absent) in share.results.as_slice().iter().zip(absent) {
        if (**answer == Answer::Absent) != *absent {
            return false;
        }
    }
    share.results.len() == absent.len()
}

/// A worker: what a row shows; the classes of its files; the find that fails; for each file whether its class is absent, or
/// nothing where the worker fails; and how many finds the door had.
type Row = (
    &'static str,
    &'static [&'static str],
    u32,
    Option<&'static [bool]>,
    u64,
);

static ROWS: [Row; 4] = [
    ("no file", &[], 0, Some(&[]), 0),
    (
        "a class is found once, whatever is asked between",
        &["p.A", "p.B", "p.A", "p.B"],
        0,
        Some(&[false, true, false, true]),
        2,
    ),
    (
        "a find that fails ends the work",
        &["p.A", "p.B", "p.A"],
        2,
        None,
        2,
    ),
    (
        "a find that is not made does not fail",
        &["p.A", "p.A"],
        2,
        Some(&[false, false]),
        1,
    ),
];

/// Whether the work came to what the row says.
fn is_made(made: &Result<Share<Arc<Answer>>, AskFault>, wanted: Option<&[bool]>) -> bool {
    match (made, wanted) {
        (Ok(share), Some(absent)) => are_all(share, absent),
        (Err(AskFault::Failed), None) => true,
        _ => false,
    }
}

/// Whether a row is so.
fn is_row<R: Wait>(rt: &R, alloc: Global, row: &Row) -> Result<bool, Fail> {
    let (_, classes, fails, wanted, finds) = *row;
    let work = OneClass {
        names: names(alloc, classes)?,
        wanting: 0,
    };
    let files = u32::try_from(work.names.len()).map_err(|_| "too many files")?;
    let door = door(alloc, fails)?.ok_or("no door")?;
    let (made, found) = work_alone(rt, alloc, door, &work, files)?;
    Ok(is_made(&made, wanted) && found == finds)
}

#[test]
fn workers(rt: HostRuntime) -> Result<(), Fail> {
    for row in &ROWS {
        if !is_row(&rt, rt.alloc(), row)? {
            return Err(Fail::new(row.0));
        }
    }
    Ok(())
}
