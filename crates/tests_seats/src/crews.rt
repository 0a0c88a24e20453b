//! Several workers, each with a door, at files that ask for one class each.
use crate::classes::{OneClass, are, class_path, folder_names, names};
use pj_crew::{CrewResult, open_doors, shut_doors, work_together};
use pj_names::{Answer, AskFault};
use pj_outside::Refused;
use pj_seats::{Gate, OpenGate};
use std::alloc::Global;
use std::sync::atomic::{AtomicBool, Ordering};
use std::sync::{Arc, Wait};
use std::test::Fail;
use std::thread::{Threads, yield_now};

/// How often the flag of a gate is read before it gives up: so many times as the thread yields, and so often each time.
const YIELDS: u32 = 1_000_000;

const READS: u32 = 1_000;

/// A gate at which the worker of file 0 waits until file 1 was claimed. It gives up after 1,000,000,000 reads of its flag.
#[derive(Drop)]
struct Crossing {
    came: AtomicBool,
    gave_up: AtomicBool,
}

impl Gate for Crossing {
    fn arrive(&self, file: u32) {
        if file == 1 {
            self.came.store(true, Ordering::SeqCst);
        }
        if file == 0 {
            for _ in 0..YIELDS {
                for _ in 0..READS {
                    if self.came.load(Ordering::SeqCst) {
                        return;
                    }
                }
                yield_now();
            }
            self.gave_up.store(true, Ordering::SeqCst);
        }
    }
}

/// What so many workers make of all files, and how many finds their doors had.
fn work_by<R: Threads + Wait + Sync, G: Gate + Sync>(
    rt: &R,
    alloc: Global,
    workers: u32,
    classes: &[&str],
    wanting: u32,
    fails: u32,
    gate: &G,
) -> Result<(Result<CrewResult<Arc<Answer>>, AskFault>, u64), Fail> {
    if workers == 0 || workers > 64 {
        return Err(Fail::new("1 to 64 workers"));
    }
    let work = OneClass {
        names: names(alloc, classes)?,
        wanting,
    };
    let files = u32::try_from(work.names.len()).map_err(|_| "too many files")?;
    let mut path = class_path(alloc, fails)?;
    let folders = folder_names(alloc)?;
    let mut doors = Vec::with_capacity(alloc, workers as usize)?;
    let opened = open_doors(&mut path, &folders, workers, &mut doors);
    let made = match opened {
        Ok(()) => work_together(rt, alloc, &mut doors, files, &work, gate),
        Err(Refused::Failed) => Err(AskFault::Failed),
        Err(Refused::Memory) => Err(AskFault::Memory),
    };
    shut_doors(&mut path, doors);
    Ok((made, path.finds()))
}

/// Workers: what a row shows; how many there are; the classes of the files; how many of these want memory; the find of each door that fails; for each file whether its class
/// is absent, or nothing where a worker fails; and how many finds the doors had together.
type Row = (
    &'static str,
    u32,
    &'static [&'static str],
    u32,
    u32,
    Option<&'static [bool]>,
    u64,
);

static ROWS: [Row; 9] = [
    ("no file", 2, &[], 0, 0, Some(&[]), 0),
    (
        "one worker",
        1,
        &["p.A", "p.B", "p.A"],
        0,
        0,
        Some(&[false, true, false]),
        2,
    ),
    (
        "a class is found once, whoever asks",
        2,
        &["p.A", "p.B", "p.A", "p.B", "p.C", "p.A"],
        0,
        0,
        Some(&[false, true, false, true, true, false]),
        3,
    ),
    (
        "more workers than files",
        8,
        &["p.B", "p.A"],
        0,
        0,
        Some(&[true, false]),
        2,
    ),
    (
        "sixty-four workers",
        64,
        &["p.A", "p.A", "p.A", "p.B"],
        0,
        0,
        Some(&[false, false, false, true]),
        2,
    ),
    (
        "a find that fails ends the work",
        1,
        &["p.A", "p.B"],
        0,
        2,
        None,
        2,
    ),
    (
        "both workers fail at their first find",
        2,
        &["p.A", "p.B"],
        0,
        1,
        None,
        2,
    ),
    (
        "a door that fails at the second file goes before want of memory at the first",
        2,
        &["p.A", "p.B"],
        1,
        1,
        None,
        1,
    ),
    (
        "doors that fail go before want of memory, wherever it comes",
        3,
        &["p.A", "p.B", "p.C"],
        1,
        1,
        None,
        2,
    ),
];

/// Whether the work came to what the row says.
fn is_made(made: &Result<CrewResult<Arc<Answer>>, AskFault>, wanted: Option<&[bool]>) -> bool {
    match (made, wanted) {
        (Ok(crew), Some(absent)) => are(crew.made.as_slice(), absent),
        (Err(AskFault::Failed), None) => true,
        _ => false,
    }
}

/// Whether a row is so.
fn is_row<R: Threads + Wait + Sync>(rt: &R, alloc: Global, row: &Row) -> Result<bool, Fail> {
    let (_, workers, classes, wanting, fails, wanted, finds) = *row;
    let (made, found) = work_by(rt, alloc, workers, classes, wanting, fails, &OpenGate)?;
    Ok(is_made(&made, wanted) && found == finds)
}

#[test]
fn crews(rt: HostRuntime) -> Result<(), Fail> {
    for row in &ROWS {
        if !is_row(&rt, rt.alloc(), row)? {
            return Err(Fail::new(row.0));
        }
    }
    Ok(())
}

#[test]
fn two_workers_are_at_work_at_once(rt: HostRuntime) -> Result<(), Fail> {
    let gate = Crossing {
        came: AtomicBool::new(false),
        gave_up: AtomicBool::new(false),
    };
    let (made, _) = work_by(&rt, rt.alloc(), 2, &["p.A", "p.B"], 0, 0, &gate)?;
    if gate.gave_up.load(Ordering::SeqCst) {
        return Err(Fail::new("no second worker came"));
    }
    if !is_made(&made, Some(&[false, true])) {
        return Err(Fail::new("two workers at two files"));
    }
    Ok(())
}
