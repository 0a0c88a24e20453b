//! A keeper over the files of the system.
ghost use Rattle.std.specs.Prelude.{None};

use crate::file::{fault, is_memory, read_at};
use pj_outside::{Failed, Keeper, Reading, Refused};
use std::rt::Files;
use std::{fs, io};

/// A keeper whose names are paths as the working folder sees them. It tells nothing of what it keeps.
#[derive(Drop)]
pub struct RealKeeper<R: Files + AllocGlobal + Clone + Drop> {
    rt: R,
    process: u32,
    faults: u64,
}

impl<R: Files + AllocGlobal + Clone + Drop> RealKeeper<R> {
    /// A keeper that has not failed yet. The number of the process keeps what it writes apart from what others write at the
    /// same time.
    pub fn new(rt: R, process: u32) -> RealKeeper<R> {
        RealKeeper {
            rt,
            process,
            faults: 0,
        }
    }
}

/// Writes the bytes to a file beside the name, and gives it the name. So the name has its old bytes or the new ones at
/// each moment.
fn write_and_rename<R: Files>(rt: &R, beside: &str, name: &str, bytes: &[u8]) -> io::Result<()> {
    fs::write(rt, beside, bytes)?;
    fs::rename(rt, beside, name)
}

/// Puts the bytes in the place of those under the name; where that fails, nothing is left beside it.
fn replace_at<R: Files + AllocGlobal>(
    rt: &R,
    process: u32,
    name: &str,
    bytes: &[u8],
) -> io::Result<()> {
    let beside = format!(in rt.alloc(); "{name}.{process}.new")?;
    match write_and_rename(rt, beside.as_str(), name, bytes) {
        Ok(()) => Ok(()),
        Err(error) => {
            let _ = fs::remove_file(rt, beside.as_str());
            Err(error)
        }
    }
}

impl<R: Files + AllocGlobal + Clone + Drop> Keeper for RealKeeper<R> {
    ghost holds = { λ _. None };

    ghost faults = { λ k. k.faults };

    fn load(&mut self, name: &str, most: u64) -> Result<Reading, Refused> {
        match read_at(&self.rt, name, most) {
            Ok(reading) => Ok(reading),
            Err(error) if is_memory(&error) => Err(Refused::Memory),
            Err(_) => Err(fault(&mut self.faults)),
        }
    }

    fn replace(&mut self, name: &str, bytes: &[u8]) -> Result<(), Failed> {
        match replace_at(&self.rt, self.process, name, bytes) {
            Ok(()) => Ok(()),
            Err(_) => {
                self.faults = self.faults.saturating_add(1);
                Err(Failed)
            }
        }
    }
}
