//! Runs over a cache that was cut or changed at many places in turn.
use crate::place::Place;
use pj_base::{Bytes, Copied, NoMemory};
use pj_rows::{Row, Section, Table, put};
use std::alloc::Global;
use std::fmt::Write;

/// The table of caches that are damaged.
pub struct Damages;

/// What is done to a cache.
#[derive(Clone, Copy)]
enum Damage {
    /// Only so many first bytes are left.
    Cut,
    /// The lowest bit of a byte is changed.
    Flip,
}

/// At which places something is done to a cache.
#[derive(Clone, Copy)]
struct Places {
    damage: Damage,
    first: usize,
    last: usize,
    step: usize,
}

/// The places that a row gives, as `cut 0 to 43` or `flip 8 to 290 by 7`.
fn places_of(given: &str) -> Option<Places> {
    let (damage, rest) = match given.strip_prefix("cut ") {
        Some(rest) => (Damage::Cut, rest),
        None => (Damage::Flip, given.strip_prefix("flip ")?),
    };
    let (first, rest) = rest.split_once(" to ")?;
    let (last, step) = rest.split_once(" by ").unwrap_or((rest, "1"));
    Some(Places {
        damage,
        first: first.parse::<usize>().ok()?,
        last: last.parse::<usize>().ok()?,
        step: step.parse::<usize>().ok()?,
    })
}

/// What comes of a run over a whole cache that was damaged at a place.
fn run_at(
    alloc: Global,
    section: &Section,
    command: &str,
    whole: &Bytes,
    damage: Damage,
    place: usize,
) -> Result<String, NoMemory> {
    let mut over = Place::new(alloc, section, false)?;
    over.keeper.put(whole.as_slice())?;
    over.note_cache()?;
    match damage {
        Damage::Cut => over.keeper.cut_to(place)?,
        Damage::Flip => over.keeper.flip(place)?,
    }
    let ran = over.run(alloc, section, command)?;
    let mut out = String::new(alloc);
    over.put_run(alloc, &mut out, command, &ran)?;
    Ok(out)
}

/// The cache that a first run leaves, if it leaves one.
fn whole_cache(alloc: Global, section: &Section, command: &str) -> Result<Option<Bytes>, NoMemory> {
    let mut place = Place::new(alloc, section, false)?;
    let _ran = place.run(alloc, section, command)?;
    match place.keeper.cache() {
        Some(bytes) => Ok(Some(bytes.copied()?)),
        None => Ok(None),
    }
}

/// What comes of the runs over a cache that is damaged at one of the places each: what comes of the first one, and the first place at which something else comes, with that.
fn put_damages(
    out: &mut String,
    alloc: Global,
    section: &Section,
    whole: &Bytes,
    places: Places,
) -> Result<(), NoMemory> {
    let command = section.setting("run").unwrap_or("");
    let mut wanted = String::new(alloc);
    for place in places.first..places.last.saturating_add(1) {
        let behind = place.saturating_sub(places.first);
        if behind.checked_rem(places.step) != Some(0) && place != places.last {
            continue;
        }
        let found = run_at(alloc, section, command, whole, places.damage, place)?;
        if wanted.is_empty() {
            put(out, &[found.as_str()])?;
            wanted = found;
        } else if wanted.as_str() != found.as_str() {
            write!(out, "\nat {place}: ")?;
            return put(out, &[found.as_str()]);
        }
    }
    Ok(())
}

impl Table for Damages {
    fn has_setting(&self, name: &str) -> bool {
        matches!(name, "file" | "run")
    }

    fn answer(&self, alloc: Global, section: &Section, row: &Row) -> Result<String, NoMemory> {
        let mut out = String::new(alloc);
        let command = section.setting("run").unwrap_or("");
        match (
            places_of(row.given.as_str()),
            whole_cache(alloc, section, command)?,
        ) {
            (Some(places), Some(whole)) => {
                put_damages(&mut out, alloc, section, &whole, places)?;
            }
            _ => put(&mut out, &["! no places, or no cache"])?,
        }
        Ok(out)
    }
}
