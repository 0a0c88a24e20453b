//! The rows of caches: bytes with the cache that they spell, or what is wrong with them; what one of format 1 becomes; what a cache serves.
#![tactic(auto)]

mod bytes;
mod caches;
mod old;
mod row_fault;
mod served;
mod shown;

use caches::Caches;
use old::OldCaches;
use pj_rows::Run;
use served::Served;
use std::io;
use std::process::ExitCode;

fn main(rt: HostRuntime) -> io::Result<ExitCode> {
    let mut run = Run::new(rt);
    run.table("caches.rows", &Caches);
    run.table("old.rows", &OldCaches);
    run.table("served.rows", &Served);
    Ok(run.end())
}
