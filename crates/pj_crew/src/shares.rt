//! What workers ended with, together.
ghost use Rattle.std.specs.Prelude.{◌≡◌, IfOk, IsTrue, Ok, Err, false, map};
ghost use Rattle.std.specs.List.{All, Contains};
ghost use Rattle.pj_names.specs.Told.{UnlessFailed};
ghost use Rattle.pj_names.specs.declared.oracle.AskFault.TheVariants as faults;
ghost use Rattle.pj_crew.specs.Crew.{HasNotFailed};

use pj_names::AskFault;
use pj_seats::Share;
use std::alloc::Global;

/// Whether a worker ended since its door failed.
fn has_failed<M: Drop>(ends: &[Result<Share<M>, AskFault>]) -> bool
    ensures yes { IsTrue result → Contains ends.now (Err faults.Failed) }
    ensures no { result ≡ false → All HasNotFailed ends.now }
{
    for end in ends {
        if let Err(AskFault::Failed) = end {
            return true;
        }
    }
    false
}

/// The shares of all workers, in their order. A failed door goes before want of memory.
pub fn all_shares<M: Drop>(
    alloc: Global,
    ends: Vec<Result<Share<M>, AskFault>>,
) -> Result<Vec<Share<M>>, AskFault>
    ensures ok { IfOk result (λ shares. map (λ share. Ok share) shares.items ≡ ends.items) }
    ensures failed { result ≡ Err faults.Failed → Contains ends.items (Err faults.Failed) }
    ensures not_failed { UnlessFailed result (All HasNotFailed ends.items) }
{
    if has_failed(ends.as_slice()) {
        return Err(AskFault::Failed);
    }
    let mut shares = Vec::new(alloc);
    for end in ends {
        match end {
            Ok(share) => shares.push(share)?,
            Err(fault) => return Err(fault),
        }
    }
    Ok(shares)
}
