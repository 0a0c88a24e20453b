//! What came of files, in the order of their numbers.
ghost use Rattle.std.specs.Prelude.{◌≡◌, IfOk, IsSome, None, Some, length, map, replicate};
ghost use Rattle.std.specs.List.{AllByRecursion};
ghost use Rattle.pj_crew.specs.Placing.{AreOnceEach, AreBelow, ArePlaced, all_results, put_all};

use pj_base::NoMemory;
use pj_seats::Share;
use std::alloc::Global;

/// Places for what comes of so many files.
fn no_results<M: Drop>(alloc: Global, files: u32) -> Result<Vec<Option<M>>, NoMemory>
    ensures { IfOk result (λ places. places.items ≡ replicate files None) }
{
    let mut places = Vec::new(alloc);
    for _ in 0..files {
        places.push(None)?;
    }
    Ok(places)
}

/// Puts what came of the files of a share at their numbers.
#[tactic(auto, using(crate::proofs::Lists::is_empty))]
fn put_share<M: Drop>(places: &mut [Option<M>], share: Share<M>)
    requires { AreBelow (length places.old) share.results.items }
    ensures { places.new ≡ put_all places.old share.results.items }
{
    let Share { results } = share;
    for (file, made) in results {
        places[file as usize] = Some(made);
    }
}

/// What is at each place.
fn all_there<M: Drop>(alloc: Global, places: Vec<Option<M>>) -> Result<Vec<M>, NoMemory>
    requires { AllByRecursion IsSome places.items }
    ensures { IfOk result (λ made. map (λ one. Some one) made.items ≡ places.items) }
{
    let mut made = Vec::new(alloc);
    for place in places {
        match place {
            Some(one) => made.push(one)?,
            None => unreachable!(),
        }
    }
    Ok(made)
}

/// What came of files, in the order of their numbers. The condition is that each number stands in one share, once.
#[tactic(auto, using(crate::proofs::Lists::are_placed, crate::proofs::Lists::are_there, crate::proofs::Lists::is_empty))]
pub fn by_number<M: Drop>(
    alloc: Global,
    files: u32,
    shares: Vec<Share<M>>,
) -> Result<Vec<M>, NoMemory>
    requires { AreOnceEach files (all_results shares.items) }
    ensures { IfOk result (λ made. ArePlaced files (all_results shares.items) made.items) }
{
    let mut places = no_results(alloc, files)?;
    for share in shares {
        put_share(places.as_mut_slice(), share);
    }
    all_there(alloc, places)
}
