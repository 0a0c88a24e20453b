//! The list of sources.
ghost use Rattle.std.specs.Prelude.{◌≡◌, ◌≢◌, ◌++◌, ◌+◌, List, ℕ, Err, Some, IfOk, IfErr, IfSome, OnOk, MatchResult, filter, count_by};
ghost use Rattle.std.specs.List.Sorted.{IsStrictlySortedBy};
ghost use Rattle.pj_outside.specs.Files.{listed_at};
ghost use Rattle.pj_sources.specs.Faults.{CountsListFaults};
ghost use Rattle.pj_sources.specs.Listing.{IsInOrder, AreListedBy, AreSourcesOf, IsListing, SaysNoListing, SaysNoItem, IsOfItems, IsOfItem, IsUnordered};
ghost use Rattle.pj_sources.specs.Paths.{byte_order, is_source, is_module_info, path_listed};

use crate::paths::{is_module_info, is_source, path_listed};
use crate::refused::ListRefused;
use pj_base::{Copied, Names, NoMemory, Text};
use pj_outside::{Refused, Tree};
use std::alloc::Global;

/// The source files that a run is asked for.
#[derive(Debug, Drop)]
pub struct Listing {
    /// Their paths, each once, in the order of their bytes.
    pub paths: Names,
    /// How many of the listed paths are of a `module-info.java`, each as often as it is listed.
    pub skipped: u32,
}

/// How many of the paths are of a `module-info.java`.
fn count_modules(paths: &Names) -> usize
    ensures { result ≡ count_by is_module_info paths.now }
{
    paths
        .as_slice()
        .iter()
        .filter(|path| is_module_info(path.as_str()))
        .count()
}

/// The paths among these that are of source files, in their order.
fn sources_among(paths: Names) -> Names
    ensures { result ≡ filter is_source paths }
{
    let mut held = paths.into_vec();
    held.retain(|path| is_source(path.as_str()));
    Names::from_vec(held)
}

/// A count and so many more. More than 4,294,967,295 is want of memory.
fn count_more(count: u32, more: usize) -> Result<u32, NoMemory>
    ensures { IfOk result (λ sum. sum ≡ count + more) }
{
    let Ok(more) = u32::try_from(more) else {
        return Err(NoMemory);
    };
    match count.checked_add(more) {
        Some(sum) => Ok(sum),
        None => Err(NoMemory),
    }
}

/// Takes listed paths into the list of sources.
fn take_listed(sources: &mut Listing, listed: Names) -> Result<(), NoMemory>
    ensures paths { OnOk result (sources.new.paths ≡ sources.old.paths ++ filter is_source listed) }
    ensures skipped { OnOk result (sources.new.skipped ≡ sources.old.skipped + count_by is_module_info listed) }
{
    sources.skipped = count_more(sources.skipped, count_modules(&listed))?;
    sources.paths.append(sources_among(listed))
}

/// The paths, each once, in the order of their bytes. It takes no memory.
fn in_order(paths: Names) -> Names
    ensures { IsInOrder paths result }
{
    let mut held = paths.into_vec();
    held.sort_unstable();
    held.dedup();
    Names::from_vec(held)
}

/// The paths that an item lists.
fn list_item<T: Tree>(tree: &mut T, item: &Text) -> Result<Names, ListRefused>
    ensures listed { IfSome (T.holds tree.old) (λ files. MatchResult result (λ paths. listed_at files (path_listed item.now) ≡ Some paths) (SaysNoItem files item.now)) }
    ensures at_or_below { IfOk result (AreListedBy item.now) }
    ensures named { IfErr result (IsOfItem item.now) }
    ensures same_files { T.holds tree.new ≡ T.holds tree.old }
    ensures counts_faults { CountsListFaults (T.faults tree.old) (T.faults tree.new) result }
    ensures steady { T.never_fails tree.old → T.never_fails tree.new × (result ≢ Err ListRefused.Failed) }
{
    match tree.list(path_listed(item.as_str())) {
        Err(Refused::Failed) => Err(ListRefused::Failed),
        Err(Refused::Memory) => Err(ListRefused::Memory),
        Ok(Some(paths)) => Ok(paths),
        Ok(None) => Err(ListRefused::Missing(item.copied()?)),
    }
}

/// The sources among the paths that the items list, doubles and all, in no order.
fn list_items<T: Tree>(alloc: Global, tree: &mut T, items: &Names) -> Result<Listing, ListRefused>
    ensures listed { IfSome (T.holds tree.old) (λ files. MatchResult result (IsUnordered files items.now) (SaysNoListing files items.now)) }
    ensures paths { IfOk result (λ sources. AreSourcesOf items.now sources.paths) }
    ensures named { IfErr result (IsOfItems items.now) }
    ensures same_files { T.holds tree.new ≡ T.holds tree.old }
    ensures counts_faults { CountsListFaults (T.faults tree.old) (T.faults tree.new) result }
    ensures steady { T.never_fails tree.old → T.never_fails tree.new × (result ≢ Err ListRefused.Failed) }
{
    let mut sources = Listing {
        paths: Names::new(alloc),
        skipped: 0,
    };
    for item in items.as_slice() {
        let listed = list_item(tree, item)?;
        take_listed(&mut sources, listed)?;
    }
    Ok(sources)
}

/// Lists the sources of a run: the files at its items and below them, each item without its last `/` where it ends in
/// one and is longer than that.
///
/// Paths that end in `.java` are kept, those whose last part is `module-info.java` are counted and left out, doubles are
/// dropped, and the rest is sorted by bytes. `Missing` comes exactly where there is nothing at an item or below it, with
/// the first such item as written. More than 4,294,967,295 counted paths are want of memory.
pub fn list_sources<T: Tree>(
    alloc: Global,
    tree: &mut T,
    items: &Names,
) -> Result<Listing, ListRefused>
    ensures listing { IfSome (T.holds tree.old) (λ files. MatchResult result (IsListing files items.now) (SaysNoListing files items.now)) }
    ensures ascending { IfOk result (λ listing. IsStrictlySortedBy byte_order listing.paths) }
    ensures paths { IfOk result (λ listing. AreSourcesOf items.now listing.paths) }
    ensures named { IfErr result (IsOfItems items.now) }
    ensures same_files { T.holds tree.new ≡ T.holds tree.old }
    ensures counts_faults { CountsListFaults (T.faults tree.old) (T.faults tree.new) result }
    ensures steady { T.never_fails tree.old → T.never_fails tree.new × (result ≢ Err ListRefused.Failed) }
{
    let Listing { paths, skipped } = list_items(alloc, tree, items)?;
    Ok(Listing {
        paths: in_order(paths),
        skipped,
    })
}
