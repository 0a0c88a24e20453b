//! Reading places of nodes, and why they are not reported.
ghost use Rattle.std.specs.Prelude.{◌≡◌, ◌≤◌, length};
ghost use Rattle.pj_format.specs.Format.{first};
ghost use Rattle.pj_format.specs.Fields.{Gives};
ghost use Rattle.pj_cache_format.specs.FormatTwo.{reason_of, place};

use pj_format::{Refused, u32_of};
use pj_reports::Reason;
use pj_tree::Place;

/// Why a node is not reported, if it is not: what a byte means.
pub(crate) fn reason_of(tag: u8) -> Result<Option<Reason>, u8>
    ensures { result ≡ reason_of tag }
{
    if tag == 0 {
        Ok(None)
    } else if tag == 1 {
        Ok(Some(Reason::Annotation))
    } else if tag == 2 {
        Ok(Some(Reason::Comment))
    } else if tag == 3 {
        Ok(Some(Reason::Regex))
    } else if tag == 4 {
        Ok(Some(Reason::XPath))
    } else {
        Err(1)
    }
}

/// A line and a column.
#[tactic(auto, using(pj_format::proofs::Laws::reads), unfolding(pj_cache_format::specs::FormatTwo::place))]
pub(crate) fn place_of(bytes: &[u8], at: u32) -> Result<(Place, u32), Refused>
    requires { length bytes.now ≤ 4294967294 }
    ensures { Gives (λ x. x) result (first place bytes.now at) }
{
    let (line, behind) = u32_of(bytes, at)?;
    let (column, behind) = u32_of(bytes, behind)?;
    Ok((Place { line, column }, behind))
}
