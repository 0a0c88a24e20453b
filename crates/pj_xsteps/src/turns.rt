//! What turns of a context give: what a predicate keeps, and what the steps of a path come to.
ghost use Rattle.std.specs.Prelude.{◌≡◌, ℕ, IfOk};
ghost use Rattle.pj_xvalue.specs.Items.{values_of};
ghost use Rattle.pj_xvalue.specs.OfTree.{OfTree};
ghost use Rattle.pj_xvalue.specs.Arguments.{seen_as};
ghost use Rattle.pj_xsteps.specs.Turns.{keeps, united as united_of};

use pj_xaxes::in_order;
use pj_xvalue::{Item, Sequence, XCode, are_nodes, boolean_value, has_node};

/// Whether a predicate of this value keeps what stands at the position (XPath 2.0, 3.2.2): one integer is a position, and of
/// everything else the effective boolean value counts.
pub fn keeps_at(position: i64, value: &Sequence<'_>) -> Result<bool, XCode>
    ensures { result ≡ keeps position (values_of value.now) }
{
    match value.as_slice() {
        [item] => match item {
            Item::Int(number) => Ok(*number == position),
            _ => boolean_value(value),
        },
        _ => boolean_value(value),
    }
}

/// What the turns of a path's step give (XPath 2.0, 3.2): nodes in document order, each once, or other items as they come, and
/// XPTY0018 where some are nodes and some are not.
pub fn united<'t>(items: Sequence<'t>) -> Result<Sequence<'t>, XCode>
    ensures value { seen_as values_of result ≡ united_of (values_of items.entry) }
    ensures of_tree { (n : ℕ) → OfTree n (values_of items.entry) → IfOk result (λ found. OfTree n (values_of found)) }
{
    if are_nodes(items.as_slice()) {
        return Ok(in_order(items));
    }
    if has_node(items.as_slice()) {
        return Err(XCode::XPTY0018);
    }
    Ok(items)
}
