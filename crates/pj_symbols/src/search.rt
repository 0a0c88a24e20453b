//! A search among classes.

ghost use Rattle.std.specs.Prelude.{◌≡◌};
ghost use Rattle.std.specs.Option.{option_copied};
ghost use Rattle.pj_symbols.specs.Order.{IsRisingFrom};
ghost use Rattle.pj_symbols.specs.Symbols.{class_in};

use crate::class::Class;
use pj_tree::Node;

/// The class that the node declares, among classes in the order of their nodes: by bisection.
pub fn find_class(classes: &[Class], n: Node) -> Option<&Class>
    requires rising { IsRisingFrom 0 classes.now }
    ensures { option_copied result ≡ class_in classes.now n }
{
    let place = classes.partition_point(|class| class.node.0 < n.0);
    let class = classes.get(place)?;
    if class.node.0 == n.0 {
        Some(class)
    } else {
        None
    }
}
