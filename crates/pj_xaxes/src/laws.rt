//! Laws of the definitions, each the contract of a call that does nothing.
ghost use Rattle.std.specs.Prelude.{◌≡◌, IsTrue, List, filter};
ghost use Rattle.std.specs.List.Sorted.{IsStrictlySortedBy};
ghost use Rattle.pj_xvalue.specs.Items.{ItemValue, are_nodes};
ghost use Rattle.pj_xaxes.specs.Order.{document_order, ordered, has_item};

/// Some nodes, attributes and the document in document order are a filter: of all that there are, in that order, those
/// that are among them (XPath 2.0, 2.4.1 and 3.2).
pub fn ordered_is_a_filter()
    ensures { (items all : List ItemValue) → IsTrue (are_nodes items) → IsTrue (are_nodes all) → IsStrictlySortedBy document_order all
        → ((x : ItemValue) → IsTrue (has_item items x) → IsTrue (has_item all x)) → ordered items ≡ filter (has_item items) all }
{}
