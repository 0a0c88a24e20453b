//! The axes of nodes.

/// An axis (XPath 2.0, 3.2.1.1) but `namespace`, and `attribute`, whose step is a construct of its own.
#[derive(Clone, Copy, Debug, PartialEq, Eq)]
pub enum Axis {
    /// The nodes whose parent is the context node.
    Child,
    /// The nodes that have the context node among their ancestors.
    Descendant,
    /// The context node.
    SelfNode,
    /// The context node and its descendants.
    DescendantOrSelf,
    /// The later nodes with the context node's parent.
    FollowingSibling,
    /// The later nodes that are no descendants.
    Following,
    /// The context node's parent.
    Parent,
    /// The context node's parent, that one's parent, and so on.
    Ancestor,
    /// The earlier nodes with the context node's parent.
    PrecedingSibling,
    /// The earlier nodes that are no ancestors.
    Preceding,
    /// The context node and its ancestors.
    AncestorOrSelf,
}
