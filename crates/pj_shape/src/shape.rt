//! What rules make.

ghost use Rattle.std.specs.Prelude.{◌≡◌};
ghost use Rattle.pj_shape.specs.Shaped.{acts, shape_of};

use pj_tree::Kind;

/// What a rule makes of the nodes of its body.
#[derive(Clone, Copy, Debug, PartialEq, Eq)]
pub enum Shape {
    /// The nodes of its body.
    Pass,
    /// A node of this kind over the nodes of its body.
    Node(Kind),
    /// A node of this kind over the nodes of its body where these are two or more, and else what there is.
    Joined(Kind),
    /// A node of this kind over all nodes before it in the body in which it stands, and the nodes of its own body. It
    /// begins where the body in which it stands begins. So a fold nests to the left.
    Turn(Kind),
    /// The same, but for the leading words of a package, which make nothing: see `leads` in `specs/Shaped.antt`.
    Segment(Kind),
}

/// The shape of a rule. One past the table passes its nodes on.
pub fn shape_at(shapes: &[Shape], rule: u16) -> Shape
    ensures { result ≡ shape_of shapes.now rule }
{
    if (rule as usize) < shapes.len() {
        shapes[rule as usize]
    } else {
        Shape::Pass
    }
}

/// What a rule is where it stands, by whether it is a segment that leads.
pub fn act(shape: Shape, leads: bool) -> Shape
    ensures { result ≡ acts shape leads }
{
    match shape {
        Shape::Segment(_) if leads => Shape::Pass,
        Shape::Segment(kind) => Shape::Turn(kind),
        _ => shape,
    }
}
