//! Steps: tests, filters and paths.

ghost use Rattle.std.specs.Prelude.{◌≡◌, [], map, IfOk};
ghost use Rattle.pj_xtokens.specs.Answer.{lexed_of};
ghost use Rattle.pj_xtokens.specs.First.{first_text};
ghost use Rattle.pj_xexpressions.specs.Trees as tree;
ghost use Rattle.pj_xexpressions.specs.Trees.{alone, tree_of};
ghost use Rattle.pj_xexpressions.specs.declared.expr.NodeTest.TheVariants.{Name};
ghost use Rattle.pj_xreadings.specs.Constructs.{kind_of};
ghost use Rattle.pj_xreadings.specs.Operands.{other, descendants, rooted, path, step, child_step, attribute_step, axis_step, filtered, kind_test};
ghost use Rattle.pj_xreadings.specs.Seen.{seen_reading};

use crate::front::Front;
use crate::operand::{Reading, boxed};
use crate::row::{apart, before};
use pj_base::{NoMemory, Text};
use pj_xexpressions::{Axis, Expr, NodeTest, axis_named};
use pj_xtokens::{Token, first_text};
use std::alloc::Global;

/// The word of a kind test (XPath 2.0, 2.5.4).
#[derive(Clone, Copy)]
pub enum Kind {
    /// `node`
    Node,
    /// `element`
    Element,
}

/// An expression that names nothing.
fn bare<'t>(alloc: Global, expr: Expr) -> Reading<'t>
    ensures { seen_reading result ≡ other (tree_of expr) [] }
{
    Reading::other(expr, Vec::new(alloc))
}

/// `/` alone (XPath 2.0, 3.2).
#[tactic(auto, using(crate::proofs::TreeForms::tree_of_root))]
pub fn root<'t>(alloc: Global) -> Reading<'t>
    ensures { seen_reading result ≡ other (alone tree.Root) [] }
{
    Reading::other(Expr::Root, Vec::new(alloc))
}

/// The step to all nodes beneath, with the node itself, for which `//` stands (XPath 2.0, 3.2.4).
#[tactic(auto, using(crate::proofs::TreeForms::tree_of_step))]
pub fn descendants<'t>(alloc: Global) -> Reading<'t>
    ensures { seen_reading result ≡ descendants }
{
    let test = NodeTest::AnyNode;
    bare(
        alloc,
        Expr::Step(Axis::DescendantOrSelf, test, Vec::new(alloc)),
    )
}

/// The path of the steps behind `/` (XPath 2.0, 3.2).
pub fn rooted<'t>(alloc: Global, steps: Front<Reading<'t>>) -> Result<Reading<'t>, NoMemory>
    ensures { IfOk result (λ made. seen_reading made ≡ rooted (map seen_reading steps.entry)) }
{
    let all = steps.put(bare(alloc, Expr::Root))?;
    let (steps, names) = apart(alloc, all)?;
    Ok(Reading::other(Expr::Path(steps), names))
}

/// The path of the steps, or the only one (XPath 2.0, 3.2).
pub fn path<'t>(alloc: Global, steps: Front<Reading<'t>>) -> Result<Reading<'t>, NoMemory>
    ensures { IfOk result (λ made. seen_reading made ≡ path (map seen_reading steps.entry)) }
{
    match steps.into_only() {
        Ok(step) => Ok(step),
        Err(steps) => {
            let (steps, names) = apart(alloc, steps)?;
            Ok(Reading::other(Expr::Path(steps), names))
        }
    }
}

/// A step of the axis with its predicates (XPath 2.0, 3.2.1).
pub fn along<'t>(
    alloc: Global,
    axis: Axis,
    test: NodeTest,
    predicates: Front<Reading<'t>>,
) -> Result<Reading<'t>, NoMemory>
    ensures { IfOk result (λ made. seen_reading made ≡ step axis test (map seen_reading predicates.entry)) }
{
    let (predicates, names) = apart(alloc, predicates)?;
    Ok(Reading::other(Expr::Step(axis, test, predicates), names))
}

/// A step to children (XPath 2.0, 3.2.4).
pub fn child_step<'t>(
    alloc: Global,
    test: NodeTest,
    predicates: Front<Reading<'t>>,
) -> Result<Reading<'t>, NoMemory>
    ensures { IfOk result (λ made. seen_reading made ≡ child_step test (map seen_reading predicates.entry)) }
{
    along(alloc, Axis::Child, test, predicates)
}

/// A step to attributes (XPath 2.0, 3.2.4).
pub fn attribute_step<'t>(
    alloc: Global,
    test: NodeTest,
    predicates: Front<Reading<'t>>,
) -> Result<Reading<'t>, NoMemory>
    ensures { IfOk result (λ made. seen_reading made ≡ attribute_step test (map seen_reading predicates.entry)) }
{
    let (predicates, names) = apart(alloc, predicates)?;
    Ok(Reading::other(Expr::AttributeStep(test, predicates), names))
}

/// A step of the axis with the name; that which is none of nodes is `attribute` (XPath 2.0, 3.2.1.1).
pub fn axis_step<'t>(
    alloc: Global,
    name: &str,
    test: NodeTest,
    predicates: Front<Reading<'t>>,
) -> Result<Reading<'t>, NoMemory>
    ensures { IfOk result (λ made. seen_reading made ≡ axis_step name.now test (map seen_reading predicates.entry)) }
{
    match axis_named(name) {
        Some(axis) => along(alloc, axis, test, predicates),
        None => attribute_step(alloc, test, predicates),
    }
}

/// The primary expression with its predicates, if there are any (XPath 2.0, 3.3.2).
pub fn filtered<'t>(
    alloc: Global,
    primary: Reading<'t>,
    predicates: Front<Reading<'t>>,
) -> Result<Reading<'t>, NoMemory>
    ensures { IfOk result (λ made. seen_reading made ≡ filtered (seen_reading primary.entry) (map seen_reading predicates.entry)) }
{
    if predicates.is_empty() {
        return Ok(primary);
    }
    let (primary, names) = boxed(alloc, primary)?;
    let (predicates, behind) = apart(alloc, predicates)?;
    let all = before(names, behind)?;
    Ok(Reading::other(Expr::Filter(primary, predicates), all))
}

/// The test for the name that the first token is (XPath 2.0, 3.2.1.2).
pub fn name_test(alloc: Global, tokens: &[Token<'_>]) -> Result<NodeTest, NoMemory>
    ensures { IfOk result (λ made. made ≡ Name (first_text (map lexed_of tokens.now))) }
{
    Ok(NodeTest::Name(Text::from_str(alloc, first_text(tokens))?))
}

/// The test of `node` or `element` before parentheses, else that for the name (XPath 2.0, 2.5.4 and 3.2.1.2).
pub fn kind_test(
    alloc: Global,
    kind: Kind,
    name: &str,
    parentheses: bool,
) -> Result<NodeTest, NoMemory>
    ensures { IfOk result (λ made. made ≡ kind_test (kind_of kind) name.now parentheses) }
{
    if !parentheses {
        return Ok(NodeTest::Name(Text::from_str(alloc, name)?));
    }
    Ok(match kind {
        Kind::Node => NodeTest::AnyNode,
        Kind::Element => NodeTest::AnyElement,
    })
}
