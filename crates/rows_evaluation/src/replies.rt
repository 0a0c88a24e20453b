//! Replies to the functions of PMD.
ghost use Rattle.std.specs.Prelude.{IsTrue, IfOk, List, ◌≡◌, Err};
ghost use Rattle.pj_names.specs.declared.oracle.AskFault.TheVariants.{Failed};
ghost use Rattle.pj_xvalue.specs.Items.{ItemValue, are_atomic, values_of};
ghost use Rattle.pj_xvalue.specs.Replies.{may_return, outcome};

use pj_base::NoMemory;
use pj_names::AskFault;
use pj_tree::Node;
use pj_xexpressions::PmdFunction;
use pj_xvalue::{Arguments, Calls, Item, Sequence, XCode, XFault};
use std::alloc::Global;

/// `typeIs` is true at nodes of the tree; `matchesSig` comes to a code, and `hasAnnotation` wants memory; the others give the
/// number of the context node, or -1, and how many arguments there are. Nothing is told of it.
#[derive(Drop)]
pub struct Replies {
    pub nodes: u32,
}

/// The number of the context node, or -1, and how many arguments there are.
fn numbers(alloc: Global, at: Option<Node>, count: usize) -> Result<Sequence<'static>, NoMemory>
    ensures { IfOk result (λ items. IsTrue (are_atomic (values_of items))) }
{
    let number = match at {
        Some(n) => n.0 as i64,
        None => -1,
    };
    let mut items = Sequence::new(alloc);
    items.push(Item::Int(number))?;
    items.push(Item::Int(i64::try_from(count).unwrap_or(0)))?;
    Ok(items)
}

fn reply(
    alloc: Global,
    function: PmdFunction,
    at: Option<Node>,
    count: usize,
) -> Result<Sequence<'static>, XFault>
    ensures kind { (arguments : List (List ItemValue)) → IsTrue (may_return function arguments (outcome values_of result)) }
    ensures told { outcome values_of result ≡ Err Failed → ⊥ }
{
    match function {
        PmdFunction::TypeIs => {
            let mut items = Sequence::new(alloc);
            items.push(Item::Bool(at.is_some()))?;
            Ok(items)
        }
        PmdFunction::MatchesSig => Err(XFault::Code(XCode::FORX0003)),
        PmdFunction::HasAnnotation => Err(XFault::Ask(AskFault::Memory)),
        _ => {
            let items = numbers(alloc, at, count)?;
            Ok(items)
        }
    }
}

impl Calls for Replies {
    ghost use Rattle.std.specs.Prelude.{Ok, [], ◌∷◌, false};
    ghost use Rattle.std.specs.FinSet as set;
    ghost use Rattle.rows_evaluation.specs.Untold.{never};
    ghost use Rattle.pj_names.specs.Asking.{Return};
    ghost use Rattle.pj_names.specs.declared.answer.Answer.TheVariants.{Absent};

    ghost nodes = { λ replies. replies.nodes };

    ghost Kept = { Unit {0} };

    ghost tells = { λ replies. record { is_told = false; world = λ depth. record { answer = λ name. Absent; needs = λ name. name ∷ [] }; kept = tt; asked = set.empty; faults = 0 } };

    ghost reply = { λ replies function at arguments. Return (Ok []) };

    ghost reply_kind = { λ replies function at arguments told given inside count depth far. absurd (never told) };

    fn pmd(
        &mut self,
        alloc: Global,
        function: PmdFunction,
        at: Option<Node>,
        arguments: &Arguments<'_>,
    ) -> Result<Sequence<'static>, XFault> {
        reply(alloc, function, at, arguments.len())
    }
}
