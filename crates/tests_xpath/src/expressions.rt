//! Expressions that were made by hand are expressions, as contracts have them.

ghost use Rattle.std.specs.Prelude.{◌≡◌, ◌<◌, ℕ, [], IfOk};
ghost use Rattle.pj_xexpressions.specs.Expressions.{IsExpression, part_of};

use pj_base::{NoMemory, Text};
use pj_xexpressions::{Expr, Function};
use std::alloc::Global;
use std::test::Fail;

/// `left or right`, where there is room for parentheses around both.
fn either(alloc: Global, left: Expr, right: Expr) -> Result<Expr, NoMemory>
    requires left { IsExpression [] left }
    requires right { IsExpression [] right }
    requires room_left { (part_of left).nesting < 200 }
    requires room_right { (part_of right).nesting < 200 }
    ensures { IfOk result (λ made. IsExpression [] made) }
{
    let mut parts = Vec::new(alloc);
    parts.push(left)?;
    parts.push(right)?;
    Ok(Expr::Or(parts))
}

/// `matches('x', 'y', 'i')`.
fn matching(alloc: Global) -> Result<Expr, NoMemory>
    ensures expression { IfOk result (λ made. IsExpression [] made) }
    ensures nesting { IfOk result (λ made. (part_of made).nesting ≡ 1) }
{
    let mut arguments = Vec::new(alloc);
    arguments.push(Expr::String(Text::from_str(alloc, "x")?))?;
    arguments.push(Expr::String(Text::from_str(alloc, "y")?))?;
    arguments.push(Expr::String(Text::from_str(alloc, "i")?))?;
    Ok(Expr::Call(Function::Matches, arguments))
}

#[test]
fn made_by_hand(rt: HostRuntime) -> Result<(), Fail> {
    let made = either(rt.alloc(), matching(rt.alloc())?, matching(rt.alloc())?)?;
    assert!(rt; matches!(made, Expr::Or(_)));
    Ok(())
}
