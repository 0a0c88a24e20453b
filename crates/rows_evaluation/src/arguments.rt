//! The arguments of calls that are written as in XPath.

use pj_base::{Names, NoMemory, Text};
use pj_tree::Node;
use pj_xexpressions::{Expr, Function, Sign};
use pj_xvalue::{Arguments, BoundVars, Item, Sequence};
use std::alloc::Global;

/// The string of the variable `p`.
fn pattern(alloc: Global) -> Result<Sequence<'static>, NoMemory> {
    let text = Text::from_str(alloc, "[0-9]+")?;
    let mut items = Sequence::new(alloc);
    items.push(Item::Str(text))?;
    Ok(items)
}

/// The integer of the variable `n`.
fn number(alloc: Global) -> Result<Sequence<'static>, NoMemory> {
    let mut items = Sequence::new(alloc);
    items.push(Item::Int(7))?;
    Ok(items)
}

/// Puts two strings, those of the variable `two`.
fn push_two(items: &mut Sequence<'static>) -> Result<(), NoMemory> {
    items.push(Item::Borrowed("a"))?;
    items.push(Item::Borrowed("b"))
}

/// The strings of the variable `two`.
fn two(alloc: Global) -> Result<Sequence<'static>, NoMemory> {
    let mut items: Sequence<'static> = Sequence::new(alloc);
    push_two(&mut items)?;
    Ok(items)
}

/// A variable of this name.
fn bind(
    variables: &mut BoundVars<'static>,
    name: Text,
    value: Sequence<'static>,
) -> Result<(), NoMemory> {
    variables.push((name, value))
}

/// Binds `p` to a string that is a pattern.
fn bind_pattern(alloc: Global, variables: &mut BoundVars<'static>) -> Result<(), NoMemory> {
    let name = Text::from_str(alloc, "p")?;
    bind(variables, name, pattern(alloc)?)
}

/// Binds `n` to an integer.
fn bind_number(alloc: Global, variables: &mut BoundVars<'static>) -> Result<(), NoMemory> {
    let name = Text::from_str(alloc, "n")?;
    bind(variables, name, number(alloc)?)
}

/// Binds `two` to two strings.
fn bind_two(alloc: Global, variables: &mut BoundVars<'static>) -> Result<(), NoMemory> {
    let name = Text::from_str(alloc, "two")?;
    bind(variables, name, two(alloc)?)
}

/// Binds the three variables.
fn bind_all(alloc: Global, variables: &mut BoundVars<'static>) -> Result<(), NoMemory> {
    bind_pattern(alloc, variables)?;
    bind_number(alloc, variables)?;
    bind_two(alloc, variables)
}

/// The variables: `p` is a string that is a pattern, `n` an integer, and `two` two strings.
fn variables(alloc: Global) -> Result<BoundVars<'static>, NoMemory> {
    let mut variables: BoundVars<'static> = BoundVars::new(alloc);
    bind_all(alloc, &mut variables)?;
    Ok(variables)
}

/// Puts a name behind the others.
fn push_name(alloc: Global, names: &mut Names, name: &str) -> Result<(), NoMemory> {
    names.push(Text::from_str(alloc, name)?)
}

/// The names of the variables.
fn names(alloc: Global) -> Result<Names, NoMemory> {
    let mut names = Names::new(alloc);
    for name in ["p", "n", "two"] {
        push_name(alloc, &mut names, name)?;
    }
    Ok(names)
}

/// The integer with a minus sign. One past 64 bits has none, and there it is the least integer.
fn negative(operand: &Expr) -> i64 {
    match operand {
        Expr::Integer(Some(value)) => value.wrapping_neg(),
        _ => i64::MIN,
    }
}

/// Puts the items of a variable.
fn push_variable(name: &str, items: &mut Sequence<'static>) -> Result<(), NoMemory> {
    match name {
        "p" => items.push(Item::Borrowed("[0-9]+")),
        "n" => items.push(Item::Int(7)),
        _ => push_two(items),
    }
}

/// Puts the string of a literal.
fn push_string(alloc: Global, text: &str, items: &mut Sequence<'static>) -> Result<(), NoMemory> {
    items.push(Item::Str(Text::from_str(alloc, text)?))
}

/// Puts the one item of an argument.
fn push_item(alloc: Global, expr: &Expr, items: &mut Sequence<'static>) -> Result<(), NoMemory> {
    match expr {
        Expr::String(text) => push_string(alloc, text.as_str(), items),
        Expr::Integer(Some(value)) => items.push(Item::Int(*value)),
        Expr::Unary(Sign::Minus, operand) => items.push(Item::Int(negative(operand))),
        Expr::Call(Function::True, _) => items.push(Item::Bool(true)),
        Expr::Call(Function::False, _) => items.push(Item::Bool(false)),
        Expr::ContextItem => items.push(Item::Node(Node(0))),
        Expr::Root => items.push(Item::Document),
        Expr::Variable(name) => push_variable(name.as_str(), items),
        _ => Ok(()),
    }
}

/// Puts the items of an argument: literals, `-` before one (before one past 64 bits it is the least integer), `true()`,
/// `false()`, variables, `.` for an element, `/` for the document, and these with commas between them.
fn push_items(alloc: Global, expr: &Expr, items: &mut Sequence<'static>) -> Result<(), NoMemory> {
    let Expr::Comma(parts) = expr else {
        return push_item(alloc, expr, items);
    };
    for part in parts.as_slice() {
        push_items(alloc, part, items)?;
    }
    Ok(())
}

/// The items of an argument.
fn items_of(alloc: Global, argument: &Expr) -> Result<Sequence<'static>, NoMemory> {
    let mut items: Sequence<'static> = Sequence::new(alloc);
    push_items(alloc, argument, &mut items)?;
    Ok(items)
}

/// Puts an argument behind the others.
fn push_argument(
    alloc: Global,
    all: &mut Arguments<'static>,
    argument: &Expr,
) -> Result<(), NoMemory> {
    all.push(items_of(alloc, argument)?)
}

/// The arguments of a call.
pub fn arguments_of(alloc: Global, arguments: &[Expr]) -> Result<Arguments<'static>, NoMemory> {
    let mut all = Arguments::new(alloc);
    for argument in arguments {
        push_argument(alloc, &mut all, argument)?;
    }
    Ok(all)
}

/// The names of the variables, and what they are.
#[derive(Drop)]
pub struct InScope {
    /// The names.
    pub names: Names,
    /// The values.
    pub variables: BoundVars<'static>,
}

/// The three variables.
pub fn in_scope(alloc: Global) -> Result<InScope, NoMemory> {
    let names = names(alloc)?;
    let variables = variables(alloc)?;
    Ok(InScope { names, variables })
}
