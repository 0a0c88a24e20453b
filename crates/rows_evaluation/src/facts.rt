//! The attributes of the small tree.
ghost use Rattle.std.specs.Prelude.{◌≡◌, option_map};
ghost use Rattle.pj_xvalue.specs.Attributes.{attribute_value};
ghost use Rattle.rows_evaluation.specs.Table.{final, named, sized};

use pj_tree::{Node, Place};
use pj_xvalue::{Attributes, Modifiers, Value};

static NAMES: [&str; 3] = ["Name", "Size", "Final"];

/// The name of the attribute at a place.
pub fn attribute_name(place: u32) -> &'static str {
    NAMES.get(place as usize).copied().unwrap_or("?")
}

/// The place of the attribute of this name.
pub fn attribute_place(name: &str) -> Option<u32> {
    match name {
        "Name" => Some(0),
        "Size" => Some(1),
        "Final" => Some(2),
        _ => None,
    }
}

/// `Name` of the identifiers 2, 4, 7 and 8: x, y, x, z; `Size` of the blocks, which is their number; `Final` of the classes,
/// which is true of the second.
#[derive(Drop)]
pub struct Facts {
    pub nodes: u32,
}

fn named(n: Node) -> Option<Value<'static>>
    ensures { option_map attribute_value result ≡ named n }
{
    match n.0 {
        2 => Some(Value::Str("x")),
        4 => Some(Value::Str("y")),
        7 => Some(Value::Str("x")),
        8 => Some(Value::Str("z")),
        _ => None,
    }
}

fn sized(n: Node) -> Option<Value<'static>>
    ensures { option_map attribute_value result ≡ sized n }
{
    match n.0 {
        3 => Some(Value::Int(3)),
        6 => Some(Value::Int(6)),
        9 => Some(Value::Int(9)),
        11 => Some(Value::Int(11)),
        _ => None,
    }
}

fn is_final(n: Node) -> Option<Value<'static>>
    ensures { option_map attribute_value result ≡ final n }
{
    match n.0 {
        1 => Some(Value::Bool(false)),
        5 => Some(Value::Bool(true)),
        _ => None,
    }
}

impl Attributes for Facts {
    ghost use Rattle.rows_evaluation.specs.Table.{table_names, value_in};
    ghost use Rattle.rows_evaluation.specs.TableLaws as laws;

    ghost nodes = { λ facts. facts.nodes };

    ghost text_length = { λ facts. 0 };

    ghost attribute_of = { λ facts n name. value_in n name };

    ghost names_of = { λ facts n. table_names };

    ghost modifiers_of = { λ facts n effective. record { 0 = 0 } };

    ghost place_of = { λ facts offset. record { line = 1; column = 1 } };

    ghost attribute_kind = { λ facts n name inside. laws.kind n name };

    ghost names_few = { λ facts n inside. laws.few };

    ghost names_differ = { λ facts n inside. laws.differ };

    ghost names_complete = { λ facts n name inside. laws.complete n name };

    fn attribute(&self, n: Node, name: &str) -> Option<Value<'_>> {
        match name {
            "Name" => named(n),
            "Size" => sized(n),
            "Final" => is_final(n),
            _ => None,
        }
    }

    fn names(&self, n: Node) -> &'static [&'static str] {
        let _ = n;
        &NAMES
    }

    fn modifiers(&self, n: Node, effective: bool) -> Modifiers {
        let _ = (n, effective);
        Modifiers(0)
    }

    fn place(&self, offset: u32) -> Place {
        let _ = offset;
        Place { line: 1, column: 1 }
    }
}
