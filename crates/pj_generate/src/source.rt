//! The texts of a generated class.
ghost use Rattle.std.specs.Prelude.{◌≡◌, ◌/◌, IfOk, string_bytes};
ghost use Rattle.pj_generate.specs.Source.{class_path, extends_clause, internal_name, internal_super, source_path, source_text};

use pj_base::{NoMemory, Text};
use std::alloc::Global;

/// The part of a declaration that names the superclass.
fn extends_clause(alloc: Global, i: u32) -> Result<String, NoMemory>
    ensures { IfOk result (λ text. string_bytes text ≡ extends_clause i) }
{
    if i == 0 {
        return Ok(String::new(alloc));
    }
    let above = i / 2;
    Ok(format!(in alloc; " extends C{above}")?)
}

/// The source of a class.
pub(crate) fn source_text(alloc: Global, i: u32) -> Result<Text, NoMemory>
    ensures { IfOk result (λ text. text ≡ source_text i) }
{
    let extends = extends_clause(alloc, i)?;
    let text = format!(in alloc;
        "package gen;\nclass C{i}{extends} {{\n  int f(int a) {{ return a + {i} + 1; }}\n}}\n"
    )?;
    Ok(Text::from_string(text))
}

/// The path of a class's source.
pub(crate) fn source_path(alloc: Global, i: u32) -> Result<Text, NoMemory>
    ensures { IfOk result (λ path. path ≡ source_path i) }
{
    Ok(Text::from_string(format!(in alloc; "gen/C{i}.java")?))
}

/// The path of a class's file in its folder.
pub(crate) fn class_path(alloc: Global, i: u32) -> Result<Text, NoMemory>
    ensures { IfOk result (λ path. path ≡ class_path i) }
{
    Ok(Text::from_string(format!(in alloc; "gen/C{i}.class")?))
}

/// The name of a class, as class files write it.
pub(crate) fn internal_name(alloc: Global, i: u32) -> Result<Text, NoMemory>
    ensures { IfOk result (λ name. name ≡ internal_name i) }
{
    Ok(Text::from_string(format!(in alloc; "gen/C{i}")?))
}

/// The name of its superclass, as class files write it.
pub(crate) fn internal_super(alloc: Global, i: u32) -> Result<Text, NoMemory>
    ensures { IfOk result (λ name. name ≡ internal_super i) }
{
    if i == 0 {
        Text::from_str(alloc, "java/lang/Object")
    } else {
        internal_name(alloc, i / 2)
    }
}
