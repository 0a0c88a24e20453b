//! A project of any size.
ghost use Rattle.std.specs.Prelude.{◌≡◌, IfOk};
ghost use Rattle.pj_generate.specs.Projects.{class_row, classes, rules_text, source_row, sources};

use crate::class_file::small_class;
use crate::source::{class_path, internal_name, internal_super, source_path, source_text};
use pj_base::{Bytes, NoMemory, Text};
use pj_outside::Files;
use std::alloc::Global;

/// A project in memory.
#[derive(Drop)]
pub struct Project {
    /// The sources, which lie in the folder `gen`.
    pub files: Files,
    /// The class files of the same classes, by their paths in a class folder.
    pub classes: Files,
    /// A ruleset with two rules: `T` finds the classes that are a `gen.C2`, and `I` operators between operands.
    pub rules: Text,
}

/// The source of class `i`, with its path.
fn source_row(alloc: Global, i: u32) -> Result<(Text, Bytes), NoMemory>
    ensures { IfOk result (λ row. row ≡ source_row i) }
{
    let path = source_path(alloc, i)?;
    let text = source_text(alloc, i)?;
    Ok((path, Bytes::from_vec(text.into_string().into_bytes())))
}

/// The class file of class `i`, with its path in a class folder.
fn class_row(alloc: Global, i: u32) -> Result<(Text, Bytes), NoMemory>
    ensures { IfOk result (λ row. row ≡ class_row i) }
{
    let path = class_path(alloc, i)?;
    let name = internal_name(alloc, i)?;
    let above = internal_super(alloc, i)?;
    Ok((path, small_class(alloc, name.as_str(), above.as_str())?))
}

/// The sources of `n` classes.
fn sources(alloc: Global, n: u32) -> Result<Files, NoMemory>
    ensures { IfOk result (λ files. files ≡ sources n) }
{
    let mut files = Files::new(alloc);
    for i in 0..n {
        let row = source_row(alloc, i)?;
        files.push(row)?;
    }
    Ok(files)
}

/// The class files of `n` classes.
fn classes(alloc: Global, n: u32) -> Result<Files, NoMemory>
    ensures { IfOk result (λ files. files ≡ classes n) }
{
    let mut files = Files::new(alloc);
    for i in 0..n {
        let row = class_row(alloc, i)?;
        files.push(row)?;
    }
    Ok(files)
}

/// The project of `n` classes, of which each but the first extends the one of half its number.
pub fn project_of(alloc: Global, n: u32) -> Result<Project, NoMemory>
    ensures files { IfOk result (λ made. made.files ≡ sources n) }
    ensures classes { IfOk result (λ made. made.classes ≡ classes n) }
    ensures rules { IfOk result (λ made. made.rules ≡ rules_text) }
{
    Ok(Project {
        files: sources(alloc, n)?,
        classes: classes(alloc, n)?,
        rules: Text::from_str(
            alloc,
            "<ruleset name=\"generated\">\n<rule name=\"T\" language=\"java\" message=\"A class that is a C2\" class=\"net.sourceforge.pmd.lang.rule.xpath.XPathRule\"><properties><property name=\"xpath\"><value>//ClassDeclaration[pmd-java:typeIs('gen.C2')]</value></property></properties></rule>\n<rule name=\"I\" language=\"java\" message=\"An operator between operands\" class=\"net.sourceforge.pmd.lang.rule.xpath.XPathRule\"><properties><property name=\"xpath\"><value>//InfixExpression</value></property></properties></rule>\n</ruleset>\n",
        )?,
    })
}
