//! From markup to what is written.
ghost use Rattle.std.specs.Prelude.{◌≡◌, ◌++◌, [], IfOk, OnOk, map};
ghost use Rattle.std.specs.List.{cons_option, filter_map, flat_map};
ghost use Rattle.pj_markup.specs.Elements.{row_at};
ghost use Rattle.pj_rule_texts.specs.Written.{exclude_of, first_text, is_named, part_of, pieces_of_child, property_of, property_pieces, rule_of, written_ruleset};

use crate::written::{Part, Piece, WrittenProperty, WrittenRule, WrittenRuleset};
use pj_base::{ListOf, NoMemory, Text, is_same_text};
use pj_markup::{Element, Markup};
use std::alloc::Global;

/// Whether an element has a name.
fn is_named(markup: &Markup, element: Element, name: &str) -> bool
    ensures { result ≡ is_named name.now (row_at markup.now element.number) }
{
    is_same_text(markup.name(element), name)
}

/// The text of the first element of a name.
fn first_text(markup: &Markup, elements: &[Element], name: &str) -> Result<Option<Text>, NoMemory>
    ensures { IfOk result (λ text. text ≡ first_text name.now (map (λ e. row_at markup.now e.number) elements.now)) }
{
    for element in elements {
        if is_named(markup, *element, name) {
            return Ok(Some(markup.text(*element)?));
        }
    }
    Ok(None)
}

/// The property that an element writes.
fn property_of(markup: &Markup, element: Element) -> Result<WrittenProperty, NoMemory>
    ensures { IfOk result (λ property. property ≡ property_of markup.now (row_at markup.now element.number)) }
{
    let value = match markup.attribute(element, "value")? {
        Some(value) => Some(value),
        None => first_text(markup, markup.children(element), "value")?,
    };
    Ok(WrittenProperty {
        name: markup.attribute(element, "name")?,
        kind: markup.attribute(element, "type")?,
        value,
    })
}

/// Puts an element at the end, if it is a property.
fn put_property(
    markup: &Markup,
    element: Element,
    pieces: &mut ListOf<Piece>,
) -> Result<(), NoMemory>
    ensures { OnOk result (pieces.new ≡ pieces.old ++ property_pieces markup.now (row_at markup.now element.number)) }
{
    if !is_named(markup, element, "property") {
        return Ok(());
    }
    pieces.push(Piece::Property(property_of(markup, element)?))
}

/// Puts the properties among the elements at the end.
fn put_properties(
    markup: &Markup,
    elements: &[Element],
    pieces: &mut ListOf<Piece>,
) -> Result<(), NoMemory>
    ensures { OnOk result (pieces.new ≡ pieces.old ++ flat_map (property_pieces markup.now) (map (λ e. row_at markup.now e.number) elements.now)) }
{
    for element in elements {
        put_property(markup, *element, pieces)?;
    }
    Ok(())
}

/// Puts what a child of a rule has of pieces at the end.
fn put_pieces(markup: &Markup, child: Element, pieces: &mut ListOf<Piece>) -> Result<(), NoMemory>
    ensures { OnOk result (pieces.new ≡ pieces.old ++ pieces_of_child markup.now (row_at markup.now child.number)) }
{
    if is_named(markup, child, "priority") {
        pieces.push(Piece::Priority(markup.text(child)?))
    } else if is_named(markup, child, "properties") {
        put_properties(markup, markup.children(child), pieces)
    } else {
        Ok(())
    }
}

/// The pieces that elements write, in their order.
fn pieces_of(
    alloc: Global,
    markup: &Markup,
    elements: &[Element],
) -> Result<ListOf<Piece>, NoMemory>
    ensures { IfOk result (λ pieces. pieces ≡ flat_map (pieces_of_child markup.now) (map (λ e. row_at markup.now e.number) elements.now)) }
{
    let mut pieces = ListOf::new(alloc);
    for child in elements {
        put_pieces(markup, *child, &mut pieces)?;
    }
    Ok(pieces)
}

/// The name that an element excludes, where it does.
fn exclude_of(markup: &Markup, child: Element) -> Result<Option<Text>, NoMemory>
    ensures { IfOk result (λ name. name ≡ exclude_of markup.now (row_at markup.now child.number)) }
{
    if is_named(markup, child, "exclude") {
        markup.attribute(child, "name")
    } else {
        Ok(None)
    }
}

/// Puts the name that an element excludes at the end.
fn put_exclude(markup: &Markup, child: Element, names: &mut ListOf<Text>) -> Result<(), NoMemory>
    ensures { OnOk result (names.new ≡ names.old ++ cons_option (exclude_of markup.now (row_at markup.now child.number)) []) }
{
    match exclude_of(markup, child)? {
        Some(name) => names.push(name),
        None => Ok(()),
    }
}

/// The names that the elements `exclude` among some write.
fn excludes_of(
    alloc: Global,
    markup: &Markup,
    elements: &[Element],
) -> Result<ListOf<Text>, NoMemory>
    ensures { IfOk result (λ names. names ≡ filter_map (exclude_of markup.now) (map (λ e. row_at markup.now e.number) elements.now)) }
{
    let mut names = ListOf::new(alloc);
    for child in elements {
        put_exclude(markup, *child, &mut names)?;
    }
    Ok(names)
}

/// The rule that an element writes.
fn rule_of(alloc: Global, markup: &Markup, element: Element) -> Result<WrittenRule, NoMemory>
    ensures { IfOk result (λ rule. rule ≡ rule_of markup.now (row_at markup.now element.number)) }
{
    let children = markup.children(element);
    Ok(WrittenRule {
        offset: markup.offset(element),
        reference: markup.attribute(element, "ref")?,
        name: markup.attribute(element, "name")?,
        language: markup.attribute(element, "language")?,
        class: markup.attribute(element, "class")?,
        message: markup.attribute(element, "message")?,
        pieces: pieces_of(alloc, markup, children)?,
        excludes: excludes_of(alloc, markup, children)?,
    })
}

/// The part that a child of the root is, where it is one.
fn part_of(alloc: Global, markup: &Markup, child: Element) -> Result<Option<Part>, NoMemory>
    ensures { IfOk result (λ part. part ≡ part_of markup.now (row_at markup.now child.number)) }
{
    if is_named(markup, child, "rule") {
        Ok(Some(Part::Rule(rule_of(alloc, markup, child)?)))
    } else if is_named(markup, child, "exclude-pattern") {
        Ok(Some(Part::ExcludePattern(markup.text(child)?)))
    } else if is_named(markup, child, "include-pattern") {
        Ok(Some(Part::IncludePattern(markup.text(child)?)))
    } else {
        Ok(None)
    }
}

/// Puts the part that a child of the root is at the end.
fn put_part(
    alloc: Global,
    markup: &Markup,
    child: Element,
    parts: &mut ListOf<Part>,
) -> Result<(), NoMemory>
    ensures { OnOk result (parts.new ≡ parts.old ++ cons_option (part_of markup.now (row_at markup.now child.number)) []) }
{
    match part_of(alloc, markup, child)? {
        Some(part) => parts.push(part),
        None => Ok(()),
    }
}

/// The parts that elements write, in their order.
fn parts_of(alloc: Global, markup: &Markup, elements: &[Element]) -> Result<ListOf<Part>, NoMemory>
    ensures { IfOk result (λ parts. parts ≡ filter_map (part_of markup.now) (map (λ e. row_at markup.now e.number) elements.now)) }
{
    let mut parts = ListOf::new(alloc);
    for child in elements {
        put_part(alloc, markup, *child, &mut parts)?;
    }
    Ok(parts)
}

/// The ruleset that is written in the markup, or `None` where its root is no `ruleset`. Elements and attributes that have no
/// meaning are left out.
pub fn written_ruleset(alloc: Global, markup: &Markup) -> Result<Option<WrittenRuleset>, NoMemory>
    ensures { IfOk result (λ written. written ≡ written_ruleset markup.now) }
{
    let root = markup.root();
    if !is_named(markup, root, "ruleset") {
        return Ok(None);
    }
    let rule_set = match markup.attribute(root, "name")? {
        Some(name) => name,
        None => Text::new(alloc),
    };
    Ok(Some(WrittenRuleset {
        rule_set,
        parts: parts_of(alloc, markup, markup.children(root))?,
    }))
}
