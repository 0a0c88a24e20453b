//! What is read of a rule so far.
ghost use Rattle.std.specs.Prelude.{◌≡◌, None, IfOk};
ghost use Rattle.std.specs.Option.{option_copied};
ghost use Rattle.pj_rule_texts.specs.Rules.{Answers, first_priority, kind_for, named_property, nothing_read, typed_property, with_piece, with_pieces, with_property, with_written};
ghost use Rattle.pj_rule_texts.specs.Values.{is_xpath, needs_no_type};

use crate::fault::TextFault;
use crate::priority::priority_of;
use crate::properties::{Property, PropertyTable};
use crate::value::typed_value;
use crate::written::{Piece, WrittenProperty};
use pj_base::{Copied, NoMemory, Text, is_same_text};
use std::alloc::Global;

/// What is read of a rule so far.
#[derive(Drop)]
pub struct Draft {
    /// The first priority.
    pub priority: Option<u8>,
    /// The last property `xpath`.
    pub xpath: Option<Text>,
    /// The other properties.
    pub properties: PropertyTable,
}

impl Draft {
    /// A rule of which nothing is read.
    pub fn new(alloc: Global) -> Draft
        ensures { result ≡ nothing_read }
    {
        Draft {
            priority: None,
            xpath: None,
            properties: PropertyTable::new(alloc),
        }
    }
}

/// Whether a property of this name is the query.
fn is_xpath(name: &str) -> bool
    ensures { result ≡ is_xpath name.now }
{
    is_same_text(name, "xpath")
}

/// Whether a property of this name needs no type and is no variable.
pub fn needs_no_type(name: &str) -> bool
    ensures { result ≡ needs_no_type name.now }
{
    is_same_text(name, "xpath")
        || is_same_text(name, "violationSuppressXPath")
        || is_same_text(name, "violationSuppressRegex")
        || is_same_text(name, "version")
}

/// The draft with this priority, where it has none yet.
fn first_priority(alloc: Global, mut draft: Draft, text: &str) -> Result<Draft, TextFault>
    ensures { Answers (first_priority draft.priority draft text.now) result }
{
    match draft.priority {
        Some(_) => Ok(draft),
        None => match priority_of(alloc, text)? {
            Some(priority) => {
                draft.priority = Some(priority);
                Ok(draft)
            }
            None => Err(TextFault::BadPriority),
        },
    }
}

/// The draft with a property more, or with another expression where the property is `xpath`.
fn with_property(mut draft: Draft, property: Property) -> Result<Draft, NoMemory>
    ensures { IfOk result (λ next. next ≡ with_property draft property) }
{
    if is_xpath(property.name.as_str()) {
        let Property {
            name: _name,
            kind: _kind,
            value,
        } = property;
        draft.xpath = Some(value);
        return Ok(draft);
    }
    draft.properties.put(property)?;
    Ok(draft)
}

/// The type that counts for a property of this name.
fn kind_for(
    is_reference: bool,
    draft: &Draft,
    name: &Text,
    written: Option<Text>,
) -> Result<Option<Text>, NoMemory>
    ensures { IfOk result (λ kind. kind ≡ kind_for is_reference draft.now name.now written) }
{
    if !is_reference {
        return Ok(written);
    }
    match draft.properties.kind_of(name) {
        Some(kind) => Ok(Some(kind.copied()?)),
        None => Ok(if needs_no_type(name.as_str()) {
            written
        } else {
            None
        }),
    }
}

/// The draft with a property that needs a type.
fn typed_property(
    alloc: Global,
    draft: Draft,
    name: Text,
    kind: Option<Text>,
    value: Text,
) -> Result<Draft, TextFault>
    ensures { Answers (typed_property draft name kind value) result }
{
    let Some(kind) = kind else {
        return Err(TextFault::BadProperty);
    };
    match typed_value(alloc, kind.as_str(), value.as_str())? {
        None => Err(TextFault::BadProperty),
        Some(_) => Ok(with_property(draft, Property { name, kind, value })?),
    }
}

/// The draft with a property of a name.
fn named_property(
    alloc: Global,
    draft: Draft,
    name: Text,
    kind: Option<Text>,
    value: Text,
) -> Result<Draft, TextFault>
    ensures { Answers (named_property draft name kind value) result }
{
    if needs_no_type(name.as_str()) {
        let kind = match kind {
            Some(kind) => kind,
            None => Text::new(alloc),
        };
        Ok(with_property(draft, Property { name, kind, value })?)
    } else {
        typed_property(alloc, draft, name, kind, value)
    }
}

/// The draft with a property as it is written.
fn with_written(
    alloc: Global,
    is_reference: bool,
    draft: Draft,
    property: WrittenProperty,
) -> Result<Draft, TextFault>
    ensures { Answers (with_written is_reference draft property.name property.kind property.value) result }
{
    let WrittenProperty { name, kind, value } = property;
    let Some(name) = name else {
        return Err(TextFault::BadProperty);
    };
    let Some(value) = value else {
        return Err(TextFault::BadProperty);
    };
    let kind = kind_for(is_reference, &draft, &name, kind)?;
    named_property(alloc, draft, name, kind, value)
}

/// The draft with one more piece.
fn with_piece(
    alloc: Global,
    is_reference: bool,
    draft: Draft,
    piece: Piece,
) -> Result<Draft, TextFault>
    ensures { Answers (with_piece is_reference draft piece) result }
{
    match piece {
        Piece::Priority(text) => first_priority(alloc, draft, text.as_str()),
        Piece::Property(property) => with_written(alloc, is_reference, draft, property),
    }
}

/// The draft with the pieces, which are judged in their order.
pub fn with_pieces(
    alloc: Global,
    is_reference: bool,
    draft: Draft,
    pieces: Vec<Piece>,
) -> Result<Draft, TextFault>
    ensures { Answers (with_pieces is_reference draft pieces.items) result }
{
    let mut draft = draft;
    for piece in pieces {
        draft = with_piece(alloc, is_reference, draft, piece)?;
    }
    Ok(draft)
}
