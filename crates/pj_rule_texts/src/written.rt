//! What is written in a ruleset file.

use pj_base::{ListOf, Text};

/// A property as it is written: what is absent is `None`, and what is there and empty is the empty text.
#[derive(Drop)]
pub struct WrittenProperty {
    /// The attribute `name`.
    pub name: Option<Text>,
    /// The attribute `type`.
    pub kind: Option<Text>,
    /// The attribute `value`, or else the text of the first element `value`.
    pub value: Option<Text>,
}

/// A part of a rule that is judged at its place in the text.
#[derive(Drop)]
pub enum Piece {
    /// The text of an element `priority`.
    Priority(Text),
    /// An element `property` of an element `properties`.
    Property(WrittenProperty),
}

/// An element `rule` as it is written.
#[derive(Drop)]
pub struct WrittenRule {
    /// The offset in bytes of the `<` of its start tag.
    pub offset: u32,
    /// The attribute `ref`, which makes the element a reference.
    pub reference: Option<Text>,
    /// The attribute `name`.
    pub name: Option<Text>,
    /// The attribute `language`.
    pub language: Option<Text>,
    /// The attribute `class`.
    pub class: Option<Text>,
    /// The attribute `message`.
    pub message: Option<Text>,
    /// Its priorities and properties, in the order of the text.
    pub pieces: ListOf<Piece>,
    /// The names of its elements `exclude` that have one.
    pub excludes: ListOf<Text>,
}

/// A child of the root that counts.
#[derive(Drop)]
pub enum Part {
    /// An element `rule`.
    Rule(WrittenRule),
    /// The text of an element `exclude-pattern`.
    ExcludePattern(Text),
    /// The text of an element `include-pattern`.
    IncludePattern(Text),
}

/// A ruleset as it is written.
#[derive(Drop)]
pub struct WrittenRuleset {
    /// The attribute `name` of the root, empty where it is absent.
    pub rule_set: Text,
    /// The children that count, in the order of the text.
    pub parts: ListOf<Part>,
}
