//! The table of values: effective boolean values, comparisons and document order.

use crate::facts::attribute_place;
use crate::items::{put, put_items};
use pj_base::{NoMemory, Text};
use pj_rows::{Row, Section, Table};
use pj_tree::Node;
use pj_xaxes::in_order;
use pj_xexpressions::Compare;
use pj_xvalue::{Item, Sequence, XCode, are_nodes, boolean_value, compare, have_no_attribute};
use std::alloc::Global;
use std::fmt::Write;

/// Answers items with their effective boolean value; two lists of items with an operator between them, with their comparison;
/// and items of a section with the setting `asks order`, with these in document order.
pub struct Values;

/// The node of a number behind an `n`, or its attribute of the name behind an `@`.
fn node_item(written: &str) -> Option<Item<'_>> {
    match written.split_once('@') {
        Some((number, name)) => {
            let number = number.parse().ok()?;
            Some(Item::Attribute(Node(number), attribute_place(name)?))
        }
        None => Some(Item::Node(Node(written.parse().ok()?))),
    }
}

/// A string that the item owns.
fn owned(alloc: Global, text: &str) -> Result<Option<Item<'_>>, NoMemory> {
    Ok(Some(Item::Str(Text::from_str(alloc, text)?)))
}

/// What stands between two quotes.
fn quoted(word: &str, quote: char) -> Option<&str> {
    word.strip_prefix(quote)?.strip_suffix(quote)
}

/// The item that a word writes: a string that is lent stands in `'`, one that is owned in `\"`.
fn item_of(alloc: Global, word: &str) -> Result<Option<Item<'_>>, NoMemory> {
    if let Some(text) = quoted(word, '"') {
        return owned(alloc, text);
    }
    if let Some(text) = quoted(word, '\'') {
        return Ok(Some(Item::Borrowed(text)));
    }
    if let Some(written) = word.strip_prefix("n") {
        return Ok(node_item(written));
    }
    Ok(match word {
        "/" => Some(Item::Document),
        "true" => Some(Item::Bool(true)),
        "false" => Some(Item::Bool(false)),
        _ => match word.parse() {
            Ok(value) => Some(Item::Int(value)),
            Err(_) => None,
        },
    })
}

/// The operators as they stand between items.
static OPERATORS: [(&str, Compare); 6] = [
    (" = ", Compare::Equal),
    (" != ", Compare::NotEqual),
    (" < ", Compare::Less),
    (" <= ", Compare::LessOrEqual),
    (" > ", Compare::Greater),
    (" >= ", Compare::GreaterOrEqual),
];

/// The operator of a comparison, with what stands before and behind it.
fn split_comparison(written: &str) -> Option<(&str, Compare, &str)> {
    for (sign, operator) in &OPERATORS {
        if let Some((left, right)) = written.split_once(*sign) {
            return Some((left, *operator, right));
        }
    }
    None
}

/// Puts the item of a word, `()` for none. Whether the word writes items.
fn put_word<'w>(alloc: Global, items: &mut Sequence<'w>, word: &'w str) -> Result<bool, NoMemory> {
    if word == "()" {
        return Ok(true);
    }
    match item_of(alloc, word)? {
        Some(item) => {
            items.push(item)?;
            Ok(true)
        }
        None => Ok(false),
    }
}

/// Puts the items of words, with a comma behind each but the last. Whether the words write items.
fn put_words<'w>(
    alloc: Global,
    items: &mut Sequence<'w>,
    words: &'w str,
) -> Result<bool, NoMemory> {
    for word in words.split(", ") {
        if !put_word(alloc, items, word)? {
            return Ok(false);
        }
    }
    Ok(true)
}

/// The items that words write.
fn items_of(alloc: Global, words: &str) -> Result<Option<Sequence<'_>>, NoMemory> {
    let mut items = Sequence::new(alloc);
    if put_words(alloc, &mut items, words)? {
        return Ok(Some(items));
    }
    Ok(None)
}

/// Puts what is true or false, or the code of an error.
fn put_truth(out: &mut String, found: Result<bool, XCode>) -> Result<(), NoMemory> {
    match found {
        Ok(value) => write!(out, "{value}")?,
        Err(code) => write!(out, "! {code:?}")?,
    }
    Ok(())
}

/// Puts the comparison of items without attributes.
fn put_compared(
    out: &mut String,
    operator: Compare,
    left: &Sequence<'_>,
    right: &Sequence<'_>,
) -> Result<(), NoMemory> {
    if have_no_attribute(left.as_slice()) && have_no_attribute(right.as_slice()) {
        return put_truth(out, compare(operator, left, right));
    }
    put(out, "! attribute")
}

/// Puts the comparison of two lists of items.
fn put_comparison(
    out: &mut String,
    alloc: Global,
    operator: Compare,
    left: &str,
    right: &str,
) -> Result<(), NoMemory> {
    match (items_of(alloc, left)?, items_of(alloc, right)?) {
        (Some(left), Some(right)) => put_compared(out, operator, &left, &right),
        _ => put(out, "! no items"),
    }
}

/// Puts the effective boolean value of items.
fn put_boolean(out: &mut String, alloc: Global, written: &str) -> Result<(), NoMemory> {
    match items_of(alloc, written)? {
        Some(items) => put_truth(out, boolean_value(&items)),
        None => put(out, "! no items"),
    }
}

/// Puts items in document order.
fn put_ordered(out: &mut String, items: Sequence<'_>) -> Result<(), NoMemory> {
    if are_nodes(items.as_slice()) {
        let items = in_order(items);
        return put_items(out, items.as_slice());
    }
    put(out, "! no nodes")
}

/// Puts the items in document order that are written so.
fn put_order(out: &mut String, alloc: Global, written: &str) -> Result<(), NoMemory> {
    match items_of(alloc, written)? {
        Some(items) => put_ordered(out, items),
        None => put(out, "! no items"),
    }
}

/// Puts what is asked of what is written.
fn put_asked(out: &mut String, alloc: Global, asks: &str, written: &str) -> Result<(), NoMemory> {
    match (asks, split_comparison(written)) {
        ("order", _) => put_order(out, alloc, written),
        (_, Some((left, operator, right))) => put_comparison(out, alloc, operator, left, right),
        _ => put_boolean(out, alloc, written),
    }
}

impl Table for Values {
    fn has_setting(&self, name: &str) -> bool {
        name == "asks"
    }

    fn answer(&self, alloc: Global, section: &Section, row: &Row) -> Result<String, NoMemory> {
        let asks = section.setting("asks").unwrap_or("");
        let mut out = String::new(alloc);
        put_asked(&mut out, alloc, asks, row.given.as_str())?;
        Ok(out)
    }
}
