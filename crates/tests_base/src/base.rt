//! Texts, lists and tables of words.
use crate::fixtures::{expect, numbers, text};
use pj_base::{Bytes, Copied, Exact, NoMemory, Numbers, Text, Words, value_in};
use std::alloc::Global;
use std::cmp::Ordering;
use std::test::Fail;

/// Texts in the order of their bytes.
static ORDER: [&str; 6] = ["", "Zug", "auto", "autobahn", "f\u{e4}hre", "\u{20ac}"];

/// How a text stands to another one.
fn order_of(alloc: Global, first: &str, second: &str) -> Result<Ordering, NoMemory> {
    let first = text(alloc, first)?;
    Ok(first.cmp(&text(alloc, second)?))
}

/// Whether a text stands to each text as its place to theirs.
fn is_in_order(alloc: Global, place: usize, text: &str) -> Result<bool, NoMemory> {
    for (other, second) in ORDER.iter().enumerate() {
        if order_of(alloc, text, second)? != place.cmp(&other) {
            return Ok(false);
        }
    }
    Ok(true)
}

#[test]
fn order(rt: HostRuntime) -> Result<(), Fail> {
    for (place, text) in ORDER.iter().enumerate() {
        expect(is_in_order(rt.alloc(), place, text)?, text)?;
    }
    Ok(())
}

/// A text of two pieces and a character.
fn made(alloc: Global) -> Result<Text, NoMemory> {
    let mut made = text(alloc, "Zug")?;
    made.push_str("f\u{e4}hr")?;
    made.push('e')?;
    Ok(made)
}

/// Whether it has so many bytes, and its copy is this.
fn is_made(alloc: Global, len: usize, text: &str) -> Result<bool, NoMemory> {
    let word = made(alloc)?;
    Ok(word.len() == len && word.copied()?.into_string().as_str() == text)
}

/// Whether this is displayed of it, and of want of memory.
fn is_displayed(alloc: Global, wanted: &str) -> Result<bool, NoMemory> {
    let word = made(alloc)?;
    let shown = format!(in alloc; "{word}, {NoMemory}")?;
    Ok(shown.as_str() == wanted)
}

#[test]
fn texts(rt: HostRuntime) -> Result<(), Fail> {
    assert!(rt; is_made(rt.alloc(), 9, "Zugf\u{e4}hre")?);
    assert!(rt; is_displayed(rt.alloc(), "Zugf\u{e4}hre, out of memory")?);
    Ok(())
}

/// The words `a` and the empty one.
fn words(alloc: Global) -> Result<Words, NoMemory> {
    let mut words = Words::new(alloc);
    words.push(text(alloc, "a")?)?;
    words.push(Text::new(alloc))?;
    Ok(words)
}

/// The words with their copies behind them.
fn words_twice(alloc: Global) -> Result<Words, NoMemory> {
    let mut words = words(alloc)?;
    let copies = words.copied()?;
    words.append(copies)?;
    Ok(words)
}

/// Whether the word of a place is this.
fn is_word_at(words: &Words, place: usize, wanted: &str) -> bool {
    match words.get(place) {
        Some(word) => word.as_str() == wanted,
        None => false,
    }
}

/// Whether words are the same as their copy.
fn is_copy(words: &Words) -> Result<bool, NoMemory> {
    Ok(words.copied()?.is(words))
}

#[test]
fn lists_of_words(rt: HostRuntime) -> Result<(), Fail> {
    let words = words(rt.alloc())?;
    assert!(rt; Words::new(rt.alloc()).is_empty());
    assert!(rt; is_copy(&words)?);
    assert!(rt; words.contains(&Text::new(rt.alloc())));
    assert!(rt; is_word_at(&words, 0, "a"));
    assert!(rt; words.get(2).is_none());
    Ok(())
}

#[test]
fn a_list_behind_a_list(rt: HostRuntime) -> Result<(), Fail> {
    let mut words = words_twice(rt.alloc())?;
    assert!(rt; words.len() == 4);
    assert!(rt; words.pop() == Some(Text::new(rt.alloc())));
    Ok(())
}

/// Whether bytes are the same as their copy.
fn bytes_are_copied(alloc: Global) -> Result<bool, NoMemory> {
    let bytes = Bytes::from_vec(Vec::from_slice(alloc, &[1, 2])?);
    Ok(bytes.copied()?.is(&bytes))
}

/// Whether numbers are equal to their copy, and greater than none.
fn numbers_are_compared(alloc: Global) -> Result<bool, NoMemory> {
    let numbers = numbers(alloc, &[7])?;
    let is_greater = numbers.cmp(&Numbers::new(alloc)) == Ordering::Greater;
    Ok(numbers.copied()? == numbers && is_greater)
}

#[test]
fn lists_of_numbers(rt: HostRuntime) -> Result<(), Fail> {
    assert!(rt; bytes_are_copied(rt.alloc())?);
    assert!(rt; numbers_are_compared(rt.alloc())?);
    Ok(())
}

/// A table of words, two of which are one.
static WORDS: [(&str, u8); 4] = [("on", 1), ("one", 2), ("\u{e9}", 3), ("on", 4)];

/// Words with their values in it.
static LOOKED_UP: [(&str, Option<u8>); 6] = [
    ("on", Some(1)),
    ("one", Some(2)),
    ("\u{e9}", Some(3)),
    ("o", None),
    ("", None),
    ("ones", None),
];

#[test]
fn tables_of_words() -> Result<(), Fail> {
    for (word, wanted) in &LOOKED_UP {
        expect(value_in(&WORDS, word) == *wanted, word)?;
    }
    Ok(())
}
