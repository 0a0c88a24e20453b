//! `translate`.
ghost use Rattle.std.specs.Prelude.{◌≡◌, ℕ, flat_map, encode_utf8_all, IfOk, OnOk, option_to_list, string_bytes};
ghost use Rattle.pj_xvalue.specs.Items.{values_of};
ghost use Rattle.pj_xvalue.specs.Replies.{outcome};
ghost use Rattle.pj_xvalue.specs.Arguments.{IsGiven};
ghost use Rattle.pj_xfuncs.specs.Strings.{at_place_in, other_of, translate as translate_of};
ghost use Rattle.pj_xfuncs.specs.Translate.{AreFirstPlaces, or_here, place_in};

use crate::characters::characters;
use pj_base::NoMemory;
use pj_xvalue::{Sequence, XFault, optional_string_argument, string_argument, string_singleton};
use std::alloc::Global;
use std::collections::BTreeMap;

/// `translate`.
pub(crate) fn translate<'t>(
    alloc: Global,
    text: &Sequence<'_>,
    from: &Sequence<'_>,
    to: &Sequence<'_>,
) -> Result<Sequence<'t>, XFault>
    ensures { IsGiven (translate_of (values_of text.now) (values_of from.now) (values_of to.now)) (outcome values_of result) }
{
    let whole = optional_string_argument(text)?;
    let sought = string_argument(from)?;
    let others = string_argument(to)?;
    let all = characters(alloc, whole)?;
    let keys = characters(alloc, sought)?;
    let values = characters(alloc, others)?;
    let changed = translated(alloc, &all, &keys, &values)?;
    Ok(string_singleton(alloc, changed)?)
}

/// Each character of the text by the one that stands for it.
fn translated(
    alloc: Global,
    characters: &[char],
    from: &[char],
    to: &[char],
) -> Result<String, NoMemory>
    ensures { IfOk result (λ changed. string_bytes changed ≡ encode_utf8_all (flat_map (other_of from.now to.now) characters.now)) }
{
    let places = first_places(alloc, from)?;
    let mut changed = String::new(alloc);
    let mut rest = characters;
    'content: while let [c, behind @ ..] = rest {
        if let Some(other) = other_of(&places, to, *c) {
            changed.push(other)?;
        }
        rest = behind;
    }
    Ok(changed)
}

/// The first place of each character, in a map by their order: a long map costs no more than its order.
fn first_places(alloc: Global, characters: &[char]) -> Result<BTreeMap<char, usize>, NoMemory>
    ensures { IfOk result (λ places. AreFirstPlaces places characters.now) }
{
    let mut places = BTreeMap::new(alloc);
    for i in 0..characters.len() {
        put_first(&mut places, characters[i], i)?;
    }
    Ok(places)
}

/// Puts a place for the character, unless it has one.
fn put_first(places: &mut BTreeMap<char, usize>, key: char, place: usize) -> Result<(), NoMemory>
    ensures { OnOk result ((c : ℕ) → place_in places.new c ≡ or_here (place_in places.old c) c key place) }
{
    if !places.contains_key(&key) {
        places.insert(key, place)?;
    }
    Ok(())
}

/// What stands for a character.
fn other_of(places: &BTreeMap<char, usize>, to: &[char], c: char) -> Option<char>
    ensures { option_to_list result ≡ at_place_in to.now c (place_in places.now c) }
{
    match places.get(&c) {
        None => Some(c),
        Some(place) => to.get(*place).copied(),
    }
}
