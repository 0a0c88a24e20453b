//! Reading markup.

ghost use Rattle.std.specs.Prelude.{◌≡◌, ◌<◌, ◌^◌, MatchResult, length, false, Some, ℕ};
ghost use Rattle.std.specs.Str.{chars};
ghost use Rattle.pj_markup.specs.Depth.{greatest_depth};
ghost use Rattle.pj_markup.specs.Faults.{IsFault};
ghost use Rattle.pj_markup.specs.Markup.{Doc};
ghost use Rattle.pj_markup.specs.Seen.{state_of};
ghost use Rattle.pj_markup.specs.States.{is_deep, step, at_end, Whole};
ghost use Rattle.pj_markup.specs.Stopping.{Faults, Lacks};

use crate::markup::Markup;
use crate::reader::Reader;
use pj_base::{NoMemory, split_first};
use std::alloc::Global;

/// Why a text has no elements.
#[derive(Clone, Copy, Debug, PartialEq, Eq)]
pub enum MarkupFault {
    /// The first place at which the text is no markup, as an offset in bytes: no markup begins with the text up to and
    /// including the character there. It is the length where the text lacks something at its end.
    At(u32),
    /// A depth, which is 65, and the offset of the first start tag that stands so deep.
    Deep(u32, u32),
    /// Want of memory.
    Memory,
}

impl From<NoMemory> for MarkupFault {
    ghost use Rattle.std.specs.Prelude.{◌≡◌};
    ghost use Rattle.pj_markup.specs.declared.reading.MarkupFault.TheVariants.{Memory};

    ghost from_gives = { λ _ e. e ≡ Memory };

    fn from(_: NoMemory) -> Self {
        MarkupFault::Memory
    }
}

/// Goes on with the character at an offset, or says what is at fault there.
fn advance(reader: &mut Reader, at: u32, c: char) -> Result<(), MarkupFault>
    ensures { MatchResult result (λ _. (is_deep greatest_depth (state_of reader.old) c ≡ false) × (step at (state_of reader.old) c ≡ Some (state_of reader.new))) (λ fault. Faults at (state_of reader.old) c fault) }
{
    if let Some(less) = reader.deep(c) {
        return Err(MarkupFault::Deep(65, less));
    }
    if reader.step(at, c)? {
        return Ok(());
    }
    Err(MarkupFault::At(at))
}

/// The elements at the end of the text, or that it lacks something there.
fn whole(reader: Reader, end: u32) -> Result<Markup, MarkupFault>
    ensures { MatchResult result (λ rows. (e : ℕ) → at_end e (state_of reader) ≡ Whole rows) (λ fault. Lacks end (state_of reader) fault) }
{
    match reader.finish() {
        None => Err(MarkupFault::At(end)),
        Some(rows) => {
            let markup = Markup::new(rows)?;
            Ok(markup)
        }
    }
}

/// The elements of a text of markup, or why it has none: the first place at which the text is no markup, or the first start
/// tag at depth 65, whichever comes first. The text is shorter than 2^32 bytes.
pub fn read(alloc: Global, text: &str) -> Result<Markup, MarkupFault>
    requires fits { length text.now < 2 ^ 32 }
    ensures { MatchResult result (λ rows. Doc greatest_depth (chars text.now) rows) (λ fault. IsFault (chars text.now) fault) }
{
    let mut reader = Reader::new(alloc);
    let mut rest = text;
    while let Some((c, behind)) = split_first(rest) {
        let at = (text.len() - rest.len()) as u32;
        advance(&mut reader, at, c)?;
        rest = behind;
    }
    let markup = whole(reader, text.len() as u32)?;
    Ok(markup)
}
