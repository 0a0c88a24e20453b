//! Names, by the words of a node.

ghost use Rattle.std.specs.Prelude.{◌≡◌, IfOk, filter, map};
ghost use Rattle.pj_parse.specs.Names.{is_identifier, identifiers, dotted, texts_of};

use pj_base::{NoMemory, Text};
use pj_tree::OwnTokens;
use std::alloc::Global;

/// Whether a word of a name, of a package declaration or of an import declaration is an identifier.
fn is_identifier(word: &str) -> bool
    ensures { result ≡ is_identifier word.now }
{
    match word {
        "package" | "import" | "static" | "." | "*" | ";" => false,
        _ => true,
    }
}

/// The identifiers among the words, in order.
pub fn identifiers<'t>(alloc: Global, words: OwnTokens<'t>) -> Result<Vec<&'t str>, NoMemory>
    ensures { IfOk result (λ names. texts_of names.items ≡ identifiers words.entry) }
{
    let mut names = Vec::new(alloc);
    for word in words {
        if is_identifier(word) {
            names.push(word)?;
        }
    }
    Ok(names)
}

/// The names with dots between.
pub fn dotted(alloc: Global, names: &[&str]) -> Result<Text, NoMemory>
    ensures { IfOk result (λ made. made ≡ dotted (texts_of names.now)) }
{
    let joined = names.join(alloc, ".")?;
    Ok(Text::from_string(joined))
}
