//! What the words of the program ask for.

use pj_base::{Names, NoMemory, Text};
use std::alloc::Global;

/// What is asked for.
#[derive(Drop)]
pub enum Command<'w> {
    /// The syntax tree of the Java file of a path.
    Tree {
        /// The path.
        path: &'w str,
        /// Whether each attribute that has a value is shown with its node.
        with_attributes: bool,
    },
    /// The rules of the rulesets of these paths.
    Rules(Names),
}

/// The items of a list that is split at commas.
fn items_of(alloc: Global, list: &str) -> Result<Names, NoMemory> {
    let mut items = Names::new(alloc);
    for item in list.split(',') {
        items.push(Text::from_str(alloc, item)?)?;
    }
    Ok(items)
}

/// What the words ask for, or `None` where they are no command.
pub fn command_of<'w>(alloc: Global, words: &'w [String]) -> Result<Option<Command<'w>>, NoMemory> {
    let (name, rest) = match words.split_first() {
        Some((name, rest)) => (name.as_str(), rest),
        None => return Ok(None),
    };
    match (name, rest) {
        ("tree", [path]) => Ok(Some(Command::Tree {
            path: path.as_str(),
            with_attributes: false,
        })),
        ("tree", [path, option]) if option.as_str() == "--attributes" => Ok(Some(Command::Tree {
            path: path.as_str(),
            with_attributes: true,
        })),
        ("rules", [list]) => Ok(Some(Command::Rules(items_of(alloc, list.as_str())?))),
        _ => Ok(None),
    }
}
