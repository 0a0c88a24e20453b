//! Which calls of a run fail.

/// The numbers of the calls that fail, of the tree, of those that open a door to the class folders, of the finds of the first door, of the
/// sink of the report and of that of the notes, and of the keeper, of which two calls may fail. 0 is none.
#[derive(Clone, Copy)]
pub struct Failing {
    /// Of the tree.
    pub tree: u32,
    /// Of those that open a door.
    pub classes: u32,
    /// Of the finds of the first door.
    pub find: u32,
    /// Of the sink of the report.
    pub report: u32,
    /// Of the sink of the notes.
    pub notes: u32,
    /// Of the keeper.
    pub keeper: u32,
    /// A second one of the keeper.
    pub then: u32,
}

/// The number behind a name, as in `tree 1, notes 2`; 0 where the name does not stand there.
fn number_of(given: &str, sought: &str) -> u32 {
    for part in given.split(", ") {
        let (name, number) = part.split_once(' ').unwrap_or((part, ""));
        if name == sought {
            return number.parse::<u32>().unwrap_or(0);
        }
    }
    0
}

impl Failing {
    /// Those that a row or a section gives.
    pub fn of(given: &str) -> Failing {
        Failing {
            tree: number_of(given, "tree"),
            classes: number_of(given, "classes"),
            find: number_of(given, "find"),
            report: number_of(given, "report"),
            notes: number_of(given, "notes"),
            keeper: number_of(given, "keeper"),
            then: number_of(given, "then"),
        }
    }
}
