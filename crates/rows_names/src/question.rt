//! What the rows of a section ask, by the words of its `@find`.
use pj_base::value_in;
use pj_row_java::{Java, name_at_mark};

/// What a name or a written type means at a place, by all classes.
#[derive(Clone, Copy)]
pub enum Lookup {
    /// A simple name, behind the scopes of the file.
    Outside,
    /// A name with dots, by its candidates.
    Dotted,
    /// A member class that a class inherits.
    Inherited,
    /// A member class of a class.
    Member,
    /// The direct supertypes of a class outside the file.
    Supertypes,
    /// A name of a type.
    TypeName,
    /// A type as it is written.
    WrittenType,
    /// The same, where the header of the class that node 1 declares is being resolved.
    TypeInHeader,
    /// A bound as it is written.
    Bound,
    /// A name of a variable.
    Variable,
    /// The type of a node.
    NodeType,
    /// The type that is declared for a variable.
    VariableType,
    /// What a name behind a dot means of a variable.
    MemberType,
    /// What an enhanced `for` over a variable goes through.
    ElementType,
}

/// What is asked over the oracle of the file.
#[derive(Clone, Copy)]
pub enum Asking {
    /// The answer for a class.
    Answer,
    /// The answer when it is asked once more.
    AnswerAgain,
    /// The list of the supertypes of a class.
    Supertypes,
    /// Its field `x`.
    Field,
    /// The type that a name means at a place.
    Type,
    /// The variable that a name means at a place.
    Variable,
}

/// What the rows of a section ask.
#[derive(Clone, Copy)]
pub enum Question {
    /// The classes around a place.
    Around,
    Lookup(Lookup),
    Asking(Asking),
}

static QUESTIONS: [(&str, Question); 21] = [
    ("classes around", Question::Around),
    ("class outside", Question::Lookup(Lookup::Outside)),
    ("class with package", Question::Lookup(Lookup::Dotted)),
    ("inherited member", Question::Lookup(Lookup::Inherited)),
    ("member", Question::Lookup(Lookup::Member)),
    ("direct supertypes", Question::Lookup(Lookup::Supertypes)),
    ("type of name", Question::Lookup(Lookup::TypeName)),
    ("written type", Question::Lookup(Lookup::WrittenType)),
    (
        "written type in header",
        Question::Lookup(Lookup::TypeInHeader),
    ),
    ("written bound", Question::Lookup(Lookup::Bound)),
    ("variable", Question::Lookup(Lookup::Variable)),
    ("type of node", Question::Lookup(Lookup::NodeType)),
    ("type of variable", Question::Lookup(Lookup::VariableType)),
    ("member of variable", Question::Lookup(Lookup::MemberType)),
    (
        "elements of variable",
        Question::Lookup(Lookup::ElementType),
    ),
    ("answer", Question::Asking(Asking::Answer)),
    ("answer again", Question::Asking(Asking::AnswerAgain)),
    ("list of supertypes", Question::Asking(Asking::Supertypes)),
    ("field x", Question::Asking(Asking::Field)),
    ("type over the file", Question::Asking(Asking::Type)),
    ("variable over the file", Question::Asking(Asking::Variable)),
];

/// The question of these words.
pub fn question_of(words: &str) -> Option<Question> {
    value_in(&QUESTIONS, words)
}

/// What a row asks.
#[derive(Clone, Copy)]
pub struct Asked<'r> {
    /// The grammar of the text.
    pub java: &'r Java,
    /// What is to be found.
    pub question: Question,
    /// The name that stands in front of the text.
    pub front: Option<&'r str>,
    /// The text of a file.
    pub text: &'r str,
    /// The lines that write classes out.
    pub classes: &'r str,
}

impl<'r> Asked<'r> {
    /// The name that is looked up: the one in front of the text, or else the one behind the mark of the place.
    pub fn name(&self) -> &'r str {
        match self.front {
            Some(name) => name,
            None => name_at_mark(self.text),
        }
    }
}
