//! What the rows of a section ask, by the words of its `@find`.
use pj_base::value_in;

/// What a name means as far as the file tells.
#[derive(Clone, Copy)]
pub enum Meaning {
    /// As the name of a variable.
    Variable,
    /// As the name of a class or a type parameter.
    Type,
    /// As a type that an import of one type imports.
    ImportedType,
    /// As a member that a static import of one name imports.
    ImportedMember,
}

/// What is read of the first node of a kind.
#[derive(Clone, Copy)]
pub enum Reading {
    /// The parts of the name of a class type.
    Parts,
    /// The flags of a class.
    ClassFlags,
    /// The flags of a field.
    FieldFlags,
    /// The flags of a method or constructor.
    MethodFlags,
    /// The supertypes that a class writes, and those that are implied.
    Supertypes,
    /// The bounds of type parameters.
    Bounds,
    /// Whether a type is within the bounds of signatures.
    Fits,
}

/// What is made of a text that is no file.
#[derive(Clone, Copy)]
pub enum Spelling {
    /// Its parts as a name.
    Parts,
    /// Its next candidate.
    Candidate,
    /// The name of a member class.
    Member,
    /// The signature of the type that it spells.
    Type,
    /// The signature of the class that it spells.
    Class,
    /// The signature of the method that it spells.
    Method,
    /// The signature of a method with these bounds.
    BoundedMethod,
}

/// What the rows of a section ask.
#[derive(Clone, Copy)]
pub enum Question {
    Meaning(Meaning),
    Reading(Reading),
    Spelling(Spelling),
}

static QUESTIONS: [(&str, Question); 18] = [
    ("declared variable", Question::Meaning(Meaning::Variable)),
    ("declared type", Question::Meaning(Meaning::Type)),
    ("imported type", Question::Meaning(Meaning::ImportedType)),
    (
        "imported member",
        Question::Meaning(Meaning::ImportedMember),
    ),
    ("parts of class type", Question::Reading(Reading::Parts)),
    ("flags of class", Question::Reading(Reading::ClassFlags)),
    ("flags of field", Question::Reading(Reading::FieldFlags)),
    ("flags of method", Question::Reading(Reading::MethodFlags)),
    ("written supertypes", Question::Reading(Reading::Supertypes)),
    ("written bounds", Question::Reading(Reading::Bounds)),
    ("whether it fits", Question::Reading(Reading::Fits)),
    ("parts of name", Question::Spelling(Spelling::Parts)),
    ("next candidate", Question::Spelling(Spelling::Candidate)),
    ("name of member", Question::Spelling(Spelling::Member)),
    ("signature of type", Question::Spelling(Spelling::Type)),
    ("signature of class", Question::Spelling(Spelling::Class)),
    ("signature of method", Question::Spelling(Spelling::Method)),
    (
        "signature with bounds",
        Question::Spelling(Spelling::BoundedMethod),
    ),
];

/// The question of these words.
pub fn question_of(words: &str) -> Option<Question> {
    value_in(&QUESTIONS, words)
}
