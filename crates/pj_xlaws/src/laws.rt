//! The laws.

ghost use Rattle.pj_xlaws.specs.Laws.{DenotesByAnswers, DenotesOne, FilteredByTrue, UnitedWithItself};

/// An expression denotes one thing: in one context, with the same variables and over one source of answers for classes, it comes to
/// one outcome at most.
pub fn one_thing()
    ensures { DenotesOne }
{}

/// What an expression comes to over one source of answers, the value and the classes that were asked, it comes to over every source
/// that answers these classes alike.
pub fn by_answers()
    ensures { DenotesByAnswers }
{}

/// `E[true()]` denotes what `E` denotes (XPath 2.0, 3.3.2).
pub fn filtered_by_true()
    ensures { FilteredByTrue }
{}

/// `E | E` comes to the nodes of `E` in document order, each once, and to a code where `E` does, or where it gives what is no
/// node (XPath 2.0, 3.3.3).
pub fn united_with_itself()
    ensures { UnitedWithItself }
{}
