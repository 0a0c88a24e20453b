//! Laws of the definitions, each the contract of a function that does nothing.
ghost use Rattle.pj_sources.specs.Laws.{OneListing, SomeListing, ListingIsNotMissing, OneReading, OneRefusal, SomeOutcome, ReadIsNotRefused};

/// Files and items have one listing where no item is missing, and none where one is.
pub fn one_listing()
    ensures one { OneListing }
    ensures some { SomeListing }
    ensures not_missing { ListingIsNotMissing }
{}

/// The files of paths are read as one list, or they are refused for one cause.
pub fn one_reading()
    ensures one { OneReading }
    ensures one_refusal { OneRefusal }
    ensures some { SomeOutcome }
    ensures not_refused { ReadIsNotRefused }
{}
