//! What holds of the markup of every text.

ghost use Rattle.std.specs.Prelude.{◌≡◌, ℕ, List};
ghost use Rattle.pj_markup.specs.Elements.{Row};
ghost use Rattle.pj_markup.specs.Faults.{IsMarkup};

/// One reading: a text is markup in one way at most. The call does nothing: its contract is the law.
pub fn one_reading()
    ensures { (text : List ℕ) (rows others : List Row) → IsMarkup text rows → IsMarkup text others → rows ≡ others }
{}
