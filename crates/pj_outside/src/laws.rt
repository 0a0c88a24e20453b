//! Laws of what objects of the outside hold, each the contract of a call that does nothing.
ghost use Rattle.std.specs.Prelude.{◌≡◌, ◌≢◌, Some};
ghost use Rattle.pj_outside.specs.Files.{Bytes, Files, bytes_at};
ghost use Rattle.pj_outside.specs.Keeping.{replaced};

/// What a keeper replaces is one name: it has the new bytes, and every other name has what it had.
pub fn one_name_is_replaced()
    ensures new { (held : Files) (name bytes : Bytes) → bytes_at (replaced name bytes held) name ≡ Some bytes }
    ensures rest { (held : Files) (name bytes other : Bytes) → name ≢ other → bytes_at (replaced name bytes held) other ≡ bytes_at held other }
{}
