//! The laws of asks in a row, as the contract of a call that does nothing.
ghost use Rattle.std.specs.Prelude.{◌++◌, ◌∷◌, ◌<◌, ◌^◌, [], List, ℕ};
ghost use Rattle.pj_names.specs.ClassName.{Name};
ghost use Rattle.pj_table.specs.Names.{part_of};
ghost use Rattle.pj_table.specs.Plays.{AddsLook};
ghost use Rattle.pj_table.specs.Worlds.{CountsFind};
ghost use Rattle.pj_table.specs.declared.view.View.{View};
ghost use Rattle.pj_seats.specs.Looks.{AddsLooks, CountsFinds, looks_since};

/// What a seat gains by asks in a row is what it gains by each ask, as the table says it, one after the other; so are the finds of
/// the door.
#[tactic(auto, using(crate::proofs::Looks::adds_one, crate::proofs::Looks::finds_by_one, crate::proofs::Looks::adds_then, crate::proofs::Looks::finds_then))]
pub fn looks_add_up()
    ensures one { (before after : View) (name : Name) (old new : ℕ) → AddsLook before after (part_of name) name (CountsFind old new) → AddsLooks before after (name ∷ []) }
    ensures one_find { (before after : View) (name : Name) (old new : ℕ) → old < 2 ^ 64 → AddsLook before after (part_of name) name (CountsFind old new) → CountsFinds old new (looks_since before after) }
    ensures more { (before between after : View) (names more : List Name) → AddsLooks before between names → AddsLooks between after more → AddsLooks before after (names ++ more) }
    ensures more_finds { (before between after : View) (names more : List Name) (begun old new : ℕ) → AddsLooks before between names → AddsLooks between after more
        → CountsFinds begun old (looks_since before between) → CountsFinds old new (looks_since between after) → CountsFinds begun new (looks_since before after) }
{}
