//! The rule of the table, and what each kind of step tells.
ghost use Rattle.std.specs.Prelude.{◌≡◌, None};
ghost use Rattle.pj_table.specs.Rule.{Kept, opened, gone};
ghost use Rattle.pj_table.specs.Plays.{drew, loaded, entered, served, claimed_one, with_number_given, new_view, united, with_world};
ghost use Rattle.pj_table.specs.Worlds.{World};

use crate::part::Part;
use crate::view::View;
use atomic_table::{Join, Play, Split, TableRule};
use std::marker::{Brand, PhantomData};

/// The rule of the table: `Kept`.
pub struct Law;

impl TableRule<Part, View, u32> for Law {
    ghost holds = { Kept };

    ghost first = { opened };
}

/// Takes the next ticket of a part: a `fetch_add` on its ticket word.
pub struct Draw;

impl Play<Part, View> for Draw {
    ghost then = { drew };
}

/// Reads the serving word of a part, and takes its slot where the word is the ticket.
pub struct Turn;

impl Play<Part, View> for Turn {
    ghost then = { loaded };
}

/// Adds the look to the seat's list: a `fetch_add` on the count word of the part.
pub struct Enter;

impl Play<Part, View> for Enter {
    ghost then = { entered };
}

/// Gives the slot of a part back, and serves the next ticket: a `fetch_add` on its serving word.
pub struct Serve;

impl Play<Part, View> for Serve {
    ghost then = { served };
}

/// Claims a file: a `fetch_add` on the claim word.
pub struct Claim;

impl Play<Part, View> for Claim {
    ghost then = { claimed_one };
}

/// Splits a seat off the opening one.
pub struct Give;

impl Split<View> for Give {
    ghost left = { with_number_given };

    ghost right = { new_view };
}

/// Joins a seat into another.
pub struct Unite;

impl Join<View> for Unite {
    ghost both = { united };

    ghost spent = { gone };
}

/// Which world it is. Each call of a program picks it.
pub trait Naming {
    ghost world: { World };
}

impl Naming for Brand {
    ghost world = { None };
}

/// Tells the opening seat of a new table its world.
pub struct Learn<W: Naming>(PhantomData<W>);

impl<W: Naming> Play<Part, View> for Learn<W> {
    ghost then = { λ s m n w. w ≡ (with_world W.world m.0, m.1) };
}
