//! The context item.
use pj_xvalue::Item;
use std::marker::Model;

/// The context item, its position, counted from 1, and the number of items among which it stands (XPath 2.0, 2.1.2).
#[derive(Drop)]
pub struct At<'t> {
    pub item: Item<'t>,
    pub position: i64,
    pub size: i64,
}

impl<'t> Model for At<'t> {
    ghost use Rattle.pj_xvalue.specs.Items.{value_of_item};
    ghost use Rattle.pj_xsteps.specs.Context.{Context};

    ghost Value = { Context };

    ghost view = { λ at. record { item = value_of_item at.item; position = at.position; size = at.size } };
}
