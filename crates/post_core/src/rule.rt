//! The rule of a target's table.

ghost use Rattle.post_core.specs.Rule.{Shown};
ghost use Rattle.post_core.specs.Views.{first_view};

use crate::meant::Meant;
use crate::slots::Item;
use crate::views::View;
use atomic_table::TableRule;
use std::marker::PhantomData;
use task_ring::Ring;

/// Which target it is, and how many senders and places it has.
#[derive(Drop)]
pub struct Sizes {
    pub target: u32,
    pub senders: u32,
    pub places: u32,
}

/// The world that words and views show is sound.
pub struct Law<J> {
    marker: PhantomData<J>,
}

impl<J: Meant> TableRule<Ring<Item<J>>, View<J::Meaning>, Sizes> for Law<J> {
    ghost holds = { λ k s. Shown J.meaning (J.suits k.target) k.senders k.places s };

    ghost first = { λ k. first_view k.senders k.places };
}
