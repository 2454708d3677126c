//! The plan of a week: who runs where, and who is present.
//!
//! A plan has two sides, with a slot for each programme and a programme for each slot, that agree; so
//! no programme and no slot can stand in it twice. It is made with room for `SIDE` a side, so that no
//! later call wants memory. `specs/Held.antt` says what a plan holds and what each edit makes of it.
#![tactic(auto)]

ghost use Rattle.matching.specs.Lists.{Points};

mod counting;
pub mod edits;
pub mod filling;
pub mod making;
pub mod parts;
pub mod questions;
pub mod reading;
mod side;

use crate::side::Side;
use refusal::limits::Num;

/// A programme or a slot, by its number.
#[derive(Clone, Copy, PartialEq, Eq, Debug)]
pub enum Member {
    /// The programme of that number.
    Programme(Num),
    /// The slot of that number.
    Slot(Num),
}

/// Who runs where, and who is present. There is no second of a plan: it is neither copied nor cloned.
#[derive(Drop)]
pub struct Plan {
    programmes: Side,
    slots: Side,
    ghost there: { Points programmes.places.items slots.places.items },
    ghost back: { Points slots.places.items programmes.places.items },
}
