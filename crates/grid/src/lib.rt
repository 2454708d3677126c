//! A grid: a table of allowed pairs, edited pair by pair. Every pair within its counts is possible.
//!
//! A grid is made with cells for `SIDE` programmes and `SIDE` slots, so that no later call wants memory.
#![tactic(auto)]

ghost use Rattle.std.specs.Prelude.{◌≡◌, ◌*◌, ◌≤◌, vec_len};
ghost use Rattle.refusal.specs.Limits.{side};

pub mod cells;
pub mod sides;

use refusal::limits::Num;

/// A table of allowed pairs. `specs/GridPairs.antt` says what it means.
#[derive(Drop)]
pub struct Grid {
    programmes: Num,
    slots: Num,
    cells: Vec<bool>,
    ghost counts: { (programmes ≤ side) × (slots ≤ side) },
    ghost room: { vec_len cells ≡ side * side },
}
