//! The fit source: a programme may run in a slot that is long enough and, if it is for late hours only,
//! starts late enough. It is not open: what fits is settled by the lengths and times.
#![tactic(auto)]

ghost use Rattle.std.specs.Prelude.{◌≡◌, ◌≤◌, vec_len};
ghost use Rattle.refusal.specs.Limits.{side};

pub mod programmes;
pub mod sides;
pub mod slots;
pub mod times;

pub use programmes::Programme;
pub use slots::Slot;

/// Programmes and slots by number, from 1. `specs/Fitting.antt` says which pairs they mean.
#[derive(Drop)]
pub struct Fit {
    programmes: Vec<Programme>,
    slots: Vec<Slot>,
    ghost counts: { (vec_len programmes ≤ side) × (vec_len slots ≤ side) },
}
