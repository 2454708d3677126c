//! The station's pile of sources: bars over shut hours over fit.
#![tactic(auto)]

ghost use Rattle.std.specs.Prelude.{◌≡◌, IfOk, vec_len};
ghost use Rattle.refusal.specs.Refusals.{first_refusal};
ghost use Rattle.source.specs.Makes.{make_refusal_of, count_refusals};
ghost use Rattle.station.specs.Pile.{station_pairs, fitting_open};

use bars::Bars;
use fit::{Fit, Programme, Slot};
use refusal::MakeError;
use shut_hours::ShutHours;
use std::alloc::Global;

/// What the station runs: pairs that fit, except in shut hours, some of them barred.
pub type Station = Bars<ShutHours<Fit>>;

/// A pile with nothing barred yet. `shut` marks the shut slots by number; one past its end is not shut.
/// Refuses 12 when there are more than `SIDE` programmes or slots.
pub fn open_station(
    heap: Global,
    programmes: Vec<Programme>,
    slots: Vec<Slot>,
    shut: Vec<bool>,
) -> Result<Station, MakeError>
    ensures answer { make_refusal_of result ≡ first_refusal (count_refusals (vec_len programmes) (vec_len slots)) }
    ensures pairs { IfOk result (λ station. station_pairs station ≡ fitting_open programmes.items slots.items shut.items) }
{
    let fit = Fit::new(programmes, slots)?;
    Bars::new(heap, ShutHours::new(fit, shut))
}

#[cfg(test)]
mod tests;
