//! Shut hours: a layer over any source that allows nothing in its shut slots. It is not open.
#![tactic(auto)]

ghost use Rattle.std.specs.Prelude.{◌≡◌, false};
ghost use Rattle.refusal.specs.Tables.{at};
ghost use Rattle.shut_hours.specs.Shutting.{except_shut};

use refusal::limits::{Num, SIDE};
use refusal::tables::entry;
use source::PairSource;
use source::layer::{Exclusion, first_slot_left};
use source::turned::Turned;

/// The marks of the shut slots, by slot number. A slot past their end is not shut.
#[derive(Drop)]
pub struct ShutSlots(Vec<bool>);

impl Exclusion for ShutSlots {
    ghost excluded = { λ shut i s. at false shut.0.items s };

    fn excludes(&self, _programme: Num, slot: Num) -> bool {
        entry(false, &self.0, slot as usize)
    }
}

/// A source with nothing allowed in its shut slots. The counts below are cut to `SIDE`.
#[derive(Drop)]
pub struct ShutHours<S> {
    below: S,
    shut: ShutSlots,
}

impl<S> ShutHours<S> {
    /// A layer over the source in which the marked slots are shut: the first mark is for slot 1, and so on.
    pub fn new(below: S, shut: Vec<bool>) -> ShutHours<S>
        ensures below { result.below ≡ below }
        ensures shut { result.shut.0.items ≡ shut.items }
    {
        ShutHours {
            below,
            shut: ShutSlots(shut),
        }
    }
}

impl<S: PairSource> PairSource for ShutHours<S> {
    ghost pairs = { λ hours. except_shut (S.PairSource.pairs hours.below) hours.shut.0.items };

    fn programmes(&self) -> Num {
        self.below.programmes().min(SIDE as Num)
    }

    fn slots(&self) -> Num {
        self.below.slots().min(SIDE as Num)
    }

    fn first_slot(&self, programme: Num, from: usize) -> Option<Num> {
        first_slot_left(&self.below, &self.shut, programme, from)
    }

    fn first_programme(&self, slot: Num, from: usize) -> Option<Num> {
        first_slot_left(&Turned(&self.below), &Turned(&self.shut), slot, from)
    }
}
