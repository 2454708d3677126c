//! Bars: an open layer over any source. What is allowed below can be barred here, and lifted again.
#![tactic(auto)]

ghost use Rattle.std.specs.Prelude.{◌≡◌, true, not, IfOk, None};
ghost use Rattle.refusal.specs.Limits.{side};
ghost use Rattle.source.specs.Pairs.{holds, changed, cut};
ghost use Rattle.source.specs.Makes.{make_refusal_of};
ghost use Rattle.grid.specs.GridPairs.{grid_pairs};
ghost use Rattle.bars.specs.Barring.{barred_pairs};

use grid::Grid;
use refusal::limits::{Num, SIDE};
use refusal::{MakeError, Refusal};
use source::layer::first_slot_left;
use source::turned::Turned;
use source::{OpenSource, PairSource, allows, is_inside};
use std::alloc::Global;

/// A source with some of its pairs barred. The counts below are cut to `SIDE`.
#[derive(Drop)]
pub struct Bars<S> {
    below: S,
    barred: Grid,
    ghost room: { ((grid_pairs barred).programmes ≡ side) × ((grid_pairs barred).slots ≡ side) },
}

impl<S: PairSource + Drop> Bars<S> {
    /// A layer over the source in which nothing is barred yet.
    pub fn new(heap: Global, below: S) -> Result<Bars<S>, MakeError>
        ensures answer { make_refusal_of result ≡ None }
        ensures below { IfOk result (λ bars. bars.below ≡ below) }
        ensures pairs { IfOk result (λ bars. barred_pairs (S.PairSource.pairs below) bars.barred ≡ cut (S.PairSource.pairs below)) }
    {
        Ok(Bars {
            below,
            barred: Grid::new(heap, SIDE, SIDE)?,
        })
    }
}

impl<S: PairSource> Bars<S> {
    // Bars a pair that is allowed below, or lifts it.
    fn set_barred(&mut self, programme: Num, slot: Num, barred: bool)
        requires { holds (cut (S.PairSource.pairs self.old.below)) programme slot ≡ true }
        ensures below { self.new.below ≡ self.old.below }
        ensures pairs { barred_pairs (S.PairSource.pairs self.old.below) self.new.barred ≡ changed (barred_pairs (S.PairSource.pairs self.old.below) self.old.barred) programme slot (not barred) }
    {
        let _ = self.barred.mark(programme as usize, slot as usize, barred);
    }
}

impl<S: PairSource> PairSource for Bars<S> {
    ghost pairs = { λ bars. barred_pairs (S.PairSource.pairs bars.below) bars.barred };

    fn programmes(&self) -> Num {
        self.below.programmes().min(SIDE as Num)
    }

    fn slots(&self) -> Num {
        self.below.slots().min(SIDE as Num)
    }

    fn first_slot(&self, programme: Num, from: usize) -> Option<Num> {
        first_slot_left(&self.below, &self.barred, programme, from)
    }

    fn first_programme(&self, slot: Num, from: usize) -> Option<Num> {
        first_slot_left(&Turned(&self.below), &Turned(&self.barred), slot, from)
    }
}

impl<S: PairSource> OpenSource for Bars<S> {
    ghost possible = { λ bars. holds (cut (S.PairSource.pairs bars.below)) };

    fn bar(&mut self, programme: Num, slot: Num) -> Result<(), Refusal> {
        if !is_inside(self, programme, slot) {
            return Err(Refusal::UnknownNumber);
        }
        if !allows(self, programme, slot) {
            return Err(Refusal::NotAllowed);
        }
        self.set_barred(programme, slot, true);
        Ok(())
    }

    fn lift(&mut self, programme: Num, slot: Num) -> Result<(), Refusal> {
        if !is_inside(self, programme, slot) {
            return Err(Refusal::UnknownNumber);
        }
        if allows(self, programme, slot) {
            return Err(Refusal::AlreadyAllowed);
        }
        if !allows(&self.below, programme, slot) {
            return Err(Refusal::NotPossible);
        }
        self.set_barred(programme, slot, false);
        Ok(())
    }
}
