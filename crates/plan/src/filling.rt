//! A plan from pairs that were written down: a grid in which no row and no column is used twice.
ghost use Rattle.std.specs.Prelude.{◌≡◌, ◌≤◌, true, None, OnErr, OnOk};
ghost use Rattle.refusal.specs.Limits.{side};
ghost use Rattle.refusal.specs.Counting.{within};
ghost use Rattle.source.specs.Pairs.{turned, first_slot};
ghost use Rattle.grid.specs.GridPairs.{grid_pairs};
ghost use Rattle.plan.specs.Held.{held};
ghost use Rattle.plan.specs.Filling.{first_twice, found_twice, twice_of, SameCounts, with_slot, PlanOf};

use crate::{Member, Plan};
use grid::Grid;
use refusal::limits::Num;
use source::turned::Turned;
use source::{PairSource, count_slots};

/// What stands in two pairs, so that the pairs are no plan.
#[derive(Clone, Copy, PartialEq, Eq, Debug)]
pub struct Twice(pub Member);

/// The first programme that stands in two pairs, or none.
fn find_twice<S: PairSource>(source: &S) -> Option<Num>
    ensures { result ≡ first_twice (S.PairSource.pairs source.now) }
{
    (1..=source.programmes()).find(|programme| count_slots(source, *programme) >= 2)
}

impl Plan {
    /// Takes over the grid's counts and pairs, with everyone present. Where a programme or a slot stands
    /// in two pairs it tells the first such programme, or else the first such slot, and changes nothing.
    pub fn fill(&mut self, grid: &Grid) -> Result<(), Twice>
        ensures answer { twice_of result ≡ found_twice (first_twice (grid_pairs grid.now)) (first_twice (turned (grid_pairs grid.now))) }
        ensures kept { OnErr result (self.new ≡ self.old) }
        ensures after { OnOk result (PlanOf (grid_pairs grid.now) (held self.new)) }
    {
        if let Some(programme) = find_twice(grid) {
            return Err(Twice(Member::Programme(programme)));
        }
        if let Some(slot) = find_twice(&Turned(grid)) {
            return Err(Twice(Member::Slot(slot)));
        }
        self.take_pairs(grid);
        Ok(())
    }

    /// Puts the programme into the first slot that it is paired with, if there is one.
    fn take_pair<S: PairSource>(&mut self, source: &S, programme: Num)
        requires { SameCounts (S.PairSource.pairs source.now) (held self.old) × (within (S.PairSource.pairs source.now).programmes programme ≡ true) }
        ensures { held self.new ≡ with_slot (held self.old) programme (first_slot (S.PairSource.pairs source.now) programme 1) }
    {
        if let Some(slot) = source.first_slot(programme, 1) {
            let _ = self.assign(programme, slot);
        }
    }

    /// Takes over the source's pairs, with everyone present.
    fn take_pairs<S: PairSource>(&mut self, source: &S)
        requires counts { ((S.PairSource.pairs source.now).programmes ≤ side) × ((S.PairSource.pairs source.now).slots ≤ side) }
        requires once { (first_twice (S.PairSource.pairs source.now) ≡ None) × (first_twice (turned (S.PairSource.pairs source.now)) ≡ None) }
        ensures { PlanOf (S.PairSource.pairs source.now) (held self.new) }
    {
        let _ = self.reset(source.programmes() as usize, source.slots() as usize);
        for programme in 1..=source.programmes() {
            self.take_pair(source, programme);
        }
    }
}
