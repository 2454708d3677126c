//! A grid as an open source, and as what a layer takes out.
ghost use Rattle.std.specs.Prelude.{◌≡◌};
ghost use Rattle.source.specs.Pairs.{inside, holds};
ghost use Rattle.grid.specs.GridPairs.{grid_pairs};

use crate::Grid;
use crate::cells::is_marked;
use refusal::Refusal;
use refusal::limits::{Num, is_within};
use source::layer::Exclusion;
use source::{OpenSource, PairSource};

impl PairSource for Grid {
    ghost pairs = { grid_pairs };

    fn programmes(&self) -> Num {
        self.programmes
    }

    fn slots(&self) -> Num {
        self.slots
    }

    fn first_slot(&self, programme: Num, from: usize) -> Option<Num> {
        let programme = programme as usize;
        if !is_within(self.programmes as usize, programme) {
            return None;
        }
        // The row begins with the cell of slot 1.
        let from = from.max(1);
        let cells = self.row(programme).get(from - 1..)?;
        let found = cells.iter().position(|marked| *marked)?;
        Some((from + found) as Num)
    }

    fn first_programme(&self, slot: Num, from: usize) -> Option<Num> {
        let slot = slot as usize;
        if !is_within(self.slots as usize, slot) {
            return None;
        }
        let cells: &[bool] = &self.cells;
        // Without the range's end, since with it each number costs two comparisons.
        let past = self.programmes as usize + 1;
        let found = (from.max(1)..past).find(|programme| is_marked(cells, *programme, slot));
        found.map(|programme| programme as Num)
    }
}

impl OpenSource for Grid {
    ghost possible = { λ grid. inside (grid_pairs grid) };

    fn bar(&mut self, programme: Num, slot: Num) -> Result<(), Refusal> {
        if !self.is_inside(programme as usize, slot as usize) {
            return Err(Refusal::UnknownNumber);
        }
        if !self.is_allowed(programme as usize, slot as usize) {
            return Err(Refusal::NotAllowed);
        }
        self.mark(programme as usize, slot as usize, false)
    }

    fn lift(&mut self, programme: Num, slot: Num) -> Result<(), Refusal> {
        if !self.is_inside(programme as usize, slot as usize) {
            return Err(Refusal::UnknownNumber);
        }
        if self.is_allowed(programme as usize, slot as usize) {
            return Err(Refusal::AlreadyAllowed);
        }
        self.mark(programme as usize, slot as usize, true)
    }
}

impl Exclusion for Grid {
    ghost excluded = { λ grid. holds (grid_pairs grid) };

    fn excludes(&self, programme: Num, slot: Num) -> bool {
        self.is_allowed(programme as usize, slot as usize)
    }
}
