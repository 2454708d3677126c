//! How a grid is made, emptied, read and written.
ghost use Rattle.std.specs.Prelude.{◌≡◌, ◌*◌, ◌<◌, true, IfOk, length, vec_len, OnErr, OnOk};
ghost use Rattle.refusal.specs.Limits.{side};
ghost use Rattle.refusal.specs.Refusals.{refusal_of, first_refusal};
ghost use Rattle.refusal.specs.Counting.{within};
ghost use Rattle.source.specs.Pairs.{inside, holds, changed, empty_pairs};
ghost use Rattle.source.specs.Makes.{make_refusal_of, count_refusals};
ghost use Rattle.grid.specs.GridPairs.{place as place_of, has_cell, marked, row as row_of, grid_pairs, mark_refusals};

use crate::Grid;
use refusal::limits::{Num, SIDE, is_within};
use refusal::{MakeError, Refusal};
use std::alloc::Global;

impl Grid {
    /// A grid in which nothing is allowed. Refuses 12 when a count is over `SIDE`.
    pub fn new(heap: Global, programmes: usize, slots: usize) -> Result<Grid, MakeError>
        ensures answer { make_refusal_of result ≡ first_refusal (count_refusals programmes slots) }
        ensures pairs { IfOk result (λ grid. grid_pairs grid ≡ empty_pairs programmes slots) }
    {
        if programmes > SIDE || slots > SIDE {
            return Err(Refusal::Mismatch.into());
        }
        Ok(Grid {
            programmes: programmes as Num,
            slots: slots as Num,
            cells: vec![in heap; false; SIDE * SIDE]?,
        })
    }

    /// Empties the grid and gives it these counts. Refuses 12 when one is over `SIDE`.
    pub fn reset(&mut self, programmes: usize, slots: usize) -> Result<(), Refusal>
        ensures answer { refusal_of result ≡ first_refusal (count_refusals programmes slots) }
        ensures kept { OnErr result (self.new ≡ self.old) }
        ensures pairs { OnOk result (grid_pairs self.new ≡ empty_pairs programmes slots) }
    {
        if programmes > SIDE || slots > SIDE {
            return Err(Refusal::Mismatch);
        }
        self.programmes = programmes as Num;
        self.slots = slots as Num;
        self.cells.fill(false);
        Ok(())
    }

    /// Whether both numbers are within the grid's counts.
    pub fn is_inside(&self, programme: usize, slot: usize) -> bool
        ensures { result ≡ inside (grid_pairs self.now) programme slot }
    {
        is_within(self.programmes as usize, programme) && is_within(self.slots as usize, slot)
    }

    /// Whether the pair is within the counts and allowed.
    pub fn is_allowed(&self, programme: usize, slot: usize) -> bool
        ensures { result ≡ holds (grid_pairs self.now) programme slot }
    {
        self.is_inside(programme, slot) && is_marked(&self.cells, programme, slot)
    }

    /// The programme's row: a cell for each slot.
    pub(crate) fn row(&self, programme: usize) -> &[bool]
        requires { within self.now.programmes programme ≡ true }
        ensures { result.now ≡ row_of self.now programme }
    {
        let start = place(programme, 1);
        &self.cells[start..start + self.slots as usize]
    }

    /// Allows the pair, or not, as `allowed` says. Refuses 10 when a number is 0 or beyond its count.
    pub fn mark(&mut self, programme: usize, slot: usize, allowed: bool) -> Result<(), Refusal>
        ensures answer { refusal_of result ≡ first_refusal (mark_refusals (grid_pairs self.old) programme slot) }
        ensures kept { OnErr result (self.new ≡ self.old) }
        ensures pairs { OnOk result (grid_pairs self.new ≡ changed (grid_pairs self.old) programme slot allowed) }
    {
        if !self.is_inside(programme, slot) {
            return Err(Refusal::UnknownNumber);
        }
        self.cells[place(programme, slot)] = allowed;
        Ok(())
    }
}

/// Whether the pair's cell is marked.
pub(crate) fn is_marked(cells: &[bool], programme: usize, slot: usize) -> bool
    requires cell { has_cell programme slot ≡ true }
    requires room { length cells.now ≡ side * side }
    ensures { result ≡ marked cells.now programme slot }
{
    cells[place(programme, slot)]
}

/// Where the pair's cell stands.
fn place(programme: usize, slot: usize) -> usize
    requires { has_cell programme slot ≡ true }
    ensures place { result ≡ place_of programme slot }
    ensures bound { result < side * side }
{
    (programme - 1) * SIDE + (slot - 1)
}
