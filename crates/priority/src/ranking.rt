//! A ranking: the priorities of one side, in a table that the caller supplies, of any kind.
ghost use Rattle.std.specs.Prelude.{◌≡◌, length, OnErr, OnOk};
ghost use Rattle.refusal.specs.Refusals.{refusal_of, first_refusal};
ghost use Rattle.refusal.specs.Tables.{item, put};
ghost use Rattle.priority.specs.Places.{place_refusals, highest as highest_of};

use crate::Priority;
use crate::places::{highest, priority_at, set_priority};
use refusal::Refusal;

/// A list of priorities in a table that its owner lends. Places are counted from 1.
#[derive(Drop)]
pub struct Ranking<'a, P> {
    table: &'a mut [P],
}

impl<'a, P: Priority + Copy> Ranking<'a, P> {
    /// The ranking of the table's priorities. Its owner sees what a `set` writes.
    pub fn new(table: &'a mut [P]) -> Ranking<'a, P>
        ensures value { result.table.now ≡ table.old }
        ensures lent { result.table.ghost_name ≡ table.entry.ghost_name }
    {
        Ranking { table }
    }

    /// How many priorities there are.
    pub fn len(&self) -> usize
        ensures { result ≡ length self.now.table.now }
    {
        self.table.len()
    }

    /// The priorities in their order.
    pub fn as_slice(&self) -> &[P]
        ensures { result.now ≡ self.now.table.now }
    {
        &*self.table
    }

    /// The priority at the number, or none under 0 and beyond the length.
    pub fn get(&self, number: usize) -> Option<P>
        ensures { result ≡ item self.now.table.now number }
    {
        priority_at(self.table, number).copied()
    }

    /// Sets the priority at the number; refusal 10 under 0 and beyond the length.
    pub fn set(&mut self, number: usize, priority: P) -> Result<(), Refusal>
        ensures answer { refusal_of result ≡ first_refusal (place_refusals (length self.old.table.now) number) }
        ensures kept { OnErr result (self.new.table.now ≡ self.old.table.now) }
        ensures after { OnOk result (self.new.table.now ≡ put self.old.table.now number priority) }
        ensures lent { self.new.table.ghost_name ≡ self.old.table.ghost_name }
    {
        set_priority(self.table, number, priority)
    }

    /// The lowest number among the marked places that are at least as high as every marked place.
    pub fn highest(&self, marks: &[u8]) -> Option<usize>
        ensures { result ≡ highest_of P.Priority.reaches self.now.table.now marks.now }
    {
        highest(self.table, marks)
    }
}
