//! How a plan is made and emptied.
ghost use Rattle.std.specs.Prelude.{◌≡◌, IfOk, OnErr, OnOk};
ghost use Rattle.refusal.specs.Refusals.{refusal_of, first_refusal};
ghost use Rattle.source.specs.Makes.{count_refusals};
ghost use Rattle.plan.specs.Held.{held, nothing};

use crate::Plan;
use crate::side::Side;
use refusal::Refusal;
use refusal::limits::SIDE;
use std::alloc::{AllocError, Global};

impl Plan {
    /// A plan of no programmes and no slots, with room for `SIDE` a side.
    pub fn new(heap: Global) -> Result<Plan, AllocError>
        ensures after { IfOk result (λ plan. held plan ≡ nothing 0 0) }
    {
        let programmes = Side::new(heap)?;
        let slots = Side::new(heap)?;
        Ok(Plan { programmes, slots })
    }

    /// Gives the plan these counts, with everyone present and nobody placed. Refuses 12 when a count
    /// is over `SIDE`.
    pub fn reset(&mut self, programmes: usize, slots: usize) -> Result<(), Refusal>
        ensures answer { refusal_of result ≡ first_refusal (count_refusals programmes slots) }
        ensures kept { OnErr result (self.new ≡ self.old) }
        ensures after { OnOk result (held self.new ≡ nothing programmes slots) }
    {
        if programmes > SIDE || slots > SIDE {
            return Err(Refusal::Mismatch);
        }
        self.programmes.reset(programmes);
        self.slots.reset(slots);
        Ok(())
    }
}
