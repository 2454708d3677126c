//! How a plan is changed: pair by pair, by who is present, and by exchanging its sides.
ghost use Rattle.std.specs.Prelude.{◌≡◌, OnErr, OnOk};
ghost use Rattle.refusal.specs.Refusals.{refusal_of, first_refusal};
ghost use Rattle.plan.specs.Held.{held, assigned, vacated, with_presence, turned_sides, pair_refusals, member_refusals};

use crate::{Member, Plan};
use refusal::Refusal;
use refusal::limits::Num;
use std::mem::swap;

impl Plan {
    /// Puts the programme into the slot, and takes either out of the pair that it was in. Refuses 10
    /// where there is no such programme or slot.
    pub fn assign(&mut self, programme: Num, slot: Num) -> Result<(), Refusal>
        ensures answer { refusal_of result ≡ first_refusal (pair_refusals (held self.old) programme slot) }
        ensures kept { OnErr result (self.new ≡ self.old) }
        ensures after { OnOk result (held self.new ≡ assigned (held self.old) programme slot) }
    {
        if !self.has_pair(programme, slot) {
            return Err(Refusal::UnknownNumber);
        }
        let displaced = self.slots.place(slot);
        let vacated = self.programmes.place(programme);
        self.programmes.set_place(displaced, 0);
        self.programmes.set_place(programme, slot);
        self.slots.set_place(vacated, 0);
        self.slots.set_place(slot, programme);
        Ok(())
    }

    /// Takes the slot's pair out of the plan. Nothing changes where the slot is not filled.
    pub fn vacate(&mut self, slot: Num)
        ensures after { held self.new ≡ vacated (held self.old) slot }
    {
        let displaced = self.slots.place(slot);
        self.programmes.set_place(displaced, 0);
        self.slots.set_place(slot, 0);
    }

    /// Marks the member as present or absent. Refuses 10 where there is no such member.
    pub fn set_present(&mut self, member: Member, present: bool) -> Result<(), Refusal>
        ensures answer { refusal_of result ≡ first_refusal (member_refusals (held self.old) member) }
        ensures kept { OnErr result (self.new ≡ self.old) }
        ensures after { OnOk result (held self.new ≡ with_presence (held self.old) member present) }
    {
        if !self.has(member) {
            return Err(Refusal::UnknownNumber);
        }
        match member {
            Member::Programme(number) => self.programmes.set_present(number, present),
            Member::Slot(number) => self.slots.set_present(number, present),
        }
        Ok(())
    }

    /// Exchanges the sides: the slots stand where the programmes stood.
    pub fn turn(&mut self)
        ensures after { held self.new ≡ turned_sides (held self.old) }
    {
        swap(&mut self.programmes, &mut self.slots);
    }
}
