//! What a plan holds, read: its counts, who is present, and its tables.
ghost use Rattle.std.specs.Prelude.{◌≡◌, length};
ghost use Rattle.plan.specs.Held.{held, known_pair, known, presence};

use crate::{Member, Plan};
use refusal::limits::Num;

impl Plan {
    /// How many programmes there are.
    pub fn programmes(&self) -> usize
        ensures { result ≡ length (held self.now).slot_of }
    {
        self.programmes.len()
    }

    /// How many slots there are.
    pub fn slots(&self) -> usize
        ensures { result ≡ length (held self.now).programme_in }
    {
        self.slots.len()
    }

    /// Whether there are such a programme and such a slot.
    pub fn has_pair(&self, programme: Num, slot: Num) -> bool
        ensures { result ≡ known_pair (held self.now) programme slot }
    {
        self.programmes.has(programme) && self.slots.has(slot)
    }

    /// Whether there is such a programme or slot.
    pub fn has(&self, member: Member) -> bool
        ensures { result ≡ known (held self.now) member }
    {
        match member {
            Member::Programme(number) => self.programmes.has(number),
            Member::Slot(number) => self.slots.has(number),
        }
    }

    /// Whether the member is present. One that the plan does not have is not.
    pub fn is_present(&self, member: Member) -> bool
        ensures { result ≡ presence (held self.now) member }
    {
        match member {
            Member::Programme(number) => self.programmes.is_present(number),
            Member::Slot(number) => self.slots.is_present(number),
        }
    }

    /// For each programme its slot, or 0 where it has none.
    pub fn slot_of_table(&self) -> &[Num]
        ensures { result.now ≡ (held self.now).slot_of }
    {
        &self.programmes.places
    }

    /// For each slot the programme in it, or 0 where it is not filled.
    pub fn programme_in_table(&self) -> &[Num]
        ensures { result.now ≡ (held self.now).programme_in }
    {
        &self.slots.places
    }

    /// For each programme whether it is present.
    pub fn programmes_present(&self) -> &[bool]
        ensures { result.now ≡ (held self.now).attendance.programmes }
    {
        &self.programmes.present
    }

    /// For each slot whether it is present.
    pub fn slots_present(&self) -> &[bool]
        ensures { result.now ≡ (held self.now).attendance.slots }
    {
        &self.slots.present
    }
}
