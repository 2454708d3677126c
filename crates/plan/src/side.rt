//! One side of a plan: the place of each member, and who is present.
ghost use Rattle.std.specs.Prelude.{◌≡◌, ◌≤◌, IfOk, [], true, false, length, replicate, vec_len, vec_capacity};
ghost use Rattle.refusal.specs.Limits.{side};
ghost use Rattle.refusal.specs.Counting.{within};
ghost use Rattle.refusal.specs.Tables.{at, put};

use refusal::limits::{Num, SIDE, is_within};
use refusal::tables::{entry, refill, write};
use std::alloc::{AllocError, Global};

/// For each member its place on the other side, or 0 where it has none, and whether it is present.
/// There is room for `SIDE` of them.
#[derive(Drop)]
pub(crate) struct Side {
    pub(crate) places: Vec<Num>,
    pub(crate) present: Vec<bool>,
    ghost few: { vec_len places ≤ side },
    ghost together: { vec_len present ≡ vec_len places },
    ghost room: { (side ≤ vec_capacity places) × (side ≤ vec_capacity present) },
}

impl Side {
    /// A side of nobody.
    pub(crate) fn new(heap: Global) -> Result<Side, AllocError>
        ensures { IfOk result (λ made. (made.places.items ≡ []) × (made.present.items ≡ [])) }
    {
        let places = Vec::with_capacity(heap, SIDE)?;
        let present = Vec::with_capacity(heap, SIDE)?;
        Ok(Side { places, present })
    }

    /// Makes the side one of so many, all present and without a place.
    pub(crate) fn reset(&mut self, count: usize)
        requires { count ≤ side }
        ensures places { self.new.places.items ≡ replicate count 0 }
        ensures present { self.new.present.items ≡ replicate count true }
    {
        let _ = refill(&mut self.places, count, 0);
        let _ = refill(&mut self.present, count, true);
    }

    /// How many there are.
    pub(crate) fn len(&self) -> usize
        ensures { result ≡ length self.now.places.items }
    {
        self.places.len()
    }

    /// Whether there is such a member.
    pub(crate) fn has(&self, number: Num) -> bool
        ensures { result ≡ within (length self.now.places.items) number }
    {
        is_within(self.places.len(), number as usize)
    }

    /// The member's place, or 0.
    pub(crate) fn place(&self, number: Num) -> Num
        ensures { result ≡ at 0 self.now.places.items number }
    {
        entry(0, &self.places, number as usize)
    }

    /// Gives the member that place; nothing where there is no such member.
    pub(crate) fn set_place(&mut self, number: Num, place: Num)
        ensures places { self.new.places.items ≡ put self.old.places.items number place }
        ensures kept { self.new.present.items ≡ self.old.present.items }
    {
        write(&mut self.places, number as usize, place);
    }

    /// Whether the member is present. One that is not there is not.
    pub(crate) fn is_present(&self, number: Num) -> bool
        ensures { result ≡ at false self.now.present.items number }
    {
        entry(false, &self.present, number as usize)
    }

    /// Marks the member as present or absent; nothing where there is no such member.
    pub(crate) fn set_present(&mut self, number: Num, present: bool)
        ensures present { self.new.present.items ≡ put self.old.present.items number present }
        ensures kept { self.new.places.items ≡ self.old.places.items }
    {
        write(&mut self.present, number as usize, present);
    }
}
