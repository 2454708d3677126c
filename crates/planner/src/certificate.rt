//! The certificate of a plan: whom each programme and each slot names.
ghost use Rattle.std.specs.Prelude.{◌≡◌, ◌≤◌, [], replicate, IfOk, vec_len, vec_capacity};
ghost use Rattle.refusal.specs.Limits.{side};

use refusal::limits::{Num, SIDE};
use refusal::tables::refill;
use std::alloc::{AllocError, Global};

/// For each programme the programme that it names, and for each slot the slot; 0 names nobody.
#[derive(Drop)]
pub struct Certificate {
    pub(crate) programmes: Vec<Num>,
    pub(crate) slots: Vec<Num>,
    ghost lens: { (vec_len programmes ≤ side) × (vec_len slots ≤ side) },
    ghost room: { (side ≤ vec_capacity programmes) × (side ≤ vec_capacity slots) },
}

impl Certificate {
    /// A certificate of no programmes and no slots, with room for `SIDE` of each.
    pub fn new(heap: Global) -> Result<Certificate, AllocError>
        ensures after { IfOk result (λ certificate. (certificate.programmes.items ≡ []) × (certificate.slots.items ≡ [])) }
    {
        let programmes = Vec::with_capacity(heap, SIDE)?;
        let slots = Vec::with_capacity(heap, SIDE)?;
        Ok(Certificate { programmes, slots })
    }

    /// Makes it one of so many programmes and slots, that name nobody.
    pub(crate) fn clear_names(&mut self, programmes: usize, slots: usize)
        requires { (programmes ≤ side) × (slots ≤ side) }
        ensures programmes { self.new.programmes.items ≡ replicate programmes 0 }
        ensures slots { self.new.slots.items ≡ replicate slots 0 }
    {
        let _ = refill(&mut self.programmes, programmes, 0);
        let _ = refill(&mut self.slots, slots, 0);
    }

    /// Whom each programme names.
    pub fn programmes(&self) -> &[Num]
        ensures { result.now ≡ self.now.programmes.items }
    {
        &self.programmes
    }

    /// Whom each slot names.
    pub fn slots(&self) -> &[Num]
        ensures { result.now ≡ self.now.slots.items }
    {
        &self.slots
    }
}
