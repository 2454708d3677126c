//! The fit source is made and asked.
ghost use Rattle.std.specs.Prelude.{◌≡◌, IfOk, vec_len};
ghost use Rattle.refusal.specs.Refusals.{refusal_of, first_refusal};
ghost use Rattle.source.specs.Pairs.{holds};
ghost use Rattle.source.specs.Makes.{count_refusals};
ghost use Rattle.fit.specs.Fitting.{fits as fit_test, fitting, fit_pairs};

use crate::times::is_late_start;
use crate::{Fit, Programme, Slot};
use refusal::Refusal;
use refusal::limits::{Num, SIDE, is_within};
use source::PairSource;

/// Whether the programme may run in the slot.
pub fn fits(programme: &Programme, slot: &Slot) -> bool
    ensures { result ≡ fit_test programme.now slot.now }
{
    programme.length() <= slot.length() && (!programme.is_late() || is_late_start(slot.start()))
}

impl Fit {
    /// A source of these programmes and slots. Refuses 12 when there are more than `SIDE` of either.
    pub fn new(programmes: Vec<Programme>, slots: Vec<Slot>) -> Result<Fit, Refusal>
        ensures answer { refusal_of result ≡ first_refusal (count_refusals (vec_len programmes) (vec_len slots)) }
        ensures pairs { IfOk result (λ fit. fit_pairs fit ≡ fitting programmes.items slots.items) }
    {
        if programmes.len() > SIDE || slots.len() > SIDE {
            return Err(Refusal::Mismatch);
        }
        Ok(Fit { programmes, slots })
    }

    /// Whether the pair is within the counts and fits.
    pub fn is_allowed(&self, programme: usize, slot: usize) -> bool
        ensures { result ≡ holds (fit_pairs self.now) programme slot }
    {
        is_within(self.programmes.len(), programme)
            && is_within(self.slots.len(), slot)
            && fits(&self.programmes[programme - 1], &self.slots[slot - 1])
    }
}

impl PairSource for Fit {
    ghost pairs = { fit_pairs };

    fn programmes(&self) -> Num {
        self.programmes.len() as Num
    }

    fn slots(&self) -> Num {
        self.slots.len() as Num
    }

    fn first_slot(&self, programme: Num, from: usize) -> Option<Num> {
        let programme = programme as usize;
        if !is_within(self.programmes() as usize, programme) {
            return None;
        }
        let programme = &self.programmes[programme - 1];
        // The list begins with slot 1.
        let from = from.max(1);
        let slots = self.slots.get(from - 1..)?;
        let found = slots.iter().position(|slot| fits(programme, slot))?;
        Some((from + found) as Num)
    }

    fn first_programme(&self, slot: Num, from: usize) -> Option<Num> {
        let slot = slot as usize;
        if !is_within(self.slots() as usize, slot) {
            return None;
        }
        let slot = &self.slots[slot - 1];
        let from = from.max(1);
        let programmes = self.programmes.get(from - 1..)?;
        let found = programmes
            .iter()
            .position(|programme| fits(programme, slot))?;
        Some((from + found) as Num)
    }
}
