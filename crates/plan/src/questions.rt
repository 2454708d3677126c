//! The questions that a plan answers, handed the source and the rankings that it stands for.
ghost use Rattle.std.specs.Prelude.{◌≡◌, ◌≤◌, Bool, IfOk};
ghost use Rattle.std.specs.Fn.{FnReturnsAt};
ghost use Rattle.refusal.specs.Limits.{side};
ghost use Rattle.refusal.specs.Refusals.{refusal_of, first_refusal};
ghost use Rattle.matching.specs.Board.{slot_of as slot_told, programme_in as programme_told, tally as tally_told, digit as digit_told};
ghost use Rattle.matching.specs.Lists.{plan_of};
ghost use Rattle.plan.specs.declared.Member.TheVariants.{Programme, Slot};
ghost use Rattle.plan.specs.Held.{held, known};
ghost use Rattle.plan.specs.Counting.{Answers, counted};
ghost use Rattle.plan.specs.Parts.{fit_with, board_with, place_told, whole_refusals, one_refusals};

use crate::parts::Parts;
use crate::{Member, Plan};
use priority::Priority;
use refusal::Refusal;
use refusal::limits::Num;
use source::PairSource;

impl Plan {
    /// Whether source and rankings fit together, and the plan has the source's counts.
    pub fn fits<S: PairSource, P: Priority + Copy>(&self, parts: &Parts<S, P>) -> bool
        ensures { result ≡ fit_with S.PairSource.pairs parts.now (held self.now) }
    {
        parts.fit()
            && self.programmes.len() == parts.source.programmes() as usize
            && self.slots.len() == parts.source.slots() as usize
    }

    /// The slot in which the programme runs, or none. Refuses 12 where the parts do not fit together,
    /// then 10 where there is no such programme.
    pub fn slot_of<S: PairSource, P: Priority + Copy>(
        &self,
        parts: &Parts<S, P>,
        programme: Num,
    ) -> Result<Option<Num>, Refusal>
        ensures answer { refusal_of result ≡ first_refusal (one_refusals (fit_with S.PairSource.pairs parts.now (held self.now)) (known (held self.now) (Programme programme))) }
        ensures told { IfOk result (λ slot. slot ≡ slot_told (board_with P.Priority.reaches S.PairSource.pairs parts.now (held self.now)) (plan_of (held self.now).slot_of) programme) }
    {
        self.place_of(parts, Member::Programme(programme))
    }

    /// The programme that runs in the slot, or none. Refuses 12 where the parts do not fit together,
    /// then 10 where there is no such slot.
    pub fn programme_in<S: PairSource, P: Priority + Copy>(
        &self,
        parts: &Parts<S, P>,
        slot: Num,
    ) -> Result<Option<Num>, Refusal>
        ensures answer { refusal_of result ≡ first_refusal (one_refusals (fit_with S.PairSource.pairs parts.now (held self.now)) (known (held self.now) (Slot slot))) }
        ensures told { IfOk result (λ programme. programme ≡ programme_told (board_with P.Priority.reaches S.PairSource.pairs parts.now (held self.now)) (plan_of (held self.now).slot_of) slot) }
    {
        self.place_of(parts, Member::Slot(slot))
    }

    /// The member's place, or none. Refuses 12 where the parts do not fit together, then 10 where there
    /// is no such member.
    fn place_of<S: PairSource, P: Priority + Copy>(
        &self,
        parts: &Parts<S, P>,
        member: Member,
    ) -> Result<Option<Num>, Refusal>
        ensures answer { refusal_of result ≡ first_refusal (one_refusals (fit_with S.PairSource.pairs parts.now (held self.now)) (known (held self.now) member)) }
        ensures told { IfOk result (λ place. place ≡ place_told (board_with P.Priority.reaches S.PairSource.pairs parts.now (held self.now)) (plan_of (held self.now).slot_of) member) }
    {
        if !self.fits(parts) {
            return Err(Refusal::Mismatch);
        }
        if !self.has(member) {
            return Err(Refusal::UnknownNumber);
        }
        let place = match member {
            Member::Programme(number) => self.programmes.place(number),
            Member::Slot(number) => self.slots.place(number),
        };
        Ok((place != 0).then_some(place))
    }

    /// The programmes placed, and the slots filled, of whose priority the question holds. Refuses 12
    /// where the parts do not fit together.
    fn count_sides<S: PairSource, P: Priority + Copy, F: Fn(&P) -> bool + Copy>(
        &self,
        parts: &Parts<S, P>,
        asked: F,
    ) -> Result<(usize, usize), Refusal>
        requires { F.IsAlwaysCallable asked }
        ensures answer { refusal_of result ≡ first_refusal (whole_refusals (fit_with S.PairSource.pairs parts.now (held self.now))) }
        ensures few { IfOk result (λ counts. (counts.0 ≤ side) × (counts.1 ≤ side)) }
        ensures told { (question : P → P → Bool) (other : P) → Answers (FnReturnsAt F.Fn asked) question other → IfOk result (λ counts. counts ≡ counted (board_with P.Priority.reaches S.PairSource.pairs parts.now (held self.now)) (plan_of (held self.now).slot_of) question other) }
    {
        if !self.fits(parts) {
            return Err(Refusal::Mismatch);
        }
        let programmes = parts.programmes.as_slice();
        let slots = parts.slots.as_slice();
        let placed = self.programmes.count_placed(programmes, asked);
        let filled = self.slots.count_placed(slots, asked);
        Ok((placed, filled))
    }

    /// The programmes placed, and the slots filled, of that priority or higher. Refuses 12 where the
    /// parts do not fit together.
    pub fn tally<S: PairSource, P: Priority + Copy>(
        &self,
        parts: &Parts<S, P>,
        priority: &P,
    ) -> Result<(usize, usize), Refusal>
        ensures answer { refusal_of result ≡ first_refusal (whole_refusals (fit_with S.PairSource.pairs parts.now (held self.now))) }
        ensures told { IfOk result (λ counts. counts ≡ tally_told (board_with P.Priority.reaches S.PairSource.pairs parts.now (held self.now)) (plan_of (held self.now).slot_of) priority.now) }
    {
        self.count_sides(parts, |own| own.at_least(priority))
    }

    /// The score digit: the programmes placed and the slots filled whose priority is level with that
    /// one. Refuses 12 where the parts do not fit together.
    pub fn digit<S: PairSource, P: Priority + Copy>(
        &self,
        parts: &Parts<S, P>,
        priority: &P,
    ) -> Result<usize, Refusal>
        ensures answer { refusal_of result ≡ first_refusal (whole_refusals (fit_with S.PairSource.pairs parts.now (held self.now))) }
        ensures told { IfOk result (λ score. score ≡ digit_told (board_with P.Priority.reaches S.PairSource.pairs parts.now (held self.now)) (plan_of (held self.now).slot_of) priority.now) }
    {
        let level = |own: &P| own.at_least(priority) && priority.at_least(own);
        let (placed, filled) = self.count_sides(parts, level)?;
        Ok(placed + filled)
    }
}
