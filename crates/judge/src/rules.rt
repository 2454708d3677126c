//! The judge's tests: is the plan lawful, and does each programme keep the rules of the certificate?
ghost use Rattle.std.specs.Prelude.{◌≡◌};
ghost use Rattle.refusal.specs.Counting.{all};
ghost use Rattle.refusal.specs.Tables.{at};
ghost use Rattle.matching.specs.Check.{rules as rules_kept};
ghost use Rattle.matching.specs.Lists.{plan_of};
ghost use Rattle.judge.specs.Handed.{shown, Fit, board_in};
ghost use Rattle.judge.specs.Tests.{left_out, well_named, blocked, stands};

use crate::view::{Side, View};
use priority::Priority;
use priority::places::reaches;
use refusal::limits::Num;
use refusal::tables::entry;
use source::{PairSource, allows};

impl<'a, P: Priority> Side<'a, P> {
    /// Whether the member is present and has no place.
    fn is_left_out(&self, number: usize) -> bool
        ensures { result ≡ left_out self.now.present.now self.now.places.now number }
    {
        entry(false, self.present, number) && entry(0, self.places, number) == 0
    }

    /// Rules 1 and 2: one that is left out names itself, and whoever names one is present and at least
    /// as high as that one, which is left out.
    fn names_well(&self, names: &[u16], number: usize) -> bool
        ensures { result ≡ well_named P.Priority.reaches self.now.priorities.now self.now.present.now self.now.places.now names.now number }
    {
        let name = entry(0, names, number) as usize;
        (!self.is_left_out(number) || name == number)
            && (name == 0
                || (entry(false, self.present, number)
                    && self.is_left_out(name)
                    && reaches(self.priorities, number, name)))
    }
}

impl<'a, S, P: Priority> View<'a, S, P> {
    /// Rule 3 at one slot: if it is present, it holds one whose name is at least as high as `name`.
    fn is_blocked(&self, names: &[u16], name: usize, slot: usize) -> bool
        ensures { result ≡ blocked P.Priority.reaches self.now.programmes.priorities.now self.now.slots.present.now self.now.slots.places.now names.now name slot }
    {
        let holder = entry(0, self.slots.places, slot) as usize;
        let holder_name = entry(0, names, holder) as usize;
        !entry(false, self.slots.present, slot)
            || reaches(self.programmes.priorities, holder_name, name)
    }
}

impl<'a, S: PairSource, P> View<'a, S, P> {
    /// Whether the programme has no slot, or may run in the one it has.
    fn may_stand(&self, programme: Num) -> bool
        ensures { result ≡ stands (shown S.PairSource.pairs self.now) programme }
    {
        let slot = entry(0, self.programmes.places, programme as usize);
        slot == 0
            || (entry(false, self.programmes.present, programme as usize)
                && entry(false, self.slots.present, slot as usize)
                && allows(self.source, programme, slot))
    }

    /// Whether each pair of the plan is allowed, and both of it present.
    pub(crate) fn is_lawful(&self) -> bool
        ensures { result ≡ all (stands (shown S.PairSource.pairs self.now)) (S.PairSource.pairs self.now.source.now).programmes }
    {
        (1..=self.source.programmes()).all(|programme| self.may_stand(programme))
    }
}

impl<'a, S: PairSource, P: Priority> View<'a, S, P> {
    /// Whether each programme keeps the rules. `names` has one entry for each.
    pub(crate) fn keeps_rules(&self, names: &[u16]) -> bool
        requires { Fit (shown S.PairSource.pairs self.now) }
        ensures { result ≡ rules_kept (board_in P.Priority.reaches (shown S.PairSource.pairs self.now)) (plan_of (shown S.PairSource.pairs self.now).plan.slot_of) (at 0 names.now) }
    {
        let mut passed = true;
        'rules: for programme in 1..=self.source.programmes() {
            if !self.programmes.names_well(names, programme as usize) {
                passed = false;
                break 'rules;
            }
            let name = entry(0, names, programme as usize) as usize;
            if name == 0 {
                continue;
            }
            let mut from = 1;
            while let Some(slot) = self.source.first_slot(programme, from) {
                if !self.is_blocked(names, name, slot as usize) {
                    passed = false;
                    break 'rules;
                }
                from = slot as usize + 1;
            }
        }
        passed
    }
}
