//! The edits of an open week. Each is its tests, one change, and planning anew.
ghost use Rattle.std.specs.Prelude.{◌≡◌, true, false, OnErr, OnOk};
ghost use Rattle.refusal.specs.Refusals.{refusal_of, first_refusal};
ghost use Rattle.source.specs.Pairs.{changed};
ghost use Rattle.plan.specs.Held.{known, presence, attending};
ghost use Rattle.plan.specs.Parts.{ranked, fits, fit_with, one_refusals};
ghost use Rattle.week.specs.Planned.{Planned, PlannedFor};
ghost use Rattle.week.specs.Calls.{withdraw_refusals, restore_refusals, week_bar_refusals, week_lift_refusals};
ghost use Rattle.week.specs.Sheets.{plan_in, certificate_in, programmes_with, slots_with};

use crate::Week;
use plan::Member;
use plan::parts::Parts;
use priority::Priority;
use priority::ranking::Ranking;
use refusal::Refusal;
use refusal::limits::Num;
use source::{OpenSource, PairSource};

impl Week {
    /// Marks a programme or slot as absent. Refuses 12 where the parts do not fit together, 10 where
    /// there is no such one, and 14 where it is absent already.
    pub fn withdraw<S: PairSource, P: Priority + Copy>(
        &mut self,
        parts: &Parts<S, P>,
        member: Member,
    ) -> Result<(), Refusal>
        ensures answer { refusal_of result ≡ first_refusal (withdraw_refusals (fit_with S.PairSource.pairs parts.now (plan_in self.old.sheet)) (known (plan_in self.old.sheet) member) (presence (plan_in self.old.sheet) member)) }
        ensures kept { OnErr result (self.new ≡ self.old) }
        ensures attendance { OnOk result ((plan_in self.new.sheet).attendance ≡ attending (plan_in self.old.sheet).attendance member false) }
        ensures planned { OnOk result (PlannedFor P.Priority.reaches S.PairSource.pairs parts.now self.new.sheet) }
    {
        if !self.sheet.presence(parts, member)? {
            return Err(Refusal::AlreadyAbsent);
        }
        self.sheet.plan.set_present(member, false)?;
        self.sheet.renew(parts);
        Ok(())
    }

    /// Marks a programme or slot as present again. Refuses 12 where the parts do not fit together, 10 where
    /// there is no such one, and 15 where it is present already.
    pub fn restore<S: PairSource, P: Priority + Copy>(
        &mut self,
        parts: &Parts<S, P>,
        member: Member,
    ) -> Result<(), Refusal>
        ensures answer { refusal_of result ≡ first_refusal (restore_refusals (fit_with S.PairSource.pairs parts.now (plan_in self.old.sheet)) (known (plan_in self.old.sheet) member) (presence (plan_in self.old.sheet) member)) }
        ensures kept { OnErr result (self.new ≡ self.old) }
        ensures attendance { OnOk result ((plan_in self.new.sheet).attendance ≡ attending (plan_in self.old.sheet).attendance member true) }
        ensures planned { OnOk result (PlannedFor P.Priority.reaches S.PairSource.pairs parts.now self.new.sheet) }
    {
        if self.sheet.presence(parts, member)? {
            return Err(Refusal::AlreadyPresent);
        }
        self.sheet.plan.set_present(member, true)?;
        self.sheet.renew(parts);
        Ok(())
    }

    /// Takes a pair out of the source's allowed ones. Refuses 12 where the parts do not fit together,
    /// then as the source does: 10, and 16 where the pair is not allowed.
    pub fn bar<'a, S: OpenSource, P: Priority + Copy>(
        &mut self,
        source: &mut S,
        programmes: &'a Ranking<'a, P>,
        slots: &'a Ranking<'a, P>,
        programme: Num,
        slot: Num,
    ) -> Result<(), Refusal>
        ensures answer { refusal_of result ≡ first_refusal (week_bar_refusals (fits (S.PairSource.pairs source.old) (ranked programmes.now) (ranked slots.now) (plan_in self.old.sheet)) (S.PairSource.pairs source.old) programme slot) }
        ensures kept { OnErr result ((self.new ≡ self.old) × (source.new ≡ source.old)) }
        ensures pairs { OnOk result (S.PairSource.pairs source.new ≡ changed (S.PairSource.pairs source.old) programme slot false) }
        ensures possible { S.OpenSource.possible source.new ≡ S.OpenSource.possible source.old }
        ensures attendance { OnOk result ((plan_in self.new.sheet).attendance ≡ (plan_in self.old.sheet).attendance) }
        ensures planned { OnOk result (Planned P.Priority.reaches (S.PairSource.pairs source.new) (ranked programmes.now) (ranked slots.now) (plan_in self.new.sheet) (certificate_in self.new.sheet)) }
    {
        if !self.sheet.plan.fits(&Parts {
            source: &*source,
            programmes,
            slots,
        }) {
            return Err(Refusal::Mismatch);
        }
        source.bar(programme, slot)?;
        self.sheet.renew(&Parts {
            source: &*source,
            programmes,
            slots,
        });
        Ok(())
    }

    /// Puts a pair into the source's allowed ones. Refuses 12 where the parts do not fit together, then
    /// as the source does: 10, 17 where the pair is allowed already, and 18 where it is not possible.
    pub fn lift<'a, S: OpenSource, P: Priority + Copy>(
        &mut self,
        source: &mut S,
        programmes: &'a Ranking<'a, P>,
        slots: &'a Ranking<'a, P>,
        programme: Num,
        slot: Num,
    ) -> Result<(), Refusal>
        ensures answer { refusal_of result ≡ first_refusal (week_lift_refusals (fits (S.PairSource.pairs source.old) (ranked programmes.now) (ranked slots.now) (plan_in self.old.sheet)) (S.PairSource.pairs source.old) (S.OpenSource.possible source.old) programme slot) }
        ensures kept { OnErr result ((self.new ≡ self.old) × (source.new ≡ source.old)) }
        ensures pairs { OnOk result (S.PairSource.pairs source.new ≡ changed (S.PairSource.pairs source.old) programme slot true) }
        ensures possible { S.OpenSource.possible source.new ≡ S.OpenSource.possible source.old }
        ensures attendance { OnOk result ((plan_in self.new.sheet).attendance ≡ (plan_in self.old.sheet).attendance) }
        ensures planned { OnOk result (Planned P.Priority.reaches (S.PairSource.pairs source.new) (ranked programmes.now) (ranked slots.now) (plan_in self.new.sheet) (certificate_in self.new.sheet)) }
    {
        if !self.sheet.plan.fits(&Parts {
            source: &*source,
            programmes,
            slots,
        }) {
            return Err(Refusal::Mismatch);
        }
        source.lift(programme, slot)?;
        self.sheet.renew(&Parts {
            source: &*source,
            programmes,
            slots,
        });
        Ok(())
    }

    /// Sets the priority of a programme or slot. Refuses 12 where the parts do not fit together, and 10
    /// where there is no such one.
    pub fn rank<S: PairSource, P: Priority + Copy>(
        &mut self,
        source: &S,
        programmes: &mut Ranking<P>,
        slots: &mut Ranking<P>,
        member: Member,
        priority: P,
    ) -> Result<(), Refusal>
        ensures answer { refusal_of result ≡ first_refusal (one_refusals (fits (S.PairSource.pairs source.now) (ranked programmes.old) (ranked slots.old) (plan_in self.old.sheet)) (known (plan_in self.old.sheet) member)) }
        ensures kept { OnErr result ((self.new ≡ self.old) × (ranked programmes.new ≡ ranked programmes.old) × (ranked slots.new ≡ ranked slots.old)) }
        ensures programmes { OnOk result (ranked programmes.new ≡ programmes_with (ranked programmes.old) member priority) }
        ensures slots { OnOk result (ranked slots.new ≡ slots_with (ranked slots.old) member priority) }
        ensures lent { (programmes.new.table.ghost_name ≡ programmes.old.table.ghost_name) × (slots.new.table.ghost_name ≡ slots.old.table.ghost_name) }
        ensures attendance { OnOk result ((plan_in self.new.sheet).attendance ≡ (plan_in self.old.sheet).attendance) }
        ensures planned { OnOk result (Planned P.Priority.reaches (S.PairSource.pairs source.now) (ranked programmes.new) (ranked slots.new) (plan_in self.new.sheet) (certificate_in self.new.sheet)) }
    {
        let parts = Parts {
            source,
            programmes: &*programmes,
            slots: &*slots,
        };
        if !self.sheet.plan.fits(&parts) {
            return Err(Refusal::Mismatch);
        }
        if !self.sheet.plan.has(member) {
            return Err(Refusal::UnknownNumber);
        }
        match member {
            Member::Programme(number) => programmes.set(number as usize, priority)?,
            Member::Slot(number) => slots.set(number as usize, priority)?,
        }
        self.sheet.renew(&Parts {
            source,
            programmes: &*programmes,
            slots: &*slots,
        });
        Ok(())
    }
}
