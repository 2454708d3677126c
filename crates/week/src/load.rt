//! Load: a week takes the counts of a source, with everyone present.
ghost use Rattle.std.specs.Prelude.{◌≡◌, OnErr, OnOk};
ghost use Rattle.refusal.specs.Refusals.{refusal_of, first_refusal};
ghost use Rattle.plan.specs.Held.{everyone};
ghost use Rattle.plan.specs.Parts.{ranked, parts_fit, whole_refusals};
ghost use Rattle.week.specs.Planned.{PlannedFor};
ghost use Rattle.week.specs.Sheets.{plan_in};

use crate::Week;
use plan::parts::Parts;
use priority::Priority;
use refusal::Refusal;
use source::PairSource;

impl Week {
    /// Takes the counts of the source, makes everyone present, and plans from nothing. Refuses 12 where
    /// source and rankings do not fit together.
    pub fn load<S: PairSource, P: Priority + Copy>(
        &mut self,
        parts: &Parts<S, P>,
    ) -> Result<(), Refusal>
        ensures answer { refusal_of result ≡ first_refusal (whole_refusals (parts_fit (S.PairSource.pairs parts.now.source.now) (ranked parts.now.programmes.now) (ranked parts.now.slots.now))) }
        ensures kept { OnErr result (self.new ≡ self.old) }
        ensures attendance { OnOk result ((plan_in self.new.sheet).attendance ≡ everyone (S.PairSource.pairs parts.now.source.now).programmes (S.PairSource.pairs parts.now.source.now).slots) }
        ensures planned { OnOk result (PlannedFor P.Priority.reaches S.PairSource.pairs parts.now self.new.sheet) }
    {
        if !parts.fit() {
            return Err(Refusal::Mismatch);
        }
        self.sheet.plan.reset(
            parts.source.programmes() as usize,
            parts.source.slots() as usize,
        )?;
        self.sheet.renew(parts);
        Ok(())
    }
}
