//! What a week tells, open or handed over: its plan, which answers the questions and is judged, and its certificate.
ghost use Rattle.std.specs.Prelude.{◌≡◌, length, IfOk, OnErr, OnOk, nat_le};
ghost use Rattle.refusal.specs.Refusals.{refusal_of, first_refusal};
ghost use Rattle.plan.specs.Held.{known, presence};
ghost use Rattle.plan.specs.Parts.{fit_with, one_refusals};
ghost use Rattle.week.specs.Calls.{certificate_refusals};
ghost use Rattle.week.specs.Sheets.{plan_in, certificate_in, entry_count, over};

use crate::{Sheet, Week};
use plan::parts::Parts;
use plan::{Member, Plan};
use planner::certificate::Certificate;
use priority::Priority;
use refusal::Refusal;
use source::PairSource;

impl Sheet {
    /// Whether the member is present. Refuses 12 where the parts do not fit together, and 10 where there
    /// is no such one.
    pub(crate) fn presence<S: PairSource, P: Priority + Copy>(
        &self,
        parts: &Parts<S, P>,
        member: Member,
    ) -> Result<bool, Refusal>
        ensures answer { refusal_of result ≡ first_refusal (one_refusals (fit_with S.PairSource.pairs parts.now (plan_in self.now)) (known (plan_in self.now) member)) }
        ensures value { IfOk result (λ present. present ≡ presence (plan_in self.now) member) }
    {
        if !self.plan.fits(parts) {
            return Err(Refusal::Mismatch);
        }
        if !self.plan.has(member) {
            return Err(Refusal::UnknownNumber);
        }
        Ok(self.plan.is_present(member))
    }

    /// Writes the stored certificate over the start of the table; further places are kept. Refuses 12
    /// where the parts do not fit together, and 13 where the table is too short.
    pub(crate) fn tell_certificate<S: PairSource, P: Priority + Copy>(
        &self,
        parts: &Parts<S, P>,
        table: &mut [u16],
    ) -> Result<(), Refusal>
        ensures answer { refusal_of result ≡ first_refusal (certificate_refusals (fit_with S.PairSource.pairs parts.now (plan_in self.now)) (nat_le (entry_count self.now) (length table.old))) }
        ensures kept { OnErr result (table.new ≡ table.old) }
        ensures told { OnOk result (table.new ≡ over (certificate_in self.now) table.old) }
    {
        if !self.plan.fits(parts) {
            return Err(Refusal::Mismatch);
        }
        if table.len() < self.certificate.programmes().len() + self.certificate.slots().len() {
            return Err(Refusal::TableTooShort);
        }
        self.write_certificate(table);
        Ok(())
    }
}

impl<State> Week<State> {
    /// The plan with its attendance, to be asked and judged.
    pub fn plan(&self) -> &Plan
        ensures { result.now ≡ self.now.sheet.plan }
    {
        &self.sheet.plan
    }

    /// The stored certificate: whom each programme and each slot names.
    pub fn stored(&self) -> &Certificate
        ensures { result.now ≡ self.now.sheet.certificate }
    {
        &self.sheet.certificate
    }

    /// Writes the stored certificate over the start of the table; further places are kept. Refuses 12
    /// where the parts do not fit together, and 13 where the table is too short.
    pub fn certificate<S: PairSource, P: Priority + Copy>(
        &self,
        parts: &Parts<S, P>,
        table: &mut [u16],
    ) -> Result<(), Refusal>
        ensures answer { refusal_of result ≡ first_refusal (certificate_refusals (fit_with S.PairSource.pairs parts.now (plan_in self.now.sheet)) (nat_le (entry_count self.now.sheet) (length table.old))) }
        ensures kept { OnErr result (table.new ≡ table.old) }
        ensures told { OnOk result (table.new ≡ over (certificate_in self.now.sheet) table.old) }
    {
        self.sheet.tell_certificate(parts, table)
    }
}
