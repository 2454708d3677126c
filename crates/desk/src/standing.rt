//! A week as a desk holds it: open, or handed over.
ghost use Rattle.std.specs.Prelude.{◌≡◌, false, true, cond, length, OnErr, OnOk, nat_le};
ghost use Rattle.refusal.specs.Refusals.{refusal_of, first_refusal};
ghost use Rattle.plan.specs.Parts.{fit_with};
ghost use Rattle.week.specs.Calls.{certificate_refusals};
ghost use Rattle.week.specs.Sheets.{plan_in, certificate_in, entry_count, over};
ghost use Rattle.desk.specs.Desks.{sheet_of, is_open};
ghost use Rattle.desk.specs.Told.{told, done, not_offered};

use crate::calls::{Answer, Served, Unserved};
use plan::Plan;
use plan::parts::Parts;
use planner::certificate::Certificate;
use priority::Priority;
use refusal::Refusal;
use source::PairSource;
use week::{FiledWeek, Week};

/// A week that is open, or one that is handed over.
#[derive(Drop)]
pub(crate) enum Standing {
    Open(Week),
    HandedOver(FiledWeek),
}

impl Standing {
    /// The plan with its attendance.
    pub(crate) fn plan(&self) -> &Plan
        ensures { result.now ≡ (sheet_of self.now).plan }
    {
        match self {
            Standing::Open(week) => week.plan(),
            Standing::HandedOver(week) => week.plan(),
        }
    }

    /// The stored certificate.
    pub(crate) fn stored(&self) -> &Certificate
        ensures { result.now ≡ (sheet_of self.now).certificate }
    {
        match self {
            Standing::Open(week) => week.stored(),
            Standing::HandedOver(week) => week.stored(),
        }
    }

    /// Writes the stored certificate over the start of the table, as the week does.
    pub(crate) fn certificate<S: PairSource, P: Priority + Copy>(
        &self,
        parts: &Parts<S, P>,
        table: &mut [u16],
    ) -> Result<(), Refusal>
        ensures answer { refusal_of result ≡ first_refusal (certificate_refusals (fit_with S.PairSource.pairs parts.now (plan_in (sheet_of self.now))) (nat_le (entry_count (sheet_of self.now)) (length table.old))) }
        ensures kept { OnErr result (table.new ≡ table.old) }
        ensures told { OnOk result (table.new ≡ over (certificate_in (sheet_of self.now)) table.old) }
    {
        match self {
            Standing::Open(week) => week.certificate(parts, table),
            Standing::HandedOver(week) => week.certificate(parts, table),
        }
    }

    /// Hands the week over, which only an open one offers.
    pub(crate) fn hand_over(self) -> (Standing, Served)
        ensures opened { is_open result.0 ≡ false }
        ensures sheet { sheet_of result.0 ≡ sheet_of self }
        ensures told { told result.1 ≡ cond (is_open self) done not_offered }
    {
        match self {
            Standing::Open(week) => (Standing::HandedOver(week.hand_over()), Ok(Answer::Done)),
            Standing::HandedOver(week) => (Standing::HandedOver(week), Err(Unserved::NotOffered)),
        }
    }

    /// Opens the week again, which only one that is handed over offers.
    pub(crate) fn reopen(self) -> (Standing, Served)
        ensures opened { is_open result.0 ≡ true }
        ensures sheet { sheet_of result.0 ≡ sheet_of self }
        ensures told { told result.1 ≡ cond (is_open self) not_offered done }
    {
        match self {
            Standing::Open(week) => (Standing::Open(week), Err(Unserved::NotOffered)),
            Standing::HandedOver(week) => (Standing::Open(week.reopen()), Ok(Answer::Done)),
        }
    }
}
