//! What every call of a week comes down to: planning anew, and telling the certificate.
ghost use Rattle.std.specs.Prelude.{◌≡◌, ◌+◌, ◌≤◌, true, length};
ghost use Rattle.plan.specs.Parts.{fit_with};
ghost use Rattle.week.specs.Planned.{PlannedFor};
ghost use Rattle.week.specs.Sheets.{plan_in, certificate_in, over};

use crate::Sheet;
use plan::parts::Parts;
use planner::settle::settle;
use priority::Priority;
use refusal::limits::Num;
use source::PairSource;

/// Writes the numbers over the start of the table; further places are kept.
fn write_over(numbers: &[Num], table: &mut [u16])
    requires { length numbers.now ≤ length table.old }
    ensures { table.new ≡ over numbers.now table.old }
{
    for (i, number) in numbers.iter().enumerate() {
        table[i] = u16::from(*number);
    }
}

impl Sheet {
    /// Plans anew for parts that fit together.
    pub(crate) fn renew<S: PairSource, P: Priority + Copy>(&mut self, parts: &Parts<S, P>)
        requires { fit_with S.PairSource.pairs parts.now (plan_in self.old) ≡ true }
        ensures attendance { (plan_in self.new).attendance ≡ (plan_in self.old).attendance }
        ensures planned { PlannedFor P.Priority.reaches S.PairSource.pairs parts.now self.new }
    {
        let _ = settle(
            parts,
            &mut self.plan,
            &mut self.certificate,
            &mut self.workspace,
        );
    }

    /// Writes the certificate over the start of the table.
    pub(crate) fn write_certificate(&self, table: &mut [u16])
        requires { length self.now.certificate.programmes.items + length self.now.certificate.slots.items ≤ length table.old }
        ensures { table.new ≡ over (certificate_in self.now) table.old }
    {
        let count = self.certificate.programmes().len();
        write_over(self.certificate.programmes(), table);
        write_over(self.certificate.slots(), &mut table[count..]);
    }
}
